//! One token of sight: the tokens with a meaning in common.
ghost use Rattle.std.specs.Prelude.{◌≡◌, Some, None, MatchOption};
ghost use Rattle.pv_reading.specs.Given.{ahead};
ghost use Rattle.pv_exprs.specs.Operators.{operator_of, token_of, forall_of};
ghost use Rattle.pv_tokens.specs.declared.LexemeKind.TheVariants as kind;

use crate::level::Level;
use pv_ast::{Operator, Token};
use pv_base::Span;
use pv_tokens::fixed::{COMMITTED, FORALL, FORALL_STAR, IDLE, RUNNING, UNCOMMITTED};
use pv_tokens::{Lexeme, LexemeKind};

/// The operator of the level that comes first, where it stands, and the tokens behind it.
pub fn operator_ahead(level: Level, tokens: &[Lexeme]) -> Option<(Operator, Span, &[Lexeme])>
    ensures { MatchOption result (ahead (operator_of level) tokens.now ≡ None) (λ x. ahead (operator_of level) tokens.now ≡ Some (x.0, x.1, x.2.now)) }
{
    match tokens {
        [first, rest @ ..] => match first.kind {
            LexemeKind::Fixed(number) => match level.operator(number) {
                Some(operator) => Some((operator, first.span, rest)),
                None => None,
            },
            LexemeKind::Named(_) => None,
            LexemeKind::Number(_) => None,
        },
        [] => None,
    }
}

fn token(number: u32) -> Option<Token>
    ensures { result ≡ token_of (kind.Fixed number) }
{
    match number {
        IDLE => Some(Token::Idle),
        RUNNING => Some(Token::Running),
        COMMITTED => Some(Token::Committed),
        UNCOMMITTED => Some(Token::Uncommitted),
        _ => None,
    }
}

/// The token of a thread or of a lock whose word comes first, where that stands, and the tokens behind it.
pub fn token_word(tokens: &[Lexeme]) -> Option<(Token, Span, &[Lexeme])>
    ensures { MatchOption result (ahead token_of tokens.now ≡ None) (λ x. ahead token_of tokens.now ≡ Some (x.0, x.1, x.2.now)) }
{
    match tokens {
        [first, rest @ ..] => match first.kind {
            LexemeKind::Fixed(number) => match token(number) {
                Some(token) => Some((token, first.span, rest)),
                None => None,
            },
            LexemeKind::Named(_) => None,
            LexemeKind::Number(_) => None,
        },
        [] => None,
    }
}

fn forall(number: u32) -> Option<bool>
    ensures { result ≡ forall_of (kind.Fixed number) }
{
    match number {
        FORALL_STAR => Some(true),
        FORALL => Some(false),
        _ => None,
    }
}

/// Whether the quantifier that comes first is the one of permissions, where it stands, and the tokens behind it.
pub fn forall_word(tokens: &[Lexeme]) -> Option<(bool, Span, &[Lexeme])>
    ensures { MatchOption result (ahead forall_of tokens.now ≡ None) (λ x. ahead forall_of tokens.now ≡ Some (x.0, x.1, x.2.now)) }
{
    match tokens {
        [first, rest @ ..] => match first.kind {
            LexemeKind::Fixed(number) => match forall(number) {
                Some(star) => Some((star, first.span, rest)),
                None => None,
            },
            LexemeKind::Named(_) => None,
            LexemeKind::Number(_) => None,
        },
        [] => None,
    }
}
