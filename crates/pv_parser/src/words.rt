//! What words of types and statements mean.
ghost use Rattle.std.specs.Prelude.{◌≡◌, [], ◌∷◌, Some, None, MatchOption};
ghost use Rattle.pv_reading.specs.Given.{ahead};
ghost use Rattle.pv_parser.specs.Words.{base_of, class_of};

use pv_base::Span;
use pv_tokens::fixed::{BOOL, BOOLEAN, CLASS, INT, LOCK_INVARIANT};
use pv_tokens::{Lexeme, LexemeKind};

/// The element types of arrays, which are types too.
#[derive(Clone, Copy, Debug, PartialEq, Eq, Drop)]
pub enum Base {
    Int,
    Truth,
}

/// What a statement does to the object of an expression.
#[derive(Clone, Copy, Debug, PartialEq, Eq, Drop)]
pub enum Action {
    Fork,
    Join,
    Lock,
    Unlock,
    Commit,
}

fn base_kind(kind: LexemeKind) -> Option<Base>
    ensures { result ≡ base_of kind }
{
    match kind {
        LexemeKind::Fixed(number) => match number {
            INT => Some(Base::Int),
            BOOLEAN => Some(Base::Truth),
            BOOL => Some(Base::Truth),
            _ => None,
        },
        LexemeKind::Named(_) => None,
        LexemeKind::Number(_) => None,
    }
}

fn class_kind(kind: LexemeKind) -> Option<bool>
    ensures { result ≡ class_of kind }
{
    match kind {
        LexemeKind::Fixed(number) => match number {
            LOCK_INVARIANT => Some(true),
            CLASS => Some(false),
            _ => None,
        },
        LexemeKind::Named(_) => None,
        LexemeKind::Number(_) => None,
    }
}

/// The first token, and the tokens behind it.
pub fn first_token(tokens: &[Lexeme]) -> Option<(Lexeme, &[Lexeme])>
    ensures { MatchOption result (tokens.now ≡ []) (λ x. tokens.now ≡ x.0 ∷ x.1.now) }
{
    match tokens {
        [first, rest @ ..] => Some((*first, rest)),
        [] => None,
    }
}

/// The element type that comes first, where it stands, and the tokens behind it.
pub fn base_word(tokens: &[Lexeme]) -> Option<(Base, Span, &[Lexeme])>
    ensures { MatchOption result (ahead base_of tokens.now ≡ None) (λ x. ahead base_of tokens.now ≡ Some (x.0, x.1, x.2.now)) }
{
    match tokens {
        [first, rest @ ..] => match base_kind(first.kind) {
            Some(base) => Some((base, first.span, rest)),
            None => None,
        },
        [] => None,
    }
}

/// Whether the class whose first word comes first begins with a lock invariant, where that word stands, and the tokens
/// behind it.
pub fn class_word(tokens: &[Lexeme]) -> Option<(bool, Span, &[Lexeme])>
    ensures { MatchOption result (ahead class_of tokens.now ≡ None) (λ x. ahead class_of tokens.now ≡ Some (x.0, x.1, x.2.now)) }
{
    match tokens {
        [first, rest @ ..] => match class_kind(first.kind) {
            Some(locks) => Some((locks, first.span, rest)),
            None => None,
        },
        [] => None,
    }
}
