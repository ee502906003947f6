//! One token of sight.
ghost use Rattle.std.specs.Prelude.{◌≡◌, Some, None, MatchOption, MatchResult, length};
ghost use Rattle.pv_reading.specs.Given.{ahead};
ghost use Rattle.pv_reading.specs.Marks.{across as across_of};
ghost use Rattle.pv_reading.specs.Reading.{is_fixed, name_of, number_of};
ghost use Rattle.pv_reading.specs.declared.fault.ReadFault.TheVariants as fault;
ghost use Rattle.pv_tokens.specs.declared.LexemeKind.TheVariants as kind;

use crate::fault::ReadFault;
use pv_ast::Word;
use pv_base::Span;
use pv_tokens::{Lexeme, LexemeKind};

/// From where the one begins to where the other ends.
pub fn across(first: Span, last: Span) -> Span
    ensures { result ≡ across_of first last }
{
    Span {
        from: first.from,
        to: last.to,
    }
}

/// Where the token of that number stands, if it comes first, and the tokens behind it.
pub fn after(tokens: &[Lexeme], number: u32) -> Option<(Span, &[Lexeme])>
    ensures { MatchOption result (ahead (is_fixed number) tokens.now ≡ None) (λ x. ahead (is_fixed number) tokens.now ≡ Some (tt, x.0, x.1.now)) }
{
    match tokens {
        [first, rest @ ..] => match first.kind {
            LexemeKind::Fixed(found) => {
                if found == number {
                    Some((first.span, rest))
                } else {
                    None
                }
            }
            LexemeKind::Named(_) => None,
            LexemeKind::Number(_) => None,
        },
        [] => None,
    }
}

/// The same where that token has to come first.
pub fn expected(tokens: &[Lexeme], number: u32) -> Result<(Span, &[Lexeme]), ReadFault>
    ensures { MatchResult result (λ x. ahead (is_fixed number) tokens.now ≡ Some (tt, x.0, x.1.now)) (λ e. (e ≡ fault.Unexpected (length tokens.now)) × (ahead (is_fixed number) tokens.now ≡ None)) }
{
    match after(tokens, number) {
        Some(found) => Ok(found),
        None => Err(ReadFault::Unexpected(tokens.len())),
    }
}

/// The name that comes first, and the tokens behind it.
pub fn named(tokens: &[Lexeme]) -> Option<(Word, &[Lexeme])>
    ensures { MatchOption result (ahead name_of tokens.now ≡ None) (λ x. ahead name_of tokens.now ≡ Some (x.0.name, x.0.span, x.1.now)) }
{
    match tokens {
        [first, rest @ ..] => match first.kind {
            LexemeKind::Named(name) => {
                let word = Word {
                    name,
                    span: first.span,
                };
                Some((word, rest))
            }
            LexemeKind::Number(_) => None,
            LexemeKind::Fixed(_) => None,
        },
        [] => None,
    }
}

/// The same where a name has to come first.
pub fn expected_name(tokens: &[Lexeme]) -> Result<(Word, &[Lexeme]), ReadFault>
    ensures { MatchResult result (λ x. ahead name_of tokens.now ≡ Some (x.0.name, x.0.span, x.1.now)) (λ e. (e ≡ fault.Unexpected (length tokens.now)) × (ahead name_of tokens.now ≡ None)) }
{
    match named(tokens) {
        Some(found) => Ok(found),
        None => Err(ReadFault::Unexpected(tokens.len())),
    }
}

/// The number that comes first, where it stands, and the tokens behind it.
pub fn numbered(tokens: &[Lexeme]) -> Option<(u64, Span, &[Lexeme])>
    ensures { MatchOption result (ahead number_of tokens.now ≡ None) (λ x. ahead number_of tokens.now ≡ Some (x.0, x.1, x.2.now)) }
{
    match tokens {
        [first, rest @ ..] => match first.kind {
            LexemeKind::Number(value) => Some((value, first.span, rest)),
            LexemeKind::Named(_) => None,
            LexemeKind::Fixed(_) => None,
        },
        [] => None,
    }
}

/// The same where a number has to come first.
pub fn expected_number(tokens: &[Lexeme]) -> Result<(u64, Span, &[Lexeme]), ReadFault>
    ensures { MatchResult result (λ x. ahead number_of tokens.now ≡ Some (x.0, x.1, x.2.now)) (λ e. (e ≡ fault.Unexpected (length tokens.now)) × (ahead number_of tokens.now ≡ None)) }
{
    match numbered(tokens) {
        Some(found) => Ok(found),
        None => Err(ReadFault::Unexpected(tokens.len())),
    }
}
