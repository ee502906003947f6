//! What is read without going down.
ghost use Rattle.std.specs.Prelude.{◌≡◌, MatchOption};
ghost use Rattle.pv_reading.specs.Given.{Gives};
ghost use Rattle.pv_reading.specs.Reading.{Parser, Good, give, expect, expect_name};
ghost use Rattle.pv_tokens.specs.declared.fixed.TheConstants.{AND_AND, AT_MOST, LESS};
ghost use Rattle.pv_exprs.specs.declared.part.Chain.{Chain};
ghost use Rattle.pv_exprs.specs.declared.part.Chain.TheVariants.{Other};
ghost use Rattle.pv_exprs.specs.Reading as reading;
ghost use Rattle.pv_exprs.specs.Trees.{node};

use crate::part::Amount;
use pv_ast::{ExprKind, Word};
use pv_base::Span;
use pv_reading::{ReadFault, across, after, expected, expected_name, expected_number, numbered};
use pv_tokens::Lexeme;
use pv_tokens::fixed::{AND_AND, AT_MOST, BACKSLASH, FALSE, LESS, NULL, TRUE, WRITE};

/// The constant that comes first, where it stands, and the tokens behind it.
#[tactic(auto, unfolding(crate::specs::Reading::constant_or))]
pub fn constant(tokens: &[Lexeme]) -> Option<(ExprKind, Span, &[Lexeme])>
    ensures { MatchOption result ((r : Parser Chain) → reading.constant_or r tokens.now ≡ r tokens.now) (λ x. (r : Parser Chain) → reading.constant_or r tokens.now ≡ Good (Other (node x.1 x.0)) x.2.now) }
{
    match numbered(tokens) {
        Some((value, span, rest)) => Some((ExprKind::Number(value), span, rest)),
        None => match after(tokens, TRUE) {
            Some((span, rest)) => Some((ExprKind::Truth(true), span, rest)),
            None => match after(tokens, FALSE) {
                Some((span, rest)) => Some((ExprKind::Truth(false), span, rest)),
                None => match after(tokens, NULL) {
                    Some((span, rest)) => Some((ExprKind::Null, span, rest)),
                    None => None,
                },
            },
        },
    }
}

/// An amount of permission.
#[tactic(auto, unfolding(crate::specs::Reading::amount))]
pub fn read_amount(tokens: &[Lexeme]) -> Result<(Amount, &[Lexeme]), ReadFault>
    ensures { Gives (λ x. x.0) (λ x. x.1.now) result (reading.amount tokens.now) }
{
    match after(tokens, WRITE) {
        Some((span, rest)) => Ok((
            Amount {
                parts: 1,
                whole: 1,
                span,
            },
            rest,
        )),
        None => {
            let (parts, first, rest) = expected_number(tokens)?;
            let (_, rest) = expected(rest, BACKSLASH)?;
            let (whole, last, rest) = expected_number(rest)?;
            let span = across(first, last);
            Ok((Amount { parts, whole, span }, rest))
        }
    }
}

/// The two names of the bound variable between the bounds.
pub fn bound_names(tokens: &[Lexeme]) -> Result<((Word, Word), &[Lexeme]), ReadFault>
    ensures { Gives (λ x. x.0) (λ x. x.1.now) result (expect AT_MOST (λ q. expect_name (λ v. expect AND_AND (λ r. expect_name (λ w. expect LESS (λ t. give (v, w)))))) tokens.now) }
{
    let (_, rest) = expected(tokens, AT_MOST)?;
    let (first, rest) = expected_name(rest)?;
    let (_, rest) = expected(rest, AND_AND)?;
    let (second, rest) = expected_name(rest)?;
    let (_, rest) = expected(rest, LESS)?;
    Ok(((first, second), rest))
}
