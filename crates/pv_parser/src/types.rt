//! Types and parameters. Each function reads one rule, where so many constructs (`room`) may still be opened, and returns what
//! it read and the tokens behind.
ghost use Rattle.std.specs.Prelude.{◌≡◌, []};
ghost use Rattle.pv_reading.specs.Given.{Gives};
ghost use Rattle.pv_reading.specs.Reading.{series};
ghost use Rattle.pv_tokens.specs.declared.fixed.TheConstants as sign;
ghost use Rattle.pv_exprs.specs.Reading.{deeper};
ghost use Rattle.pv_parser.specs.Reading as reading;

use crate::rooms::inside_blocks;
use crate::trees::{array_type, class_type, param_of, plain_type};
use crate::words::{Base, base_word};
use pv_ast::{Param, Params, TypeWord};
use pv_base::Span;
use pv_exprs::inside;
use pv_reading::{ReadFault, after, expected, expected_name, named};
use pv_tokens::Lexeme;
use pv_tokens::fixed::{CLOSE_BRACKET, CLOSE_PAREN, COMMA, OPEN_BRACKET, OPEN_PAREN};
use sqlite_items::Items;
use std::alloc::Global;

/// What follows the word of a type, which stands at `first`.
#[tactic(auto, unfolding(crate::specs::Reading::type_from))]
pub fn type_from<'a>(
    base: Base,
    first: Span,
    tokens: &'a [Lexeme],
    room: u32,
) -> Result<(TypeWord, &'a [Lexeme]), ReadFault>
    ensures { Gives (λ x. x.0) (λ x. x.1.now) result (reading.type_from (deeper room) base first tokens.now) }
{
    match after(tokens, OPEN_BRACKET) {
        Some((_, rest)) => {
            inside(room, rest)?;
            let (last, rest) = expected(rest, CLOSE_BRACKET)?;
            Ok((array_type(base, first, last), rest))
        }
        None => Ok((plain_type(base, first), tokens)),
    }
}

/// A type.
#[tactic(auto, unfolding(crate::specs::Reading::type_word))]
pub fn type_word(tokens: &[Lexeme], room: u32) -> Result<(TypeWord, &[Lexeme]), ReadFault>
    ensures { Gives (λ x. x.0) (λ x. x.1.now) result (reading.type_word (deeper room) tokens.now) }
{
    match named(tokens) {
        Some((name, rest)) => Ok((class_type(name), rest)),
        None => match base_word(tokens) {
            Some((base, first, rest)) => type_from(base, first, rest, room),
            None => Err(ReadFault::Unexpected(tokens.len())),
        },
    }
}

#[tactic(auto, unfolding(crate::specs::Reading::param))]
fn param(tokens: &[Lexeme], room: u32) -> Result<(Param, &[Lexeme]), ReadFault>
    ensures { Gives (λ x. x.0) (λ x. x.1.now) result (reading.param (deeper room) tokens.now) }
{
    let (kind, rest) = type_word(tokens, room)?;
    let (name, rest) = expected_name(rest)?;
    Ok((param_of(kind, name), rest))
}

/// One or more parameters, and the place of the closing parenthesis.
fn some_params<'a>(
    alloc: Global,
    tokens: &'a [Lexeme],
    room: u32,
) -> Result<(Params, Span, &'a [Lexeme]), ReadFault>
    ensures { Gives (λ x. (x.0, x.1)) (λ x. x.2.now) result (series sign.COMMA sign.CLOSE_PAREN (reading.param (deeper room)) [] tokens.now) }
{
    let mut found = Items::new(alloc);
    let mut rest = tokens;
    'found: loop {
        let (next, behind) = param(rest, room)?;
        found.push(next)?;
        match after(behind, COMMA) {
            Some((_, more)) => rest = more,
            None => {
                let (last, behind) = expected(behind, CLOSE_PAREN)?;
                return Ok((found, last, behind));
            }
        }
    }
}

/// Parameters, maybe none, behind the parenthesis that opens them.
#[tactic(auto, unfolding(crate::specs::Reading::param_list))]
fn param_list<'a>(
    alloc: Global,
    tokens: &'a [Lexeme],
    room: u32,
) -> Result<(Params, &'a [Lexeme]), ReadFault>
    ensures { Gives (λ x. x.0) (λ x. x.1.now) result (reading.param_list (reading.param (deeper room)) tokens.now) }
{
    match after(tokens, CLOSE_PAREN) {
        Some((_, rest)) => Ok((Items::new(alloc), rest)),
        None => {
            let (found, _, rest) = some_params(alloc, tokens, room)?;
            Ok((found, rest))
        }
    }
}

/// Parameters in parentheses.
#[tactic(auto, unfolding(crate::specs::Reading::params))]
pub fn params<'a>(
    alloc: Global,
    tokens: &'a [Lexeme],
    room: u32,
) -> Result<(Params, &'a [Lexeme]), ReadFault>
    ensures { Gives (λ x. x.0) (λ x. x.1.now) result (reading.params (reading.deeper_blocks room) tokens.now) }
{
    let (_, rest) = expected(tokens, OPEN_PAREN)?;
    let inner = inside_blocks(room, rest)?;
    param_list(alloc, rest, inner)
}
