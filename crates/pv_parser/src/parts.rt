//! Parts of statements. Each function reads one rule, where so many constructs (`room`) may still be opened, and returns what
//! it read and the tokens behind.
ghost use Rattle.std.specs.Prelude.{◌≡◌};
ghost use Rattle.pv_reading.specs.Given.{Gives};
ghost use Rattle.pv_exprs.specs.Reading.{readers, deeper};
ghost use Rattle.pv_parser.specs.Reading as reading;

use crate::trees::range_of;
use pv_ast::{Args, Range};
use pv_base::Span;
use pv_exprs::{Mode, Part, inside, read_args, read_expression, read_formula};
use pv_reading::{ReadFault, expected, expected_name};
use pv_tokens::Lexeme;
use pv_tokens::fixed::{ASSIGN, CLOSE_PAREN, DOTS, INT, OPEN_PAREN, SEMICOLON};
use sqlite_items::Boxed;
use std::alloc::Global;

/// A condition in parentheses.
#[tactic(auto, unfolding(crate::specs::Reading::condition))]
pub fn condition<'a>(
    alloc: Global,
    tokens: &'a [Lexeme],
    room: u32,
) -> Result<(Part, &'a [Lexeme]), ReadFault>
    ensures { Gives (λ x. x.0) (λ x. x.1.now) result (reading.condition (deeper room) tokens.now) }
{
    let (_, rest) = expected(tokens, OPEN_PAREN)?;
    let inner = inside(room, rest)?;
    let (condition, rest) = read_expression(alloc, Mode::Program, rest, inner)?;
    let (_, rest) = expected(rest, CLOSE_PAREN)?;
    Ok((condition, rest))
}

/// A range behind the parenthesis that opens it.
#[tactic(auto, unfolding(crate::specs::Reading::range_in))]
fn range_in<'a>(
    alloc: Global,
    tokens: &'a [Lexeme],
    room: u32,
) -> Result<(Boxed<Range>, &'a [Lexeme]), ReadFault>
    ensures { Gives (λ x. x.0) (λ x. x.1.now) result (reading.range_in (readers (deeper room)) tokens.now) }
{
    let (_, rest) = expected(tokens, INT)?;
    let (name, rest) = expected_name(rest)?;
    let (_, rest) = expected(rest, ASSIGN)?;
    let (low, rest) = read_expression(alloc, Mode::Program, rest, room)?;
    let (_, rest) = expected(rest, DOTS)?;
    let (high, rest) = read_expression(alloc, Mode::Program, rest, room)?;
    let (_, rest) = expected(rest, CLOSE_PAREN)?;
    let range = Boxed::new(alloc, range_of(name, low, high))?;
    Ok((range, rest))
}

/// A range in parentheses.
#[tactic(auto, unfolding(crate::specs::Reading::range))]
pub fn range<'a>(
    alloc: Global,
    tokens: &'a [Lexeme],
    room: u32,
) -> Result<(Boxed<Range>, &'a [Lexeme]), ReadFault>
    ensures { Gives (λ x. x.0) (λ x. x.1.now) result (reading.range (deeper room) tokens.now) }
{
    let (_, rest) = expected(tokens, OPEN_PAREN)?;
    let inner = inside(room, rest)?;
    range_in(alloc, rest, inner)
}

/// A formula and the semicolon behind it, with the place of that.
#[tactic(auto, unfolding(crate::specs::Reading::formula_end))]
pub fn formula_end<'a>(
    alloc: Global,
    tokens: &'a [Lexeme],
    room: u32,
) -> Result<(Part, Span, &'a [Lexeme]), ReadFault>
    ensures { Gives (λ x. (x.0, x.1)) (λ x. x.2.now) result (reading.formula_end (deeper room) tokens.now) }
{
    let (formula, rest) = read_formula(alloc, tokens, room)?;
    let (last, rest) = expected(rest, SEMICOLON)?;
    Ok((formula, last, rest))
}

/// An expression and the semicolon behind it, with the place of that.
#[tactic(auto, unfolding(crate::specs::Reading::expr_end))]
pub fn expr_end<'a>(
    alloc: Global,
    tokens: &'a [Lexeme],
    room: u32,
) -> Result<(Part, Span, &'a [Lexeme]), ReadFault>
    ensures { Gives (λ x. (x.0, x.1)) (λ x. x.2.now) result (reading.expr_end (deeper room) tokens.now) }
{
    let (value, rest) = read_expression(alloc, Mode::Program, tokens, room)?;
    let (last, rest) = expected(rest, SEMICOLON)?;
    Ok((value, last, rest))
}

/// The rest of a call behind the parenthesis that opens its arguments: those, and a semicolon, with the place of that.
#[tactic(auto, unfolding(crate::specs::Reading::call_end))]
pub fn call_end<'a>(
    alloc: Global,
    tokens: &'a [Lexeme],
    room: u32,
) -> Result<(Args, Span, &'a [Lexeme]), ReadFault>
    ensures { Gives (λ x. (x.0, x.1)) (λ x. x.2.now) result (reading.call_end (readers (deeper room)) tokens.now) }
{
    let (args, _, rest) = read_args(alloc, Mode::Program, tokens, room)?;
    let (last, rest) = expected(rest, SEMICOLON)?;
    Ok((args, last, rest))
}
