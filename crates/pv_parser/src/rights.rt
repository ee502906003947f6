//! Right sides of declarations and assignments. Each function reads one rule, where so many constructs (`room`) may still be
//! opened, and returns what it read and the tokens behind.
ghost use Rattle.std.specs.Prelude.{◌≡◌};
ghost use Rattle.pv_reading.specs.Given.{Gives, GivesNext};
ghost use Rattle.pv_exprs.specs.Reading.{deeper};
ghost use Rattle.pv_exprs.specs.Trees as parts;
ghost use Rattle.pv_exprs.specs.declared.part.Chain.TheVariants as chain;
ghost use Rattle.pv_ast.specs.declared.ExprKind.TheVariants as e;
ghost use Rattle.pv_parser.specs.Reading as reading;

use crate::trees::{called, new_array, new_object, plain_type, value_of};
use crate::words::base_word;
use pv_ast::{Expr, ExprKind, Right};
use pv_base::Span;
use pv_exprs::{
    Chain, Mode, Part, inside, part_of, read_args, read_expression, read_steps, rest_of_expression,
};
use pv_reading::{ReadFault, after, expected, named};
use pv_tokens::Lexeme;
use pv_tokens::fixed::{
    CLOSE_BRACKET, CLOSE_PAREN, NEW, OPEN_BRACKET, OPEN_PAREN, SEMICOLON, THIS,
};
use sqlite_items::Boxed;
use std::alloc::Global;

/// The word `this` that stands there.
pub fn this_at(alloc: Global, span: Span) -> Result<Chain, ReadFault>
    ensures { GivesNext result (chain.Other (parts.node span e.This)) }
{
    let kind = ExprKind::This;
    let tree = Boxed::new(alloc, Expr { span, kind })?;
    Ok(Chain::Other(Part { tree, span }))
}

/// An expression whose first unary one is `left`.
#[tactic(auto, unfolding(crate::specs::Reading::value_from))]
fn value_from<'a>(
    alloc: Global,
    left: Part,
    tokens: &'a [Lexeme],
    room: u32,
) -> Result<(Boxed<Right>, &'a [Lexeme]), ReadFault>
    ensures { Gives (λ x. x.0) (λ x. x.1.now) result (reading.value_from (deeper room) left tokens.now) }
{
    let (value, rest) = rest_of_expression(alloc, Mode::Program, left, tokens, room)?;
    let value = Boxed::new(alloc, value_of(value))?;
    Ok((value, rest))
}

/// A call, or an expression, that begins with a chain.
#[tactic(auto, unfolding(crate::specs::Reading::right_from))]
fn right_from<'a>(
    alloc: Global,
    chain: Chain,
    tokens: &'a [Lexeme],
    room: u32,
) -> Result<(Boxed<Right>, &'a [Lexeme]), ReadFault>
    ensures { Gives (λ x. x.0) (λ x. x.1.now) result (reading.right_from (deeper room) chain tokens.now) }
{
    match chain {
        Chain::Named(receiver, name) => match after(tokens, OPEN_PAREN) {
            Some((_, rest)) => {
                let inner = inside(room, rest)?;
                let (args, last, rest) = read_args(alloc, Mode::Program, rest, inner)?;
                let call = Boxed::new(alloc, called(receiver, name, args, last))?;
                Ok((call, rest))
            }
            None => {
                let left = part_of(alloc, Chain::Named(receiver, name))?;
                value_from(alloc, left, tokens, room)
            }
        },
        Chain::Other(left) => value_from(alloc, left, tokens, room),
    }
}

/// What follows the first word of a chain.
#[tactic(auto, unfolding(crate::specs::Reading::right_walk))]
fn right_walk<'a>(
    alloc: Global,
    first: Chain,
    tokens: &'a [Lexeme],
    room: u32,
) -> Result<(Boxed<Right>, &'a [Lexeme]), ReadFault>
    ensures { Gives (λ x. x.0) (λ x. x.1.now) result (reading.right_walk (deeper room) first tokens.now) }
{
    let (chain, rest) = read_steps(alloc, Mode::Program, first, tokens, room)?;
    right_from(alloc, chain, rest, room)
}

/// What follows the `new` at `first`.
#[tactic(auto, unfolding(crate::specs::Reading::made))]
fn made<'a>(
    alloc: Global,
    first: Span,
    tokens: &'a [Lexeme],
    room: u32,
) -> Result<(Boxed<Right>, &'a [Lexeme]), ReadFault>
    ensures { Gives (λ x. x.0) (λ x. x.1.now) result (reading.made (deeper room) first tokens.now) }
{
    match named(tokens) {
        Some((class, rest)) => {
            let (_, rest) = expected(rest, OPEN_PAREN)?;
            inside(room, rest)?;
            let (last, rest) = expected(rest, CLOSE_PAREN)?;
            let object = Boxed::new(alloc, new_object(first, class, last))?;
            Ok((object, rest))
        }
        None => match base_word(tokens) {
            Some((base, word, rest)) => {
                let (_, rest) = expected(rest, OPEN_BRACKET)?;
                let inner = inside(room, rest)?;
                let (length, rest) = read_expression(alloc, Mode::Program, rest, inner)?;
                let (last, rest) = expected(rest, CLOSE_BRACKET)?;
                let array = new_array(first, plain_type(base, word), length, last);
                let array = Boxed::new(alloc, array)?;
                Ok((array, rest))
            }
            None => Err(ReadFault::Unexpected(tokens.len())),
        },
    }
}

#[tactic(auto, unfolding(crate::specs::Reading::right))]
fn right<'a>(
    alloc: Global,
    tokens: &'a [Lexeme],
    room: u32,
) -> Result<(Boxed<Right>, &'a [Lexeme]), ReadFault>
    ensures { Gives (λ x. x.0) (λ x. x.1.now) result (reading.right (deeper room) tokens.now) }
{
    match after(tokens, NEW) {
        Some((first, rest)) => made(alloc, first, rest, room),
        None => match named(tokens) {
            Some((name, rest)) => right_walk(alloc, Chain::Named(None, name), rest, room),
            None => match after(tokens, THIS) {
                Some((first, rest)) => {
                    let this = this_at(alloc, first)?;
                    right_walk(alloc, this, rest, room)
                }
                None => {
                    let (value, rest) = read_expression(alloc, Mode::Program, tokens, room)?;
                    let value = Boxed::new(alloc, value_of(value))?;
                    Ok((value, rest))
                }
            },
        },
    }
}

/// A right side and the semicolon behind it, with the place of that.
#[tactic(auto, unfolding(crate::specs::Reading::right_end))]
pub fn right_end<'a>(
    alloc: Global,
    tokens: &'a [Lexeme],
    room: u32,
) -> Result<(Boxed<Right>, Span, &'a [Lexeme]), ReadFault>
    ensures { Gives (λ x. (x.0, x.1)) (λ x. x.2.now) result (reading.right_end (deeper room) tokens.now) }
{
    let (value, rest) = right(alloc, tokens, room)?;
    let (last, rest) = expected(rest, SEMICOLON)?;
    Ok((value, last, rest))
}
