//! Statements without blocks. Each function reads one rule, where so many constructs (`room`) may still be opened, and returns
//! what it read and the tokens behind.
ghost use Rattle.std.specs.Prelude.{◌≡◌};
ghost use Rattle.pv_reading.specs.Given.{Gives};
ghost use Rattle.pv_exprs.specs.Reading.{deeper};
ghost use Rattle.pv_parser.specs.Reading as reading;

use crate::parts::{call_end, expr_end, formula_end};
use crate::rights::{right_end, this_at};
use crate::rooms::inside_blocks;
use crate::trees::{
    action_statement, assert_statement, assign_statement, barrier_statement, call_statement,
    class_type, folding_statement, local_statement, recv_statement, return_statement,
    send_statement,
};
use crate::types::type_from;
use crate::words::{Action, Base};
use pv_ast::{Expr, Formulas, Stmt, TypeWord, Word};
use pv_base::Span;
use pv_clauses::read_clauses;
use pv_exprs::{Chain, Mode, inside, part_of, read_some_steps, read_steps};
use pv_reading::{ReadFault, after, expected, expected_name, expected_number, named};
use pv_tokens::Lexeme;
use pv_tokens::fixed::{
    ASSIGN, CLOSE_BRACE, CLOSE_PAREN, COLON, COMMA, LOOP_INVARIANT, OPEN_BRACE, OPEN_PAREN,
    SEMICOLON, THIS,
};
use sqlite_items::{Boxed, Items};
use std::alloc::Global;

/// What follows the type and the name of a declaration.
#[tactic(auto, unfolding(crate::specs::Reading::local_end))]
fn local_end<'a>(
    alloc: Global,
    kind: TypeWord,
    name: Word,
    tokens: &'a [Lexeme],
    room: u32,
) -> Result<(Boxed<Stmt>, &'a [Lexeme]), ReadFault>
    ensures { Gives (λ x. x.0) (λ x. x.1.now) result (reading.local_end (deeper room) kind name tokens.now) }
{
    match after(tokens, SEMICOLON) {
        Some((last, rest)) => {
            let statement = Boxed::new(alloc, local_statement(kind, name, None, last))?;
            Ok((statement, rest))
        }
        None => {
            let (_, rest) = expected(tokens, ASSIGN)?;
            let (value, last, rest) = right_end(alloc, rest, room)?;
            let statement = local_statement(kind, name, Some(value), last);
            let statement = Boxed::new(alloc, statement)?;
            Ok((statement, rest))
        }
    }
}

/// A declaration behind the word of its type, which stands at `first`.
#[tactic(auto, unfolding(crate::specs::Reading::local))]
pub fn local<'a>(
    alloc: Global,
    base: Base,
    first: Span,
    tokens: &'a [Lexeme],
    room: u32,
) -> Result<(Boxed<Stmt>, &'a [Lexeme]), ReadFault>
    ensures { Gives (λ x. x.0) (λ x. x.1.now) result (reading.local (deeper room) base first tokens.now) }
{
    let (kind, rest) = type_from(base, first, tokens, room)?;
    let (name, rest) = expected_name(rest)?;
    local_end(alloc, kind, name, rest, room)
}

/// What follows the `=` behind a place.
fn assigned<'a>(
    alloc: Global,
    place: Chain,
    tokens: &'a [Lexeme],
    room: u32,
) -> Result<(Boxed<Stmt>, &'a [Lexeme]), ReadFault>
    ensures { Gives (λ x. x.0) (λ x. x.1.now) result (reading.assigned (deeper room) place tokens.now) }
{
    let (value, last, rest) = right_end(alloc, tokens, room)?;
    let place = part_of(alloc, place)?;
    let statement = Boxed::new(alloc, assign_statement(place, value, last))?;
    Ok((statement, rest))
}

/// An assignment behind its place, or a call behind its target.
#[tactic(auto, unfolding(crate::specs::Reading::place_or_call))]
fn place_or_call<'a>(
    alloc: Global,
    chain: Chain,
    tokens: &'a [Lexeme],
    room: u32,
) -> Result<(Boxed<Stmt>, &'a [Lexeme]), ReadFault>
    ensures { Gives (λ x. x.0) (λ x. x.1.now) result (reading.place_or_call (deeper room) chain tokens.now) }
{
    match chain {
        Chain::Named(receiver, name) => match after(tokens, ASSIGN) {
            Some((_, rest)) => assigned(alloc, Chain::Named(receiver, name), rest, room),
            None => {
                let (_, rest) = expected(tokens, OPEN_PAREN)?;
                let inner = inside(room, rest)?;
                let (args, last, rest) = call_end(alloc, rest, inner)?;
                let statement = call_statement(receiver, name, args, last);
                let statement = Boxed::new(alloc, statement)?;
                Ok((statement, rest))
            }
        },
        Chain::Other(place) => {
            let (_, rest) = expected(tokens, ASSIGN)?;
            assigned(alloc, Chain::Other(place), rest, room)
        }
    }
}

/// What follows the name that begins a statement.
#[tactic(auto, unfolding(crate::specs::Reading::name_stmt))]
pub fn name_statement<'a>(
    alloc: Global,
    first: Word,
    tokens: &'a [Lexeme],
    room: u32,
) -> Result<(Boxed<Stmt>, &'a [Lexeme]), ReadFault>
    ensures { Gives (λ x. x.0) (λ x. x.1.now) result (reading.name_stmt (deeper room) first tokens.now) }
{
    match named(tokens) {
        Some((name, rest)) => local_end(alloc, class_type(first), name, rest, room),
        None => {
            let first = Chain::Named(None, first);
            let (chain, rest) = read_steps(alloc, Mode::Program, first, tokens, room)?;
            place_or_call(alloc, chain, rest, room)
        }
    }
}

/// What follows the `this` at `first`.
#[tactic(auto, unfolding(crate::specs::Reading::this_stmt))]
pub fn this_statement<'a>(
    alloc: Global,
    first: Span,
    tokens: &'a [Lexeme],
    room: u32,
) -> Result<(Boxed<Stmt>, &'a [Lexeme]), ReadFault>
    ensures { Gives (λ x. x.0) (λ x. x.1.now) result (reading.this_stmt (deeper room) first tokens.now) }
{
    let this = this_at(alloc, first)?;
    let (chain, rest) = read_some_steps(alloc, Mode::Program, this, tokens, room)?;
    place_or_call(alloc, chain, rest, room)
}

/// An invariant behind its first word.
#[tactic(auto, unfolding(crate::specs::Reading::invariant))]
pub fn invariant<'a>(
    alloc: Global,
    tokens: &'a [Lexeme],
    room: u32,
) -> Result<(Boxed<Expr>, &'a [Lexeme]), ReadFault>
    ensures { Gives (λ x. x.0) (λ x. x.1.now) result (reading.invariant (deeper room) tokens.now) }
{
    let (formula, _, rest) = formula_end(alloc, tokens, room)?;
    Ok((formula.into_boxed(), rest))
}

/// Invariants behind those found so far, as long as another begins.
pub fn invariants<'a>(
    alloc: Global,
    found: Formulas,
    tokens: &'a [Lexeme],
    room: u32,
) -> Result<(Formulas, &'a [Lexeme]), ReadFault>
    ensures { Gives (λ x. x.0) (λ x. x.1.now) result (reading.invariants (deeper room) found tokens.now) }
{
    let mut all = found;
    let mut rest = tokens;
    'found: loop {
        match after(rest, LOOP_INVARIANT) {
            Some((_, behind)) => {
                let (next, behind) = invariant(alloc, behind, room)?;
                all.push(next.into_inner())?;
                rest = behind;
            }
            None => return Ok((all, rest)),
        }
    }
}

/// What follows the `barrier` at `first`.
#[tactic(auto, unfolding(crate::specs::Reading::barrier))]
pub fn barrier<'a>(
    alloc: Global,
    first: Span,
    tokens: &'a [Lexeme],
    room: u32,
) -> Result<(Boxed<Stmt>, &'a [Lexeme]), ReadFault>
    ensures { Gives (λ x. x.0) (λ x. x.1.now) result (reading.barrier (deeper room) (reading.deeper_blocks room) first tokens.now) }
{
    let (_, rest) = expected(tokens, OPEN_PAREN)?;
    inside(room, rest)?;
    let (label, rest) = expected_name(rest)?;
    let (_, rest) = expected(rest, CLOSE_PAREN)?;
    let (_, rest) = expected(rest, OPEN_BRACE)?;
    let inner = inside_blocks(room, rest)?;
    let (clauses, rest) = read_clauses(alloc, Items::new(alloc), rest, inner)?;
    let (last, rest) = expected(rest, CLOSE_BRACE)?;
    let statement = barrier_statement(first, label, clauses, last);
    let statement = Boxed::new(alloc, statement)?;
    Ok((statement, rest))
}

/// What follows the word of an action, which stands at `first`.
#[tactic(auto, unfolding(crate::specs::Reading::action))]
pub fn action<'a>(
    alloc: Global,
    kind: Action,
    first: Span,
    tokens: &'a [Lexeme],
    room: u32,
) -> Result<(Boxed<Stmt>, &'a [Lexeme]), ReadFault>
    ensures { Gives (λ x. x.0) (λ x. x.1.now) result (reading.action (deeper room) kind first tokens.now) }
{
    let (object, last, rest) = expr_end(alloc, tokens, room)?;
    let statement = Boxed::new(alloc, action_statement(kind, first, object, last))?;
    Ok((statement, rest))
}

/// What follows the target of a folding.
#[tactic(auto, unfolding(crate::specs::Reading::folding_from))]
fn folding_from<'a>(
    alloc: Global,
    unfolds: bool,
    first: Span,
    target: Chain,
    tokens: &'a [Lexeme],
    room: u32,
) -> Result<(Boxed<Stmt>, &'a [Lexeme]), ReadFault>
    ensures { Gives (λ x. x.0) (λ x. x.1.now) result (reading.folding_from (deeper room) unfolds first target tokens.now) }
{
    match target {
        Chain::Named(receiver, name) => {
            let (_, rest) = expected(tokens, OPEN_PAREN)?;
            let inner = inside(room, rest)?;
            let (args, last, rest) = call_end(alloc, rest, inner)?;
            let statement = folding_statement(unfolds, first, receiver, name, args, last);
            let statement = Boxed::new(alloc, statement)?;
            Ok((statement, rest))
        }
        Chain::Other(_) => Err(ReadFault::Unexpected(tokens.len())),
    }
}

/// What follows the `fold` or `unfold` at `first`.
#[tactic(auto, unfolding(crate::specs::Reading::folding))]
pub fn folding<'a>(
    alloc: Global,
    unfolds: bool,
    first: Span,
    tokens: &'a [Lexeme],
    room: u32,
) -> Result<(Boxed<Stmt>, &'a [Lexeme]), ReadFault>
    ensures { Gives (λ x. x.0) (λ x. x.1.now) result (reading.folding (deeper room) unfolds first tokens.now) }
{
    match named(tokens) {
        Some((name, rest)) => {
            let name = Chain::Named(None, name);
            let (target, rest) = read_steps(alloc, Mode::Program, name, rest, room)?;
            folding_from(alloc, unfolds, first, target, rest, room)
        }
        None => {
            let (this, rest) = expected(tokens, THIS)?;
            let this = this_at(alloc, this)?;
            let (target, rest) = read_some_steps(alloc, Mode::Program, this, rest, room)?;
            folding_from(alloc, unfolds, first, target, rest, room)
        }
    }
}

/// What follows the `assert` at `first`.
#[tactic(auto, unfolding(crate::specs::Reading::assertion))]
pub fn assertion<'a>(
    alloc: Global,
    first: Span,
    tokens: &'a [Lexeme],
    room: u32,
) -> Result<(Boxed<Stmt>, &'a [Lexeme]), ReadFault>
    ensures { Gives (λ x. x.0) (λ x. x.1.now) result (reading.assertion (deeper room) first tokens.now) }
{
    let (claim, last, rest) = formula_end(alloc, tokens, room)?;
    let statement = Boxed::new(alloc, assert_statement(first, claim, last))?;
    Ok((statement, rest))
}

/// What follows the `send` at `first`.
#[tactic(auto, unfolding(crate::specs::Reading::send))]
pub fn send<'a>(
    alloc: Global,
    first: Span,
    tokens: &'a [Lexeme],
    room: u32,
) -> Result<(Boxed<Stmt>, &'a [Lexeme]), ReadFault>
    ensures { Gives (λ x. x.0) (λ x. x.1.now) result (reading.send (deeper room) first tokens.now) }
{
    let (label, rest) = expected_name(tokens)?;
    let (_, rest) = expected(rest, COMMA)?;
    let (distance, _, rest) = expected_number(rest)?;
    let (_, rest) = expected(rest, COLON)?;
    let (message, last, rest) = formula_end(alloc, rest, room)?;
    let statement = send_statement(first, label, distance, message, last);
    let statement = Boxed::new(alloc, statement)?;
    Ok((statement, rest))
}

/// What follows the `recv` at `first`.
#[tactic(auto, unfolding(crate::specs::Reading::recv))]
pub fn recv(
    alloc: Global,
    first: Span,
    tokens: &[Lexeme],
) -> Result<(Boxed<Stmt>, &[Lexeme]), ReadFault>
    ensures { Gives (λ x. x.0) (λ x. x.1.now) result (reading.recv first tokens.now) }
{
    let (label, rest) = expected_name(tokens)?;
    let (last, rest) = expected(rest, SEMICOLON)?;
    let statement = Boxed::new(alloc, recv_statement(first, label, last))?;
    Ok((statement, rest))
}

/// What follows the `return` at `first`.
#[tactic(auto, unfolding(crate::specs::Reading::returned))]
pub fn returned<'a>(
    alloc: Global,
    first: Span,
    tokens: &'a [Lexeme],
    room: u32,
) -> Result<(Boxed<Stmt>, &'a [Lexeme]), ReadFault>
    ensures { Gives (λ x. x.0) (λ x. x.1.now) result (reading.returned (deeper room) first tokens.now) }
{
    match after(tokens, SEMICOLON) {
        Some((last, rest)) => {
            let statement = Boxed::new(alloc, return_statement(first, None, last))?;
            Ok((statement, rest))
        }
        None => {
            let (value, last, rest) = expr_end(alloc, tokens, room)?;
            let statement = return_statement(first, Some(value.into_boxed()), last);
            let statement = Boxed::new(alloc, statement)?;
            Ok((statement, rest))
        }
    }
}
