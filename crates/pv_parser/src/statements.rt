//! Statements and blocks. Each function reads one rule, where so many constructs (`room`) may still be opened, and returns
//! what it read and the tokens behind.
ghost use Rattle.std.specs.Prelude.{◌≡◌, []};
ghost use Rattle.pv_reading.specs.Given.{Gives};
ghost use Rattle.pv_reading.specs.Reading.{many};
ghost use Rattle.pv_tokens.specs.declared.fixed.TheConstants as sign;
ghost use Rattle.pv_exprs.specs.Reading.{deeper};
ghost use Rattle.pv_parser.specs.Reading as reading;
ghost use Rattle.pv_parser.specs.Reading.{deeper_blocks};

use crate::lines::{
    action, assertion, barrier, folding, invariant, invariants, local, name_statement, recv,
    returned, send, this_statement,
};
use crate::parts::{condition, range};
use crate::rooms::inside_blocks;
use crate::trees::{for_statement, if_statement, par_statement, while_statement};
use crate::words::{Action, Base, first_token};
use pv_ast::{Block, Formulas, Stmt, Word};
use pv_base::Span;
use pv_clauses::read_clauses;
use pv_exprs::Part;
use pv_reading::{ReadFault, after, expected, named};
use pv_tokens::fixed::{
    ASSERT, BARRIER, BOOL, BOOLEAN, CLOSE_BRACE, COMMIT, ELSE, FOLD, FOR, FORK, IF, INT, JOIN,
    LOCK, LOOP_INVARIANT, OPEN_BRACE, PAR, RECV, RETURN, SEND, THIS, UNFOLD, UNLOCK, WHILE,
};
use pv_tokens::{Lexeme, LexemeKind};
use sqlite_items::{Boxed, Items};
use std::alloc::Global;

/// A statement, by its first token.
#[cycle(statement)]
fn statement<'a>(
    alloc: Global,
    tokens: &'a [Lexeme],
    room: u32,
) -> Result<(Boxed<Stmt>, &'a [Lexeme]), ReadFault>
    ensures { Gives (λ x. x.0) (λ x. x.1.now) result (reading.stmt (deeper room) (deeper_blocks room) tokens.now) }
{
    match first_token(tokens) {
        Some((first, rest)) => match first.kind {
            LexemeKind::Named(name) => {
                let word = Word {
                    name,
                    span: first.span,
                };
                name_statement(alloc, word, rest, room)
            }
            LexemeKind::Number(_) => Err(ReadFault::Unexpected(tokens.len())),
            LexemeKind::Fixed(number) => match number {
                THIS => this_statement(alloc, first.span, rest, room),
                INT => local(alloc, Base::Int, first.span, rest, room),
                BOOLEAN => local(alloc, Base::Truth, first.span, rest, room),
                BOOL => local(alloc, Base::Truth, first.span, rest, room),
                IF => choice(alloc, first.span, rest, room),
                WHILE => while_end(alloc, first.span, Items::new(alloc), rest, room),
                LOOP_INVARIANT => invariant_loop(alloc, first.span, rest, room),
                FOR => counted(alloc, first.span, rest, room),
                PAR => parallel(alloc, first.span, rest, room),
                BARRIER => barrier(alloc, first.span, rest, room),
                FORK => action(alloc, Action::Fork, first.span, rest, room),
                JOIN => action(alloc, Action::Join, first.span, rest, room),
                LOCK => action(alloc, Action::Lock, first.span, rest, room),
                UNLOCK => action(alloc, Action::Unlock, first.span, rest, room),
                COMMIT => action(alloc, Action::Commit, first.span, rest, room),
                FOLD => folding(alloc, false, first.span, rest, room),
                UNFOLD => folding(alloc, true, first.span, rest, room),
                ASSERT => assertion(alloc, first.span, rest, room),
                SEND => send(alloc, first.span, rest, room),
                RECV => recv(alloc, first.span, rest),
                RETURN => returned(alloc, first.span, rest, room),
                _ => Err(ReadFault::Unexpected(tokens.len())),
            },
        },
        None => Err(ReadFault::Unexpected(tokens.len())),
    }
}

/// What follows the `if` at `first`.
#[cycle(statement)]
#[tactic(auto, unfolding(crate::specs::Reading::choice))]
fn choice<'a>(
    alloc: Global,
    first: Span,
    tokens: &'a [Lexeme],
    room: u32,
) -> Result<(Boxed<Stmt>, &'a [Lexeme]), ReadFault>
    ensures { Gives (λ x. x.0) (λ x. x.1.now) result (reading.choice (deeper room) (deeper_blocks room) first tokens.now) }
{
    let (condition, rest) = condition(alloc, tokens, room)?;
    let (yes, last, rest) = block(alloc, rest, room)?;
    else_from(alloc, first, condition, yes, last, rest, room)
}

/// What follows the first block, which ends at `last`, of the `if` at `first`.
#[cycle(statement)]
#[tactic(auto, unfolding(crate::specs::Reading::else_from))]
fn else_from<'a>(
    alloc: Global,
    first: Span,
    condition: Part,
    yes: Block,
    last: Span,
    tokens: &'a [Lexeme],
    room: u32,
) -> Result<(Boxed<Stmt>, &'a [Lexeme]), ReadFault>
    ensures { Gives (λ x. x.0) (λ x. x.1.now) result (reading.else_from (deeper_blocks room) first condition yes last tokens.now) }
{
    match after(tokens, ELSE) {
        Some((_, rest)) => otherwise(alloc, first, condition, yes, rest, room),
        None => {
            let statement = if_statement(first, condition, yes, Items::new(alloc), last);
            let statement = Boxed::new(alloc, statement)?;
            Ok((statement, tokens))
        }
    }
}

/// What follows the `else` of the `if` at `first`.
#[cycle(statement)]
#[tactic(auto, unfolding(crate::specs::Reading::otherwise))]
fn otherwise<'a>(
    alloc: Global,
    first: Span,
    condition: Part,
    yes: Block,
    tokens: &'a [Lexeme],
    room: u32,
) -> Result<(Boxed<Stmt>, &'a [Lexeme]), ReadFault>
    ensures { Gives (λ x. x.0) (λ x. x.1.now) result (reading.otherwise (deeper_blocks room) first condition yes tokens.now) }
{
    match after(tokens, IF) {
        Some((second, rest)) => {
            let inner = inside_blocks(room, rest)?;
            let (other, rest) = choice(alloc, second, rest, inner)?;
            let last = other.get().span;
            let mut no = Items::new(alloc);
            no.push(other.into_inner())?;
            let statement = Boxed::new(alloc, if_statement(first, condition, yes, no, last))?;
            Ok((statement, rest))
        }
        None => {
            let (no, last, rest) = block(alloc, tokens, room)?;
            let statement = Boxed::new(alloc, if_statement(first, condition, yes, no, last))?;
            Ok((statement, rest))
        }
    }
}

/// What follows the `while` of a loop that begins at `first`.
#[cycle(statement)]
#[tactic(auto, unfolding(crate::specs::Reading::while_end))]
fn while_end<'a>(
    alloc: Global,
    first: Span,
    invariants: Formulas,
    tokens: &'a [Lexeme],
    room: u32,
) -> Result<(Boxed<Stmt>, &'a [Lexeme]), ReadFault>
    ensures { Gives (λ x. x.0) (λ x. x.1.now) result (reading.while_end (deeper room) (deeper_blocks room) first invariants tokens.now) }
{
    let (condition, rest) = condition(alloc, tokens, room)?;
    let (body, last, rest) = block(alloc, rest, room)?;
    let statement = while_statement(first, invariants, condition, body, last);
    let statement = Boxed::new(alloc, statement)?;
    Ok((statement, rest))
}

/// What follows the first word of a loop with invariants, which stands at `first`.
#[cycle(statement)]
#[tactic(auto, unfolding(crate::specs::Reading::invariant_loop))]
fn invariant_loop<'a>(
    alloc: Global,
    first: Span,
    tokens: &'a [Lexeme],
    room: u32,
) -> Result<(Boxed<Stmt>, &'a [Lexeme]), ReadFault>
    ensures { Gives (λ x. x.0) (λ x. x.1.now) result (reading.invariant_loop (deeper room) (deeper_blocks room) first tokens.now) }
{
    let (formula, rest) = invariant(alloc, tokens, room)?;
    let mut found = Items::new(alloc);
    found.push(formula.into_inner())?;
    let (invariants, rest) = invariants(alloc, found, rest, room)?;
    let (_, rest) = expected(rest, WHILE)?;
    while_end(alloc, first, invariants, rest, room)
}

/// What follows the `for` at `first`.
#[cycle(statement)]
#[tactic(auto, unfolding(crate::specs::Reading::counted))]
fn counted<'a>(
    alloc: Global,
    first: Span,
    tokens: &'a [Lexeme],
    room: u32,
) -> Result<(Boxed<Stmt>, &'a [Lexeme]), ReadFault>
    ensures { Gives (λ x. x.0) (λ x. x.1.now) result (reading.counted (deeper room) (deeper_blocks room) first tokens.now) }
{
    let (range, rest) = range(alloc, tokens, room)?;
    let (clauses, rest) = read_clauses(alloc, Items::new(alloc), rest, room)?;
    let (body, last, rest) = block(alloc, rest, room)?;
    let statement = Boxed::new(alloc, for_statement(first, range, clauses, body, last))?;
    Ok((statement, rest))
}

/// What follows the `par` at `first`.
#[cycle(statement)]
#[tactic(auto, unfolding(crate::specs::Reading::parallel))]
fn parallel<'a>(
    alloc: Global,
    first: Span,
    tokens: &'a [Lexeme],
    room: u32,
) -> Result<(Boxed<Stmt>, &'a [Lexeme]), ReadFault>
    ensures { Gives (λ x. x.0) (λ x. x.1.now) result (reading.parallel (deeper room) (deeper_blocks room) first tokens.now) }
{
    match named(tokens) {
        Some((label, rest)) => parallel_end(alloc, first, Some(label), rest, room),
        None => parallel_end(alloc, first, None, tokens, room),
    }
}

/// What follows the label of the `par` at `first`.
#[cycle(statement)]
#[tactic(auto, unfolding(crate::specs::Reading::parallel_end))]
fn parallel_end<'a>(
    alloc: Global,
    first: Span,
    label: Option<Word>,
    tokens: &'a [Lexeme],
    room: u32,
) -> Result<(Boxed<Stmt>, &'a [Lexeme]), ReadFault>
    ensures { Gives (λ x. x.0) (λ x. x.1.now) result (reading.parallel_end (deeper room) (deeper_blocks room) first label tokens.now) }
{
    let (range, rest) = range(alloc, tokens, room)?;
    let (clauses, rest) = read_clauses(alloc, Items::new(alloc), rest, room)?;
    let (body, last, rest) = block(alloc, rest, room)?;
    let statement = par_statement(first, label, range, clauses, body, last);
    let statement = Boxed::new(alloc, statement)?;
    Ok((statement, rest))
}

/// A block, and where its closing brace stands.
#[cycle(statement)]
#[tactic(auto, unfolding(crate::specs::Reading::block))]
pub fn block<'a>(
    alloc: Global,
    tokens: &'a [Lexeme],
    room: u32,
) -> Result<(Block, Span, &'a [Lexeme]), ReadFault>
    ensures { Gives (λ x. (x.0, x.1)) (λ x. x.2.now) result (reading.block (deeper_blocks room) tokens.now) }
{
    let (_, rest) = expected(tokens, OPEN_BRACE)?;
    let inner = inside_blocks(room, rest)?;
    statements(alloc, rest, inner)
}

/// Statements up to a closing brace, and where that stands.
#[cycle(statement)]
fn statements<'a>(
    alloc: Global,
    tokens: &'a [Lexeme],
    room: u32,
) -> Result<(Block, Span, &'a [Lexeme]), ReadFault>
    ensures { Gives (λ x. (x.0, x.1)) (λ x. x.2.now) result (many sign.CLOSE_BRACE (reading.stmt (deeper room) (deeper_blocks room)) [] tokens.now) }
{
    let mut found = Items::new(alloc);
    let mut rest = tokens;
    'found: loop {
        match after(rest, CLOSE_BRACE) {
            Some((last, behind)) => return Ok((found, last, behind)),
            None => {
                let (next, behind) = statement(alloc, rest, room)?;
                found.push(next.into_inner())?;
                rest = behind;
            }
        }
    }
}
