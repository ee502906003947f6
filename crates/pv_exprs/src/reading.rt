//! Expressions and formulas. Each function reads one rule, where so many constructs (`room`) may still be opened, and returns
//! what it read and the tokens behind.
ghost use Rattle.std.specs.Prelude.{◌≡◌, []};
ghost use Rattle.pv_reading.specs.Given.{Gives};
ghost use Rattle.pv_reading.specs.Reading.{onward, give, refuse, pick, opened, expect, series};
ghost use Rattle.pv_tokens.specs.declared.fixed.TheConstants.{COMMA, OPEN_PAREN, CLOSE_PAREN};
ghost use Rattle.pv_exprs.specs.Operators.{token_of};
ghost use Rattle.pv_exprs.specs.declared.part.Part.{Part};
ghost use Rattle.pv_base.specs.declared.Span.{Span};
ghost use Rattle.pv_exprs.specs.Reading as reading;

use crate::atoms::{bound_names, constant, read_amount};
use crate::level::{Level, Mode};
use crate::part::{
    Bounds, Chain, Part, bare, binary, each, element, held, instance, negative, old, opposite,
    part_of, permission, widened,
};
use crate::room::inside;
use crate::sight::{forall_word, operator_ahead, token_word};
use pv_ast::{Args, ExprKind, Operator, Token, Word};
use pv_base::Span;
use pv_reading::{ReadFault, after, expected, expected_name, named};
use pv_tokens::Lexeme;
use pv_tokens::fixed::{
    ASSIGN, BANG, CLOSE_BRACKET, CLOSE_PAREN, COMMA, DOT, DOTS, IMPLIES, INT, MINUS, OLD,
    OPEN_BRACKET, OPEN_PAREN, PERM, RESULT, SEMICOLON, THIS,
};
use sqlite_items::Items;
use std::alloc::Global;

/// An expression.
#[cycle(expression)]
#[tactic(auto, unfolding(crate::specs::Reading::expr, crate::specs::Reading::operand))]
pub fn read_expression<'a>(
    alloc: Global,
    mode: Mode,
    tokens: &'a [Lexeme],
    room: u32,
) -> Result<(Part, &'a [Lexeme]), ReadFault>
    ensures { Gives (λ x. x.0) (λ x. x.1.now) result (reading.expr mode (reading.deeper room) tokens.now) }
{
    let (first, rest) = operand(alloc, mode, Level::Disjunction, tokens, room)?;
    joined_from(alloc, mode, Level::Disjunction, first, rest, room)
}

/// A part between operators of the level.
#[cycle(expression)]
fn operand<'a>(
    alloc: Global,
    mode: Mode,
    level: Level,
    tokens: &'a [Lexeme],
    room: u32,
) -> Result<(Part, &'a [Lexeme]), ReadFault>
    ensures { Gives (λ x. x.0) (λ x. x.1.now) result (reading.operand mode level (reading.deeper room) tokens.now) }
{
    match level.tighter() {
        Some(tighter) => {
            let (first, rest) = operand(alloc, mode, tighter, tokens, room)?;
            joined_from(alloc, mode, tighter, first, rest, room)
        }
        None => unary(alloc, mode, tokens, room),
    }
}

/// What follows the chain of operators so far.
#[cycle(expression)]
#[tactic(auto, unfolding(crate::specs::Reading::joined_from, crate::specs::Reading::joined_or))]
fn joined_from<'a>(
    alloc: Global,
    mode: Mode,
    level: Level,
    left: Part,
    tokens: &'a [Lexeme],
    room: u32,
) -> Result<(Part, &'a [Lexeme]), ReadFault>
    ensures { Gives (λ x. x.0) (λ x. x.1.now) result (reading.joined_from mode level (reading.deeper room) left tokens.now) }
{
    match operator_ahead(level, tokens) {
        Some((operator, _, behind)) => operated(alloc, mode, level, left, operator, behind, room),
        None => Ok((left, tokens)),
    }
}

/// What follows the operator behind `left`.
#[cycle(expression)]
fn operated<'a>(
    alloc: Global,
    mode: Mode,
    level: Level,
    left: Part,
    operator: Operator,
    tokens: &'a [Lexeme],
    room: u32,
) -> Result<(Part, &'a [Lexeme]), ReadFault>
    ensures { Gives (λ x. x.0) (λ x. x.1.now) result (opened (reading.deeper room) (reading.operated mode level left operator) tokens.now) }
{
    let inner = inside(room, tokens)?;
    let (right, rest) = operand(alloc, mode, level, tokens, inner)?;
    let both = binary(alloc, operator, left, right)?;
    joined_only(alloc, mode, level, both, rest, inner)
}

/// What follows an operator and its parts: more of the chain, where more than one operator may stand in it.
#[cycle(expression)]
#[tactic(auto, unfolding(crate::specs::Reading::joined_only))]
fn joined_only<'a>(
    alloc: Global,
    mode: Mode,
    level: Level,
    left: Part,
    tokens: &'a [Lexeme],
    room: u32,
) -> Result<(Part, &'a [Lexeme]), ReadFault>
    ensures { Gives (λ x. x.0) (λ x. x.1.now) result (reading.joined_only mode level (reading.deeper room) left tokens.now) }
{
    if level.repeats() {
        joined_from(alloc, mode, level, left, tokens, room)
    } else {
        Ok((left, tokens))
    }
}

/// Signs and negations, and what they stand before.
#[cycle(expression)]
#[tactic(auto, unfolding(crate::specs::Reading::unary))]
fn unary<'a>(
    alloc: Global,
    mode: Mode,
    tokens: &'a [Lexeme],
    room: u32,
) -> Result<(Part, &'a [Lexeme]), ReadFault>
    ensures { Gives (λ x. x.0) (λ x. x.1.now) result (reading.unary mode (reading.deeper room) tokens.now) }
{
    match after(tokens, BANG) {
        Some((first, behind)) => {
            let inner = inside(room, behind)?;
            let (part, rest) = unary(alloc, mode, behind, inner)?;
            let whole = opposite(alloc, first, part)?;
            Ok((whole, rest))
        }
        None => match after(tokens, MINUS) {
            Some((first, behind)) => {
                let inner = inside(room, behind)?;
                let (part, rest) = unary(alloc, mode, behind, inner)?;
                let whole = negative(alloc, first, part)?;
                Ok((whole, rest))
            }
            None => post(alloc, mode, tokens, room),
        },
    }
}

/// An atom, and the steps behind it.
#[cycle(expression)]
#[tactic(auto, unfolding(crate::specs::Reading::post))]
fn post<'a>(
    alloc: Global,
    mode: Mode,
    tokens: &'a [Lexeme],
    room: u32,
) -> Result<(Part, &'a [Lexeme]), ReadFault>
    ensures { Gives (λ x. x.0) (λ x. x.1.now) result (reading.post mode (reading.deeper room) tokens.now) }
{
    match named(tokens) {
        Some((word, behind)) => walk(alloc, mode, Chain::Named(None, word), behind, room),
        None => match after(tokens, THIS) {
            Some((span, behind)) => {
                let this = bare(alloc, span, ExprKind::This)?;
                walk(alloc, mode, Chain::Other(this), behind, room)
            }
            None => {
                let (first, rest) = atom(alloc, mode, tokens, room)?;
                ended(alloc, mode, first, rest, room)
            }
        },
    }
}

/// What follows a name or `this`.
#[cycle(expression)]
#[tactic(auto, unfolding(crate::specs::Reading::walk))]
fn walk<'a>(
    alloc: Global,
    mode: Mode,
    chain: Chain,
    tokens: &'a [Lexeme],
    room: u32,
) -> Result<(Part, &'a [Lexeme]), ReadFault>
    ensures { Gives (λ x. x.0) (λ x. x.1.now) result (reading.walk mode (reading.deeper room) chain tokens.now) }
{
    match mode {
        Mode::Program => ended(alloc, mode, chain, tokens, room),
        Mode::Logic => {
            let (target, rest) = read_steps(alloc, mode, chain, tokens, room)?;
            instance_or(alloc, target, rest, room)
        }
    }
}

/// The steps behind a chain, and the chain as an expression.
#[cycle(expression)]
#[tactic(auto, unfolding(crate::specs::Reading::ended))]
fn ended<'a>(
    alloc: Global,
    mode: Mode,
    chain: Chain,
    tokens: &'a [Lexeme],
    room: u32,
) -> Result<(Part, &'a [Lexeme]), ReadFault>
    ensures { Gives (λ x. x.0) (λ x. x.1.now) result (reading.ended mode (reading.deeper room) chain tokens.now) }
{
    let (whole, rest) = read_steps(alloc, mode, chain, tokens, room)?;
    let part = part_of(alloc, whole)?;
    Ok((part, rest))
}

/// The steps behind a chain, maybe none.
#[cycle(expression)]
#[tactic(auto, unfolding(crate::specs::Reading::steps, crate::specs::Reading::steps_or))]
pub fn read_steps<'a>(
    alloc: Global,
    mode: Mode,
    chain: Chain,
    tokens: &'a [Lexeme],
    room: u32,
) -> Result<(Chain, &'a [Lexeme]), ReadFault>
    ensures { Gives (λ x. x.0) (λ x. x.1.now) result (reading.steps mode (reading.deeper room) chain tokens.now) }
{
    match after(tokens, DOT) {
        Some((_, behind)) => field_step(alloc, mode, chain, behind, room),
        None => match after(tokens, OPEN_BRACKET) {
            Some((_, behind)) => element_step(alloc, mode, chain, behind, room),
            None => Ok((chain, tokens)),
        },
    }
}

/// What follows the dot behind a chain.
#[cycle(expression)]
fn field_step<'a>(
    alloc: Global,
    mode: Mode,
    chain: Chain,
    tokens: &'a [Lexeme],
    room: u32,
) -> Result<(Chain, &'a [Lexeme]), ReadFault>
    ensures { Gives (λ x. x.0) (λ x. x.1.now) result (opened (reading.deeper room) (reading.field_step mode chain) tokens.now) }
{
    let inner = inside(room, tokens)?;
    let (word, rest) = expected_name(tokens)?;
    let receiver = part_of(alloc, chain)?;
    read_steps(alloc, mode, Chain::Named(Some(receiver), word), rest, inner)
}

/// An expression one deeper, up to the bracket that closes it, and the place of that.
#[cycle(expression)]
fn closed<'a>(
    alloc: Global,
    mode: Mode,
    close: u32,
    tokens: &'a [Lexeme],
    room: u32,
) -> Result<(Part, Span, &'a [Lexeme]), ReadFault>
    ensures { Gives {A = Part × Span} (λ x. (x.0, x.1)) (λ x. x.2.now) result (opened (reading.deeper room) (λ p us. onward (λ a. expect close (λ t. give (a, t))) (p.expr mode us)) tokens.now) }
{
    let inner = inside(room, tokens)?;
    let (part, rest) = read_expression(alloc, mode, tokens, inner)?;
    let (last, rest) = expected(rest, close)?;
    Ok((part, last, rest))
}

/// What follows the bracket behind a chain: the bracket opens one construct, and the step another.
#[cycle(expression)]
fn element_step<'a>(
    alloc: Global,
    mode: Mode,
    chain: Chain,
    tokens: &'a [Lexeme],
    room: u32,
) -> Result<(Chain, &'a [Lexeme]), ReadFault>
    ensures { Gives (λ x. x.0) (λ x. x.1.now) result (opened (reading.deeper room) (reading.element_step mode chain) tokens.now) }
{
    let inner = inside(room, tokens)?;
    let (index, last, rest) = closed(alloc, mode, CLOSE_BRACKET, tokens, inner)?;
    let array = part_of(alloc, chain)?;
    let whole = element(alloc, array, index, last)?;
    read_steps(alloc, mode, Chain::Other(whole), rest, inner)
}

/// An instance on what may be a target, if its arguments follow.
#[cycle(expression)]
#[tactic(auto, unfolding(crate::specs::Reading::instance_or))]
fn instance_or<'a>(
    alloc: Global,
    chain: Chain,
    tokens: &'a [Lexeme],
    room: u32,
) -> Result<(Part, &'a [Lexeme]), ReadFault>
    ensures { Gives (λ x. x.0) (λ x. x.1.now) result (reading.instance_or (reading.deeper room) chain tokens.now) }
{
    match chain {
        Chain::Named(receiver, word) => match after(tokens, OPEN_PAREN) {
            Some((_, behind)) => instance_of(alloc, receiver, word, behind, room),
            None => {
                let part = part_of(alloc, Chain::Named(receiver, word))?;
                Ok((part, tokens))
            }
        },
        Chain::Other(part) => Ok((part, tokens)),
    }
}

/// What follows the bracket that opens the arguments of an instance.
#[cycle(expression)]
fn instance_of<'a>(
    alloc: Global,
    receiver: Option<Part>,
    word: Word,
    tokens: &'a [Lexeme],
    room: u32,
) -> Result<(Part, &'a [Lexeme]), ReadFault>
    ensures { Gives (λ x. x.0) (λ x. x.1.now) result (opened (reading.deeper room) (reading.instance_args (reading.deeper room) receiver word) tokens.now) }
{
    let inner = inside(room, tokens)?;
    let (args, last, rest) = read_args(alloc, Mode::Logic, tokens, inner)?;
    let whole = instance(alloc, receiver, word, args, last)?;
    ended(alloc, Mode::Logic, Chain::Other(whole), rest, room)
}

/// Arguments behind the bracket that opens them, and the place of the one that closes them.
#[cycle(expression)]
#[tactic(auto, unfolding(crate::specs::Reading::args))]
pub fn read_args<'a>(
    alloc: Global,
    mode: Mode,
    tokens: &'a [Lexeme],
    room: u32,
) -> Result<(Args, Span, &'a [Lexeme]), ReadFault>
    ensures { Gives (λ x. (x.0, x.1)) (λ x. x.2.now) result (reading.args (reading.expr mode (reading.deeper room)) tokens.now) }
{
    match after(tokens, CLOSE_PAREN) {
        Some((last, behind)) => Ok((Items::new(alloc), last, behind)),
        None => some_args(alloc, mode, tokens, room),
    }
}

/// One argument or more, and the place of the bracket that closes them.
#[cycle(expression)]
fn some_args<'a>(
    alloc: Global,
    mode: Mode,
    tokens: &'a [Lexeme],
    room: u32,
) -> Result<(Args, Span, &'a [Lexeme]), ReadFault>
    ensures { Gives (λ x. (x.0, x.1)) (λ x. x.2.now) result (series COMMA CLOSE_PAREN (λ us. onward (λ a. give a.tree) (reading.expr mode (reading.deeper room) us)) [] tokens.now) }
{
    let mut found = Items::new(alloc);
    let mut rest = tokens;
    'found: loop {
        let (part, behind) = read_expression(alloc, mode, rest, room)?;
        found.push(part.into_tree())?;
        match after(behind, COMMA) {
            Some((_, more)) => rest = more,
            None => {
                let (last, behind) = expected(behind, CLOSE_PAREN)?;
                return Ok((found, last, behind));
            }
        }
    }
}

/// An atom that is neither a name nor `this`.
#[cycle(expression)]
#[tactic(auto, unfolding(crate::specs::Reading::atom))]
fn atom<'a>(
    alloc: Global,
    mode: Mode,
    tokens: &'a [Lexeme],
    room: u32,
) -> Result<(Chain, &'a [Lexeme]), ReadFault>
    ensures { Gives (λ x. x.0) (λ x. x.1.now) result (reading.atom mode (reading.deeper room) tokens.now) }
{
    match constant(tokens) {
        Some((kind, span, rest)) => {
            let part = bare(alloc, span, kind)?;
            Ok((Chain::Other(part), rest))
        }
        None => match mode {
            Mode::Program => group(alloc, tokens, room),
            Mode::Logic => logic_atom(alloc, tokens, room),
        },
    }
}

/// An expression in brackets.
#[cycle(expression)]
#[tactic(auto, unfolding(crate::specs::Reading::group))]
fn group<'a>(
    alloc: Global,
    tokens: &'a [Lexeme],
    room: u32,
) -> Result<(Chain, &'a [Lexeme]), ReadFault>
    ensures { Gives (λ x. x.0) (λ x. x.1.now) result (reading.group (reading.deeper room) tokens.now) }
{
    let (first, behind) = expected(tokens, OPEN_PAREN)?;
    let (part, last, rest) = closed(alloc, Mode::Program, CLOSE_PAREN, behind, room)?;
    Ok((Chain::Other(widened(first, last, part)), rest))
}

/// An atom of formulas alone, or a formula in brackets.
#[cycle(expression)]
#[tactic(auto, unfolding(crate::specs::Reading::logic_atom))]
fn logic_atom<'a>(
    alloc: Global,
    tokens: &'a [Lexeme],
    room: u32,
) -> Result<(Chain, &'a [Lexeme]), ReadFault>
    ensures { Gives (λ x. x.0) (λ x. x.1.now) result (reading.logic_atom (reading.deeper room) tokens.now) }
{
    match after(tokens, RESULT) {
        Some((span, behind)) => {
            let part = bare(alloc, span, ExprKind::Result)?;
            Ok((Chain::Other(part), behind))
        }
        None => match after(tokens, OLD) {
            Some((first, behind)) => old_value(alloc, first, behind, room),
            None => match after(tokens, PERM) {
                Some((first, behind)) => permitted(alloc, first, behind, room),
                None => word_or_group(alloc, tokens, room),
            },
        },
    }
}

/// A token of a thread or of a lock, or a formula in brackets.
#[cycle(expression)]
fn word_or_group<'a>(
    alloc: Global,
    tokens: &'a [Lexeme],
    room: u32,
) -> Result<(Chain, &'a [Lexeme]), ReadFault>
    ensures { Gives (λ x. x.0) (λ x. x.1.now) result (pick token_of (λ k s. expect OPEN_PAREN (λ q. opened (reading.deeper room) (reading.tokened k s))) (reading.formula_group (reading.deeper room)) tokens.now) }
{
    match token_word(tokens) {
        Some((token, first, behind)) => held_token(alloc, token, first, behind, room),
        None => formula_group(alloc, tokens, room),
    }
}

/// What follows the `\old` at `first`.
#[cycle(expression)]
fn old_value<'a>(
    alloc: Global,
    first: Span,
    tokens: &'a [Lexeme],
    room: u32,
) -> Result<(Chain, &'a [Lexeme]), ReadFault>
    ensures { Gives (λ x. x.0) (λ x. x.1.now) result (expect OPEN_PAREN (λ q. opened (reading.deeper room) (reading.oldened first)) tokens.now) }
{
    let (_, behind) = expected(tokens, OPEN_PAREN)?;
    let (part, last, rest) = closed(alloc, Mode::Logic, CLOSE_PAREN, behind, room)?;
    let whole = old(alloc, first, part, last)?;
    Ok((Chain::Other(whole), rest))
}

/// What follows the `Perm` at `first`.
#[cycle(expression)]
fn permitted<'a>(
    alloc: Global,
    first: Span,
    tokens: &'a [Lexeme],
    room: u32,
) -> Result<(Chain, &'a [Lexeme]), ReadFault>
    ensures { Gives (λ x. x.0) (λ x. x.1.now) result (expect OPEN_PAREN (λ q. opened (reading.deeper room) (reading.permitted first)) tokens.now) }
{
    let (_, behind) = expected(tokens, OPEN_PAREN)?;
    let inner = inside(room, behind)?;
    let (part, rest) = post(alloc, Mode::Logic, behind, inner)?;
    let (_, rest) = expected(rest, COMMA)?;
    let (amount, rest) = read_amount(rest)?;
    let (last, rest) = expected(rest, CLOSE_PAREN)?;
    let whole = permission(alloc, first, part, amount, last)?;
    Ok((Chain::Other(whole), rest))
}

/// What follows the word at `first` of a token.
#[cycle(expression)]
fn held_token<'a>(
    alloc: Global,
    token: Token,
    first: Span,
    tokens: &'a [Lexeme],
    room: u32,
) -> Result<(Chain, &'a [Lexeme]), ReadFault>
    ensures { Gives (λ x. x.0) (λ x. x.1.now) result (expect OPEN_PAREN (λ q. opened (reading.deeper room) (reading.tokened token first)) tokens.now) }
{
    let (_, behind) = expected(tokens, OPEN_PAREN)?;
    let (part, last, rest) = closed(alloc, Mode::Logic, CLOSE_PAREN, behind, room)?;
    let whole = held(alloc, token, first, part, last)?;
    Ok((Chain::Other(whole), rest))
}

/// A formula in brackets, maybe quantified.
#[cycle(expression)]
#[tactic(auto, unfolding(crate::specs::Reading::formula_group))]
fn formula_group<'a>(
    alloc: Global,
    tokens: &'a [Lexeme],
    room: u32,
) -> Result<(Chain, &'a [Lexeme]), ReadFault>
    ensures { Gives (λ x. x.0) (λ x. x.1.now) result (reading.formula_group (reading.deeper room) tokens.now) }
{
    let (first, behind) = expected(tokens, OPEN_PAREN)?;
    let inner = inside(room, behind)?;
    formula_grouped(alloc, first, behind, inner)
}

/// What follows the bracket at `first`.
#[cycle(expression)]
#[tactic(auto, unfolding(crate::specs::Reading::formula_grouped))]
fn formula_grouped<'a>(
    alloc: Global,
    first: Span,
    tokens: &'a [Lexeme],
    room: u32,
) -> Result<(Chain, &'a [Lexeme]), ReadFault>
    ensures { Gives (λ x. x.0) (λ x. x.1.now) result (reading.formula_grouped first (reading.readers (reading.deeper room)) tokens.now) }
{
    match forall_word(tokens) {
        Some((star, _, behind)) => quantified(alloc, star, first, behind, room),
        None => {
            let (part, rest) = read_formula(alloc, tokens, room)?;
            let (last, rest) = expected(rest, CLOSE_PAREN)?;
            Ok((Chain::Other(widened(first, last, part)), rest))
        }
    }
}

/// What follows the word of a quantifier behind the bracket at `first`.
#[cycle(expression)]
#[tactic(auto, unfolding(crate::specs::Reading::quantified))]
fn quantified<'a>(
    alloc: Global,
    star: bool,
    first: Span,
    tokens: &'a [Lexeme],
    room: u32,
) -> Result<(Chain, &'a [Lexeme]), ReadFault>
    ensures { Gives (λ x. x.0) (λ x. x.1.now) result (reading.quantified star first (reading.readers (reading.deeper room)) tokens.now) }
{
    let (_, rest) = expected(tokens, INT)?;
    let (word, rest) = expected_name(rest)?;
    let (bounds, rest) = read_bounds(alloc, rest, room)?;
    let (_, rest) = expected(rest, SEMICOLON)?;
    let (body, last, rest) = closed_formula(alloc, rest, room)?;
    let whole = each(alloc, star, first, word, bounds, body, last)?;
    Ok((Chain::Other(whole), rest))
}

/// A formula up to the bracket that closes it, and the place of that.
#[cycle(expression)]
fn closed_formula<'a>(
    alloc: Global,
    tokens: &'a [Lexeme],
    room: u32,
) -> Result<(Part, Span, &'a [Lexeme]), ReadFault>
    ensures { Gives {A = Part × Span} (λ x. (x.0, x.1)) (λ x. x.2.now) result (onward (λ a. expect CLOSE_PAREN (λ t. give (a, t))) (reading.formula (reading.deeper room) tokens.now)) }
{
    let (part, rest) = read_formula(alloc, tokens, room)?;
    let (last, rest) = expected(rest, CLOSE_PAREN)?;
    Ok((part, last, rest))
}

/// The bounds of a quantifier.
#[cycle(expression)]
#[tactic(auto, unfolding(crate::specs::Reading::bounds))]
fn read_bounds<'a>(
    alloc: Global,
    tokens: &'a [Lexeme],
    room: u32,
) -> Result<(Bounds, &'a [Lexeme]), ReadFault>
    ensures { Gives (λ x. x.0) (λ x. x.1.now) result (reading.bounds (reading.readers (reading.deeper room)) tokens.now) }
{
    match after(tokens, ASSIGN) {
        Some((_, behind)) => range_bounds(alloc, behind, room),
        None => {
            let (_, behind) = expected(tokens, SEMICOLON)?;
            written_bounds(alloc, behind, room)
        }
    }
}

/// Bounds with dots between them.
#[cycle(expression)]
fn range_bounds<'a>(
    alloc: Global,
    tokens: &'a [Lexeme],
    room: u32,
) -> Result<(Bounds, &'a [Lexeme]), ReadFault>
    ensures { Gives (λ x. x.0) (λ x. x.1.now) result (reading.range_bounds (reading.readers (reading.deeper room)) tokens.now) }
{
    let (low, rest) = read_expression(alloc, Mode::Logic, tokens, room)?;
    let (_, rest) = expected(rest, DOTS)?;
    let (high, rest) = read_expression(alloc, Mode::Logic, rest, room)?;
    let written = None;
    Ok((Bounds { low, high, written }, rest))
}

/// Bounds as two comparisons of the bound variable.
#[cycle(expression)]
fn written_bounds<'a>(
    alloc: Global,
    tokens: &'a [Lexeme],
    room: u32,
) -> Result<(Bounds, &'a [Lexeme]), ReadFault>
    ensures { Gives (λ x. x.0) (λ x. x.1.now) result (reading.written_bounds (reading.readers (reading.deeper room)) tokens.now) }
{
    let (low, rest) = operand(alloc, Mode::Logic, Level::Comparison, tokens, room)?;
    let (names, rest) = bound_names(rest)?;
    let (high, rest) = operand(alloc, Mode::Logic, Level::Comparison, rest, room)?;
    let written = Some(names);
    Ok((Bounds { low, high, written }, rest))
}

/// A formula.
#[cycle(expression)]
#[tactic(auto, unfolding(crate::specs::Reading::formula, crate::specs::Reading::operand))]
pub fn read_formula<'a>(
    alloc: Global,
    tokens: &'a [Lexeme],
    room: u32,
) -> Result<(Part, &'a [Lexeme]), ReadFault>
    ensures { Gives (λ x. x.0) (λ x. x.1.now) result (reading.formula (reading.deeper room) tokens.now) }
{
    let (first, rest) = operand(alloc, Mode::Logic, Level::Disjunction, tokens, room)?;
    let (level, rest) = level_from(alloc, first, rest, room)?;
    implies_from(alloc, level, rest, room)
}

/// What follows the first part of a chain of `||` or of `**`.
#[cycle(expression)]
#[tactic(auto, unfolding(crate::specs::Reading::level_from, crate::specs::Reading::joined_or))]
fn level_from<'a>(
    alloc: Global,
    left: Part,
    tokens: &'a [Lexeme],
    room: u32,
) -> Result<(Part, &'a [Lexeme]), ReadFault>
    ensures { Gives (λ x. x.0) (λ x. x.1.now) result (reading.level_from (reading.deeper room) left tokens.now) }
{
    match operator_ahead(Level::Disjunction, tokens) {
        Some((operator, _, behind)) => {
            let level = Level::Disjunction;
            operated(alloc, Mode::Logic, level, left, operator, behind, room)
        }
        None => joined_from(alloc, Mode::Logic, Level::Separation, left, tokens, room),
    }
}

/// What follows the level before an implication.
#[cycle(expression)]
#[tactic(auto, unfolding(crate::specs::Reading::implies_from))]
fn implies_from<'a>(
    alloc: Global,
    left: Part,
    tokens: &'a [Lexeme],
    room: u32,
) -> Result<(Part, &'a [Lexeme]), ReadFault>
    ensures { Gives (λ x. x.0) (λ x. x.1.now) result (reading.implies_from (reading.deeper room) left tokens.now) }
{
    match after(tokens, IMPLIES) {
        Some((_, behind)) => {
            let inner = inside(room, behind)?;
            let (right, rest) = read_formula(alloc, behind, inner)?;
            let both = binary(alloc, Operator::Implies, left, right)?;
            Ok((both, rest))
        }
        None => Ok((left, tokens)),
    }
}

/// The steps behind a chain, one at least.
#[tactic(auto, unfolding(crate::specs::Reading::steps_or))]
pub fn read_some_steps<'a>(
    alloc: Global,
    mode: Mode,
    chain: Chain,
    tokens: &'a [Lexeme],
    room: u32,
) -> Result<(Chain, &'a [Lexeme]), ReadFault>
    ensures { Gives (λ x. x.0) (λ x. x.1.now) result (reading.steps_or mode (reading.deeper room) chain refuse tokens.now) }
{
    match after(tokens, DOT) {
        Some((_, behind)) => field_step(alloc, mode, chain, behind, room),
        None => {
            let (_, behind) = expected(tokens, OPEN_BRACKET)?;
            element_step(alloc, mode, chain, behind, room)
        }
    }
}

/// The rest of an expression behind a unary one.
#[tactic(auto, unfolding(crate::specs::Reading::rest_of_expr))]
pub fn rest_of_expression<'a>(
    alloc: Global,
    mode: Mode,
    left: Part,
    tokens: &'a [Lexeme],
    room: u32,
) -> Result<(Part, &'a [Lexeme]), ReadFault>
    ensures { Gives (λ x. x.0) (λ x. x.1.now) result (reading.rest_of_expr mode (reading.deeper room) left tokens.now) }
{
    let (product, rest) = joined_from(alloc, mode, Level::Product, left, tokens, room)?;
    let (sum, rest) = joined_from(alloc, mode, Level::Sum, product, rest, room)?;
    let (comparison, rest) = joined_from(alloc, mode, Level::Comparison, sum, rest, room)?;
    let (equality, rest) = joined_from(alloc, mode, Level::Equality, comparison, rest, room)?;
    let (conjunction, rest) = joined_from(alloc, mode, Level::Conjunction, equality, rest, room)?;
    joined_from(alloc, mode, Level::Disjunction, conjunction, rest, room)
}
