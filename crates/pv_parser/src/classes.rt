//! Classes and programs. Each function reads one rule, where so many constructs (`room`) may still be opened, and returns what
//! it read and the tokens behind.
ghost use Rattle.std.specs.Prelude.{◌≡◌, []};
ghost use Rattle.pv_reading.specs.Given.{Gives};
ghost use Rattle.pv_exprs.specs.Reading.{deeper};
ghost use Rattle.pv_parser.specs.Reading as reading;
ghost use Rattle.pv_parser.specs.Reading.{deeper_blocks};

use crate::members::members;
use crate::parts::formula_end;
use crate::rooms::inside_blocks;
use crate::trees::class_at;
use crate::words::class_word;
use pv_ast::{Class, Classes, Expr, Program};
use pv_base::{Name, Span};
use pv_reading::{ReadFault, expected, expected_name};
use pv_tokens::Lexeme;
use pv_tokens::fixed::{CLASS, OPEN_BRACE};
use sqlite_items::{Boxed, Items};
use std::alloc::Global;

/// What follows the word `class`, in a class that begins at `first`.
#[tactic(auto, unfolding(crate::specs::Reading::class_end))]
fn class_end<'a>(
    alloc: Global,
    first: Span,
    lock_invariant: Option<Boxed<Expr>>,
    tokens: &'a [Lexeme],
    room: u32,
) -> Result<(Boxed<Class>, &'a [Lexeme]), ReadFault>
    ensures { Gives (λ x. x.0) (λ x. x.1.now) result (reading.class_end (deeper_blocks room) first lock_invariant tokens.now) }
{
    let (name, rest) = expected_name(tokens)?;
    let (_, rest) = expected(rest, OPEN_BRACE)?;
    let inner = inside_blocks(room, rest)?;
    let (members, last, rest) = members(alloc, rest, inner)?;
    let class = Boxed::new(alloc, class_at(first, lock_invariant, name, members, last))?;
    Ok((class, rest))
}

/// What follows the first word of a class, which stands at `first`.
#[tactic(auto, unfolding(crate::specs::Reading::class_from))]
fn class_from<'a>(
    alloc: Global,
    locks: bool,
    first: Span,
    tokens: &'a [Lexeme],
    room: u32,
) -> Result<(Boxed<Class>, &'a [Lexeme]), ReadFault>
    ensures { Gives (λ x. x.0) (λ x. x.1.now) result (reading.class_from (deeper room) (deeper_blocks room) locks first tokens.now) }
{
    if locks {
        let (formula, _, rest) = formula_end(alloc, tokens, room)?;
        let (_, rest) = expected(rest, CLASS)?;
        class_end(alloc, first, Some(formula.into_boxed()), rest, room)
    } else {
        class_end(alloc, first, None, tokens, room)
    }
}

/// Classes, as long as another begins.
fn classes<'a>(
    alloc: Global,
    tokens: &'a [Lexeme],
    room: u32,
) -> Result<(Classes, &'a [Lexeme]), ReadFault>
    ensures { Gives (λ x. x.0) (λ x. x.1.now) result (reading.classes room [] tokens.now) }
{
    let mut found = Items::new(alloc);
    let mut rest = tokens;
    'found: loop {
        match class_word(rest) {
            Some((locks, first, behind)) => {
                let (next, behind) = class_from(alloc, locks, first, behind, room)?;
                found.push(next.into_inner())?;
                rest = behind;
            }
            None => return Ok((found, rest)),
        }
    }
}

/// A program, with at most so many constructs open at once, and the tokens behind it. `length` is the number of the word
/// `length` where the text has it.
#[tactic(auto, unfolding(crate::specs::Reading::program))]
pub fn read_program<'a>(
    alloc: Global,
    tokens: &'a [Lexeme],
    length: Option<Name>,
    room: u32,
) -> Result<(Program, &'a [Lexeme]), ReadFault>
    ensures { Gives (λ x. x.0) (λ x. x.1.now) result (reading.program room length tokens.now) }
{
    let (classes, rest) = classes(alloc, tokens, room)?;
    Ok((Program { classes, length }, rest))
}
