//! The call that reads a whole program.
ghost use Rattle.pv_ast.specs.declared.Program.{Program};
ghost use Rattle.pv_reading.specs.Spelled.{most_open, SpellsWithin};
ghost use Rattle.pv_reading.specs.Answers.{ReadsAll, Answers};
ghost use Rattle.pv_parser.specs.Grammar.{IsProgram};

use crate::classes::read_program;
use pv_ast::Program;
use pv_reading::{MOST_OPEN, ParseFault, place, placed};
use pv_tokens::Tokens;
use std::alloc::Global;

/// The program that the tokens of a text spell, all of them, with at most 64 constructs open at once. `Unexpected` names the
/// first token up to which they are the front of no program, at whatever depth, and `TooDeep` the first that opens the 65th
/// construct.
pub fn program(alloc: Global, tokens: &Tokens) -> Result<Program, ParseFault>
    ensures reads { ReadsAll (IsProgram tokens.now.length) most_open tokens.now.end tokens.now.items result }
    // What spells a program is read as that one, unless memory runs out.
    ensures accepts { (p : Program) → SpellsWithin (IsProgram tokens.now.length) most_open tokens.now.items p → Answers result p }
{
    let items = tokens.items.as_slice();
    match read_program(alloc, items, tokens.length, MOST_OPEN) {
        Ok((program, rest)) => {
            if rest.is_empty() {
                Ok(program)
            } else {
                Err(ParseFault::Unexpected(place(items, tokens.end, rest.len())))
            }
        }
        Err(fault) => Err(placed(items, tokens.end, fault)),
    }
}
