//! From a text to the small program that it spells.
ghost use Rattle.std.specs.Prelude.{◌≡◌, ◌≢◌, ◌≤◌, [], length, OnOk, IfOk, IfErr};
ghost use Rattle.pv_tokens.specs.Bytes.{most_bytes};
ghost use Rattle.pv_ast.specs.Rules.WellFormed.{IsWellFormed};
ghost use Rattle.vercors.specs.Texts.{IsAccepted, SpellsSmallProgram, SpellsNone, SpellsOnly};
ghost use Rattle.vercors.specs.Refusals.{HasNoRefusal, RefusesProgram, Refuses};

use pv_ast::Program;
use pv_names::Names;
use pv_parser::{few_literals, program};
use pv_report::{Refusal, TextFault};
use pv_shapes::check_shapes;
use pv_tokens::reading::tokens;
use pv_types::check_types;
use small_rules::is_small;
use std::alloc::Global;

/// Whether a program is small, and breaks no static rule and no rule of shape. The error is what it is refused for: a broken
/// rule before a fault of shape, and a fault of shape before the form of small programs.
fn check_program(alloc: Global, program: &Program) -> Result<(), TextFault>
    ensures passes { OnOk result (IsAccepted program.now) }
    ensures refuses { IfErr result (λ fault. RefusesProgram program.now fault) }
{
    check_types(alloc, program)?;
    check_shapes(program)?;
    if is_small(program) {
        Ok(())
    } else {
        Err(TextFault::Refused(Refusal::NotBuilt))
    }
}

/// The small program that a text spells, and the names in it; or why the text is refused, unless memory runs out first.
pub fn read_program(alloc: Global, text: &[u8], names: &mut Names) -> Result<Program, TextFault>
    requires short { length text.now ≤ most_bytes }
    requires no_names { names.old ≡ [] }
    ensures spelled { IfOk result (λ program. SpellsSmallProgram text.now names.new program) }
    ensures one { IfOk result (λ program. SpellsOnly text.now program) }
    ensures unrefused { IfOk result (λ _. HasNoRefusal text.now) }
    ensures refused { IfErr result (λ fault. Refuses text.now fault) }
    ensures none { IfErr result (λ fault. fault ≢ TextFault.NoMemory → SpellsNone text.now) }
    ensures well_formed { IfOk result (λ program. IsWellFormed program) }
{
    few_literals();
    let found = tokens(alloc, text, names)?;
    let program = program(alloc, &found)?;
    check_program(alloc, &program)?;
    Ok(program)
}
