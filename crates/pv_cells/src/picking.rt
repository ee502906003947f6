//! Picks as values of a type.
ghost use Rattle.std.specs.Prelude.{◌≡◌, ◌+◌, IfOk, OnOk, IfErr, true};
ghost use Rattle.pv_cells.specs.Picks.{IsSteps, NoSteps, Picked, Unpicked, refers};
ghost use Rattle.pv_cells.specs.Prepared.{left};

use crate::halt::Halt;
use crate::lengths::take_number;
use crate::prepared::Prepared;
use crate::store::{Learned, Met};
use pv_ast::PvType;
use pv_picks::Pick;
use pv_values::Value;

/// The next pick, as a value of the type. A reference is met. Blocked where a pick is missing or of another kind, or a negative
/// number stands in the place of a reference.
#[tactic(auto, using(crate::proofs::Picked::number_picked, crate::proofs::Picked::truth_picked, crate::proofs::Picked::none_picked, crate::proofs::Picked::null_picked))]
pub(crate) fn pick_value(
    given: &Prepared,
    learned: &mut Learned,
    kind: PvType,
) -> Result<Value, Halt>
    ensures goes { IfOk result (λ v. Picked given.now kind learned.old v learned.new) }
    ensures stops { IfErr result (λ halt. Unpicked given.now kind learned.old halt learned.new) }
{
    match kind {
        PvType::Int => {
            let z = take_number(given, learned)?;
            Ok(Value::Number(z))
        }
        PvType::Truth => {
            let z = take_number(given, learned)?;
            Ok(Value::Truth(1 <= z))
        }
        PvType::Object(_) | PvType::IntArray | PvType::TruthArray => {
            pick_reference(given, learned, kind)
        }
        PvType::Null => Err(Halt::Blocked),
    }
}

#[tactic(auto, using(crate::proofs::Picked::none_picked, crate::proofs::Picked::no_memory))]
fn pick_reference(given: &Prepared, learned: &mut Learned, kind: PvType) -> Result<Value, Halt>
    requires { refers kind ≡ true }
    ensures goes { IfOk result (λ v. Picked given.now kind learned.old v learned.new) }
    ensures stops { IfErr result (λ halt. Unpicked given.now kind learned.old halt learned.new) }
{
    let z = take_number(given, learned)?;
    if z < 0 {
        return Err(Halt::Blocked);
    }
    let reference = z as u128;
    learned.met.push(Met { kind, reference })?;
    Ok(Value::Reference(reference))
}

/// Takes the next pick, which must be one for a range: blocked where there is none, or one of another kind. Its values are read
/// off the evidence by its number, which is how many were taken before.
#[tactic(auto, using(crate::proofs::PicksLeft::range_left, crate::proofs::PicksLeft::number_instead, crate::proofs::PicksLeft::turn_instead, crate::proofs::PicksLeft::no_range_left, crate::proofs::PicksLeft::no_room))]
pub(crate) fn take_steps(given: &Prepared, learned: &mut Learned) -> Result<(), Halt>
    ensures taken { OnOk result (IsSteps (left given.now learned.old) (left given.now learned.new)) }
    ensures steps { OnOk result (learned.new.steps ≡ learned.old.steps + 1) }
    ensures lengths { learned.new.lengths ≡ learned.old.lengths }
    ensures met { learned.new.met ≡ learned.old.met }
    ensures none { IfErr result (λ halt. NoSteps halt (left given.now learned.old)) }
{
    let picks = given.evidence.picks.as_slice();
    let used = learned.used;
    if used >= picks.len() {
        return Err(Halt::Blocked);
    }
    let pick = &picks[used];
    match pick {
        Pick::Steps(_) => {
            let steps = learned.steps.checked_add(1);
            match steps {
                Some(steps) => {
                    learned.steps = steps;
                    learned.used = used + 1;
                    Ok(())
                }
                None => Err(Halt::NoMemory),
            }
        }
        Pick::Number(_) | Pick::Turn(_) => Err(Halt::Blocked),
    }
}
