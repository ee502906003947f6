//! Picks of numbers, and lengths of arrays, which are picked when they are first looked at.
ghost use Rattle.std.specs.Prelude.{◌≡◌, ◌+◌, ◌<◌, length, None, IfOk, IfErr, OnOk};
ghost use Rattle.pv_cells.specs.declared.halt.Halt.TheVariants.{Blocked as IsBlocked};
ghost use Rattle.pv_cells.specs.Prepared.{left};
ghost use Rattle.pv_cells.specs.Picks.{IsNumber, NoNumber};
ghost use Rattle.pv_cells.specs.Stores.{lengths_of};
ghost use Rattle.pv_cells.specs.Values.{Measured, Unmeasured};

use crate::halt::Halt;
use crate::key::ArrayKey;
use crate::prepared::Prepared;
use crate::store::Learned;
use pv_ast::PvType;
use pv_picks::Pick;

/// The next pick, which must be a number: blocked where there is none, or one of another kind.
#[tactic(auto, using(crate::proofs::PicksLeft::number_left, crate::proofs::PicksLeft::turn_left, crate::proofs::PicksLeft::steps_left, crate::proofs::PicksLeft::none_left))]
pub(crate) fn take_number(given: &Prepared, learned: &mut Learned) -> Result<i128, Halt>
    ensures taken { IfOk result (λ z. IsNumber (left given.now learned.old) z (left given.now learned.new)) }
    ensures lengths { learned.new.lengths ≡ learned.old.lengths }
    ensures met { learned.new.met ≡ learned.old.met }
    ensures steps { learned.new.steps ≡ learned.old.steps }
    ensures halt { IfErr result (λ halt. halt ≡ IsBlocked) }
    ensures none { IfErr result (λ halt. NoNumber (left given.now learned.old)) }
{
    let picks = given.evidence.picks.as_slice();
    let used = learned.used;
    if used < picks.len() {
        let pick = &picks[used];
        return match pick {
            Pick::Number(number) => {
                learned.used = used + 1;
                Ok(*number)
            }
            Pick::Turn(_) | Pick::Steps(_) => Err(Halt::Blocked),
        };
    }
    Err(Halt::Blocked)
}

/// The length of an array: the one that is known, or else a pick, which is known from then on. Blocked where a pick is missing, of
/// another kind, or negative.
#[tactic(auto, using(crate::proofs::Measuring::known_length))]
pub(crate) fn length_of(
    given: &Prepared,
    learned: &mut Learned,
    kind: PvType,
    array: u128,
) -> Result<i128, Halt>
    ensures goes { IfOk result (λ n. Measured given.now kind array learned.old n learned.new) }
    ensures halts { IfErr result (λ halt. Unmeasured given.now kind array learned.old halt learned.new) }
{
    let key = ArrayKey { kind, array };
    let known = learned.lengths.get(&key).copied();
    match known {
        Some(n) => Ok(n),
        None => pick_length(given, learned, key),
    }
}

#[tactic(auto, using(crate::proofs::Measuring::no_length, crate::proofs::Measuring::no_room))]
fn pick_length(given: &Prepared, learned: &mut Learned, key: ArrayKey) -> Result<i128, Halt>
    requires { lengths_of learned.old.lengths key.kind key.array ≡ None }
    ensures goes { IfOk result (λ n. Measured given.now key.kind key.array learned.old n learned.new) }
    ensures halts { IfErr result (λ halt. Unmeasured given.now key.kind key.array learned.old halt learned.new) }
{
    let n = take_number(given, learned)?;
    if n < 0 {
        return Err(Halt::Blocked);
    }
    learned.lengths.insert(key, n)?;
    Ok(n)
}
