//! How a run gains a range of elements: their values are one pick.
ghost use Rattle.std.specs.Prelude.{◌≡◌, ◌&&◌, int_le, pos, [], IfErr, OnOk};
ghost use Rattle.pv_picks.specs.Judge.Permissions as permissions;
ghost use Rattle.pv_cells.specs.Moves.{Moves, Stops, filling, setting_of};

use crate::halt::Halt;
use crate::lengths::length_of;
use crate::picking::take_steps;
use crate::prepared::Prepared;
use crate::ranging::{add_each, has_room};
use crate::store::{Held, Learned};
use pv_ast::PvType;

/// More of each element from the first index to below the second, which lie in the array. Those that weren't held take their values
/// from one pick. Blocked where one would be more than the whole. Three look-ups for each position.
#[tactic(auto, using(crate::proofs::Stopping::out_of_memory))]
pub(crate) fn fill_range(
    kind: PvType,
    array: u128,
    low: i128,
    high: i128,
    amount: u64,
    held: &mut Held,
    given: &Prepared,
    learned: &mut Learned,
) -> Result<(), Halt>
    ensures goes { OnOk result (Moves given.now (filling given.now kind array low high amount) held.old learned.old held.new learned.new) }
    ensures stops { IfErr result (λ halt. Stops given.now (filling given.now kind array low high amount) held.old learned.old halt) }
{
    if !has_room(kind, array, low, high, amount, held) {
        return Err(Halt::Blocked);
    }
    let number = learned.steps;
    take_steps(given, learned)?;
    add_each(kind, array, low, high, amount, number, held)?;
    Ok(())
}

/// More of each element from the first index to below the second. Blocked on null, where the range doesn't lie in the array, and
/// where one would be more than the whole; the array's length may be picked. A run of
/// the judge doesn't see the ends that are noticed.
pub(crate) fn gain_range(
    kind: PvType,
    array: u128,
    low: i128,
    high: i128,
    amount: u64,
    held: &mut Held,
    given: &Prepared,
    learned: &mut Learned,
) -> Result<(), Halt>
    ensures goes { OnOk result (Moves given.now (λ next. permissions.gain_range (setting_of given.now) kind array low high [] amount next) held.old learned.old held.new learned.new) }
    ensures stops { IfErr result (λ halt. Stops given.now (λ next. permissions.gain_range (setting_of given.now) kind array low high [] amount next) held.old learned.old halt) }
{
    if array == 0 {
        return Err(Halt::Blocked);
    }
    let length = length_of(given, learned, kind, array)?;
    if !lies_in(low, high, length) {
        return Err(Halt::Blocked);
    }
    fill_range(kind, array, low, high, amount, held, given, learned)?;
    Ok(())
}

/// Whether a range from the first index to below the second lies in an array of this length.
fn lies_in(low: i128, high: i128, length: i128) -> bool
    ensures { result ≡ (int_le (pos 0) low && int_le high length) }
{
    0 <= low && high <= length
}
