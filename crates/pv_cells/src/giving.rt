//! How a run gives up permissions: one location at a time.
ghost use Rattle.std.specs.Prelude.{◌≡◌, ◌-◌, nat_le, IfOk, OnOk, IfErr, true, false};
ghost use Rattle.pv_picks.specs.Judge.States as states;
ghost use Rattle.pv_cells.specs.Keys.{resource_of};
ghost use Rattle.pv_cells.specs.Moves.{Gives, GivesRange};

use crate::holdings::{holding_at, put};
use crate::key::Resource;
use crate::ranging::{has_each, take_each};
use crate::store::{Held, Holding};
use pv_ast::PvType;
use pv_base::NoMemory;

/// Less of one location, and whether so much was there. Where it wasn't, nothing is given.
#[tactic(auto, using(crate::proofs::Given::short, crate::proofs::Given::given_up))]
pub(crate) fn give(resource: Resource, amount: u64, held: &mut Held) -> Result<bool, NoMemory>
    ensures { IfOk result (λ enough. Gives (resource_of resource) amount held.old enough held.new) }
{
    let there = holding_at(held, resource);
    if there.amount < amount {
        return Ok(false);
    }
    let rest = Holding {
        amount: there.amount - amount,
        cell: there.cell,
    };
    put(held, resource, rest)?;
    Ok(true)
}

/// Less of each element from the first index to below the second, and whether so much was there of each. Where it wasn't, nothing
/// is given. Two look-ups for each position.
pub(crate) fn give_range(
    kind: PvType,
    array: u128,
    low: i128,
    high: i128,
    amount: u64,
    held: &mut Held,
) -> Result<bool, NoMemory>
    ensures { IfOk result (λ enough. GivesRange kind array low high amount held.old enough held.new) }
{
    if !has_each(kind, array, low, high, amount, held) {
        return Ok(false);
    }
    take_each(kind, array, low, high, amount, held)?;
    Ok(true)
}
