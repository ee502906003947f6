//! Amounts of what is held: looked up, and changed.
ghost use Rattle.std.specs.Prelude.{◌≡◌, OnOk, None};
ghost use Rattle.pv_picks.specs.Judge.States as states;
ghost use Rattle.pv_cells.specs.Keys.{resource_of};
ghost use Rattle.pv_cells.specs.Stores.{cell_of, held_of};

use crate::key::Resource;
use crate::store::{Cell, Held, Holding};
use pv_base::NoMemory;
use pv_values::Value;

/// How much is held of a resource, and what is in it; 0 and null where nothing is held. One look-up.
pub(crate) fn holding_at(held: &Held, resource: Resource) -> Holding
    ensures amount { result.amount ≡ states.amount_held (held_of held.now (resource_of resource)) }
    ensures cell { cell_of result.cell ≡ states.cell_held (held_of held.now (resource_of resource)) }
{
    match held.get(&resource) {
        Some(h) => *h,
        None => Holding {
            amount: 0,
            cell: Cell::Written(Value::Reference(0)),
        },
    }
}

/// Another amount of a resource, with what is in it: nothing is held any more where it is 0. One look-up.
#[tactic(auto, using(crate::proofs::Amounts::put_there, crate::proofs::Amounts::taken_out))]
pub(crate) fn put(held: &mut Held, resource: Resource, holding: Holding) -> Result<(), NoMemory>
    ensures { OnOk result ((r : states.Resource) → held_of held.new r ≡ states.at_resource (resource_of resource) (states.holding holding.amount (cell_of holding.cell)) (held_of held.old) r) }
{
    if holding.amount == 0 {
        held.remove(&resource);
    } else {
        held.insert(resource, holding)?;
    }
    Ok(())
}
