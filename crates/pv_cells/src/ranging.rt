//! The elements of a range, position by position: each costs one look-up.
ghost use Rattle.std.specs.Prelude.{◌≡◌, ◌+◌, ◌-◌, ◌≤◌, nat_le, true, if◌then◌else◌, OnOk};
ghost use Rattle.pv_fraction.specs.Amounts.{whole};
ghost use Rattle.pv_picks.specs.Formulas.Values.{width};
ghost use Rattle.pv_picks.specs.Judge.States as states;
ghost use Rattle.pv_picks.specs.Judge.Permissions.{at_all};
ghost use Rattle.pv_cells.specs.Keys.{resource_of};
ghost use Rattle.pv_cells.specs.Stores.{cell_of, held_of};

use crate::gaining::fits_with;
use crate::holdings::{holding_at, put};
use crate::key::Resource;
use crate::store::{Cell, Held, Holding};
use pv_ast::PvType;
use pv_base::NoMemory;

/// Whether each element from the first index to below the second is held in so great an amount.
#[tactic(auto, using(crate::proofs::Widths::none_left))]
pub(crate) fn has_each(
    kind: PvType,
    array: u128,
    low: i128,
    high: i128,
    amount: u64,
    held: &Held,
) -> bool
    ensures { result ≡ at_all (λ i. nat_le amount (states.amount_held (held_of held.now (states.InElement kind array i)))) low (width low high) }
{
    for index in low..high {
        if !has(kind, array, index, amount, held) {
            return false;
        }
    }
    true
}

/// Whether each element from the first index to below the second has room for so much more.
#[tactic(auto, using(crate::proofs::Widths::none_left))]
pub(crate) fn has_room(
    kind: PvType,
    array: u128,
    low: i128,
    high: i128,
    amount: u64,
    held: &Held,
) -> bool
    ensures { result ≡ at_all (λ i. nat_le (states.amount_held (held_of held.now (states.InElement kind array i)) + amount) whole) low (width low high) }
{
    for index in low..high {
        if !has_room_at(kind, array, index, amount, held) {
            return false;
        }
    }
    true
}

/// Whether an element is held in so great an amount.
fn has(kind: PvType, array: u128, index: i128, amount: u64, held: &Held) -> bool
    ensures { result ≡ nat_le amount (states.amount_held (held_of held.now (states.InElement kind array index))) }
{
    amount <= holding_at(held, Resource::Element(kind, array, index)).amount
}

/// Whether an element has room for so much more.
fn has_room_at(kind: PvType, array: u128, index: i128, amount: u64, held: &Held) -> bool
    ensures { result ≡ nat_le (states.amount_held (held_of held.now (states.InElement kind array index)) + amount) whole }
{
    fits_with(
        holding_at(held, Resource::Element(kind, array, index)).amount,
        amount,
    )
}

/// So much less of each element from the first index to below the second; of one that has less nothing is left.
pub(crate) fn take_each(
    kind: PvType,
    array: u128,
    low: i128,
    high: i128,
    amount: u64,
    held: &mut Held,
) -> Result<(), NoMemory>
    ensures { OnOk result ((r : states.Resource) → held_of held.new r ≡ (if states.is_among kind array low high r then states.holding (states.amount_held (held_of held.old r) - amount) (states.cell_held (held_of held.old r)) else held_of held.old r)) }
{
    for index in low..high {
        take(Resource::Element(kind, array, index), amount, held)?;
    }
    Ok(())
}

/// So much less of one resource.
fn take(resource: Resource, amount: u64, held: &mut Held) -> Result<(), NoMemory>
    ensures { OnOk result ((r : states.Resource) → held_of held.new r ≡ states.at_resource (resource_of resource) (states.holding (states.amount_held (held_of held.old (resource_of resource)) - amount) (states.cell_held (held_of held.old (resource_of resource)))) (held_of held.old) r) }
{
    let there = holding_at(held, resource);
    let rest = Holding {
        amount: there.amount.saturating_sub(amount),
        cell: there.cell,
    };
    put(held, resource, rest)
}

/// So much more of each element from the first index to below the second. One that wasn't held takes its value from the pick for
/// ranges of this number.
pub(crate) fn add_each(
    kind: PvType,
    array: u128,
    low: i128,
    high: i128,
    amount: u64,
    number: usize,
    held: &mut Held,
) -> Result<(), NoMemory>
    requires { at_all (λ i. nat_le (states.amount_held (held_of held.old (states.InElement kind array i)) + amount) whole) low (width low high) ≡ true }
    ensures { OnOk result ((r : states.Resource) → held_of held.new r ≡ (if states.is_among kind array low high r then states.holding (states.amount_held (held_of held.old r) + amount) (states.cell_among (held_of held.old r) (states.FromSteps kind number) r low) else held_of held.old r)) }
{
    for index in low..high {
        add(kind, array, index, amount, number, held)?;
    }
    Ok(())
}

/// So much more of one element.
fn add(
    kind: PvType,
    array: u128,
    index: i128,
    amount: u64,
    number: usize,
    held: &mut Held,
) -> Result<(), NoMemory>
    requires { states.amount_held (held_of held.old (states.InElement kind array index)) + amount ≤ whole }
    ensures { OnOk result ((r : states.Resource) → held_of held.new r ≡ states.at_resource (states.InElement kind array index) (states.holding (states.amount_held (held_of held.old (states.InElement kind array index)) + amount) (states.cell_among (held_of held.old (states.InElement kind array index)) (states.FromSteps kind number) (states.InElement kind array index) index)) (held_of held.old) r) }
{
    let place = Resource::Element(kind, array, index);
    let there = element_at(kind, array, index, number, held);
    let more = Holding {
        amount: there.amount + amount,
        cell: there.cell,
    };
    put(held, place, more)
}

/// What is held of an element, or nothing of what the pick for ranges gives it.
fn element_at(kind: PvType, array: u128, index: i128, number: usize, held: &Held) -> Holding
    ensures amount { result.amount ≡ states.amount_held (held_of held.now (states.InElement kind array index)) }
    ensures cell { cell_of result.cell ≡ states.cell_among (held_of held.now (states.InElement kind array index)) (states.FromSteps kind number) (states.InElement kind array index) index }
{
    match held.get(&Resource::Element(kind, array, index)) {
        Some(h) => *h,
        None => Holding {
            amount: 0,
            cell: Cell::FromSteps(kind, number, index),
        },
    }
}
