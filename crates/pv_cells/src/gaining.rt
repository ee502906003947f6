//! How a run gains permissions: one location at a time.
ghost use Rattle.std.specs.Prelude.{◌≡◌, ◌+◌, ◌≤◌, pos, nat_le, IfOk, OnOk, IfErr, true, false};
ghost use Rattle.pv_fraction.specs.Amounts.{whole};
ghost use Rattle.pv_picks.specs.Judge.States as states;
ghost use Rattle.pv_picks.specs.Formulas.Values.{within};
ghost use Rattle.pv_picks.specs.Judge.Permissions as permissions;
ghost use Rattle.pv_cells.specs.declared.prepared.Prepared.{Prepared as Given};
ghost use Rattle.pv_cells.specs.declared.store.Learned.{Learned as WhatWasLearned};
ghost use Rattle.pv_cells.specs.Keys.{resource_of};
ghost use Rattle.pv_cells.specs.Moves.{Moves, Stops, setting_of};

use crate::halt::Halt;
use crate::holdings::{holding_at, put};
use crate::key::Resource;
use crate::lengths::length_of;
use crate::picking::pick_value;
use crate::prepared::Prepared;
use crate::store::{Cell, Held, Holding, Learned};
use pv_ast::PvType;
use pv_base::Name;
use pv_fraction::UNIT;

/// More of one location. One that wasn't held takes its value from a pick. Blocked where it would be more than the whole.
#[tactic(auto, using(crate::proofs::Stopping::out_of_memory))]
pub(crate) fn gain(
    kind: PvType,
    resource: Resource,
    amount: u64,
    held: &mut Held,
    given: &Prepared,
    learned: &mut Learned,
) -> Result<(), Halt>
    ensures goes { OnOk result (Moves given.now (λ next. permissions.gain (setting_of given.now) kind (resource_of resource) amount next) held.old learned.old held.new learned.new) }
    ensures stops { IfErr result (λ halt. Stops given.now (λ next. permissions.gain (setting_of given.now) kind (resource_of resource) amount next) held.old learned.old halt) }
{
    let there = holding_at(held, resource);
    if !fits_with(there.amount, amount) {
        return Err(Halt::Blocked);
    }
    if there.amount == 0 {
        let cell = Cell::Written(pick_value(given, learned, kind)?);
        put(held, resource, Holding { amount, cell })?;
    } else {
        let amount = there.amount + amount;
        let cell = there.cell;
        put(held, resource, Holding { amount, cell })?;
    }
    Ok(())
}

/// Whether two amounts together are at most the whole.
pub(crate) fn fits_with(a: u64, b: u64) -> bool
    ensures value { result ≡ nat_le (a + b) whole }
    ensures least { result ≡ true → a + b ≤ whole }
{
    a <= UNIT && b <= UNIT - a
}

/// More of a field. Blocked on null, and where it would be more than the whole.
#[tactic(auto, using(crate::proofs::Gains::at_null, crate::proofs::Gains::at_object, crate::proofs::Gains::at_object_stops))]
pub(crate) fn gain_field(
    class: Name,
    object: u128,
    name: Name,
    kind: PvType,
    amount: u64,
    held: &mut Held,
    given: &Prepared,
    learned: &mut Learned,
) -> Result<(), Halt>
    ensures goes { OnOk result (Moves given.now (λ next. permissions.gain_field (setting_of given.now) class object name kind amount next) held.old learned.old held.new learned.new) }
    ensures stops { IfErr result (λ halt. Stops given.now (λ next. permissions.gain_field (setting_of given.now) class object name kind amount next) held.old learned.old halt) }
{
    if object == 0 {
        return Err(Halt::Blocked);
    }
    let place = Resource::Field(class, object, name);
    gain(kind, place, amount, held, given, learned)
}

/// More of an element. Blocked on null, outside the array, and where it would be more than the whole; its length may be picked.
pub(crate) fn gain_element(
    kind: PvType,
    array: u128,
    index: i128,
    amount: u64,
    held: &mut Held,
    given: &Prepared,
    learned: &mut Learned,
) -> Result<(), Halt>
    ensures goes { OnOk result (Moves given.now (λ next. permissions.gain_element (setting_of given.now) kind array index amount next) held.old learned.old held.new learned.new) }
    ensures stops { IfErr result (λ halt. Stops given.now (λ next. permissions.gain_element (setting_of given.now) kind array index amount next) held.old learned.old halt) }
{
    if array == 0 {
        return Err(Halt::Blocked);
    }
    let length = length_of(given, learned, kind, array)?;
    if !is_within(length, index) {
        return Err(Halt::Blocked);
    }
    let place = Resource::Element(kind, array, index);
    gain(kind, place, amount, held, given, learned)?;
    Ok(())
}

/// Whether an index lies in an array of this length.
pub(crate) fn is_within(length: i128, index: i128) -> bool
    ensures { result ≡ within (pos 0) length index }
{
    0 <= index && index < length
}

/// A token or a lock, which is held whole. Blocked where it is there already.
#[tactic(auto, using(crate::proofs::Stopping::out_of_memory))]
pub(crate) fn add_whole(resource: Resource, held: &mut Held) -> Result<(), Halt>
    ensures goes { OnOk result ((given : Given) (l : WhatWasLearned) → Moves given (λ next. permissions.add_whole (setting_of given) (resource_of resource) next) held.old l held.new l) }
    ensures stops { IfErr result (λ halt. (given : Given) (l : WhatWasLearned) → Stops given (λ next. permissions.add_whole (setting_of given) (resource_of resource) next) held.old l halt) }
{
    let there = holding_at(held, resource);
    if there.amount != 0 {
        return Err(Halt::Blocked);
    }
    let whole = Holding {
        amount: UNIT,
        cell: there.cell,
    };
    put(held, resource, whole)?;
    Ok(())
}
