ghost use Rattle.std.specs.Prelude.{◌≡◌, ◌++◌, IfOk, OnOk};
ghost use Rattle.pv_picks.specs.Verdicts.Units.{
  units_of,
  units_of_class,
  units_of_invariant,
  units_of_member,
  units_of_members,
};

use crate::{Part, PvUnit, Units};
use pv_ast::{Class, Expr, Member, Program};
use pv_base::NoMemory;
use sqlite_items::Items;
use std::alloc::Global;

/// The units of a program in the order of the text: for each class its lock invariant, if it has one, then each predicate, method
/// and `run`. The time is that of one pass over the members.
///
/// Want of memory also comes where a class or a member has a place from 2^32 on, which no text of 2^20 bytes spells.
pub fn units(alloc: Global, program: &Program) -> Result<Units, NoMemory>
    ensures { IfOk result (λ units. units ≡ units_of program.now) }
{
    let mut units = Items::new(alloc);
    for (place, class) in program.classes.as_slice().iter().enumerate() {
        add_class(&mut units, to_u32(place)?, class)?;
    }
    Ok(units)
}

/// A place as it stands in a unit.
fn to_u32(place: usize) -> Result<u32, NoMemory>
    ensures { IfOk result (λ same. same ≡ place) }
{
    u32::try_from(place).map_err(|_| NoMemory)
}

/// Adds the units of the class at a place.
fn add_class(units: &mut Units, place: u32, class: &Class) -> Result<(), NoMemory>
    ensures { OnOk result (units.new ≡ units.old ++ units_of_class place class.now) }
{
    add_invariant(units, place, &class.lock_invariant)?;
    add_members(units, place, class.members.as_slice())
}

fn add_invariant(units: &mut Units, class: u32, invariant: &Option<Expr>) -> Result<(), NoMemory>
    ensures { OnOk result (units.new ≡ units.old ++ units_of_invariant class invariant.now) }
{
    if invariant.is_some() {
        units.push(PvUnit {
            class,
            part: Part::LockInvariant,
        })?;
    }
    Ok(())
}

fn add_members(units: &mut Units, class: u32, members: &[Member]) -> Result<(), NoMemory>
    ensures { OnOk result (units.new ≡ units.old ++ units_of_members class 0 members.now) }
{
    for (place, member) in members.iter().enumerate() {
        add_member(units, class, place, member)?;
    }
    Ok(())
}

fn add_member(units: &mut Units, class: u32, place: usize, member: &Member) -> Result<(), NoMemory>
    ensures { OnOk result (units.new ≡ units.old ++ units_of_member class place member.now) }
{
    match member {
        Member::Field(_) => Ok(()),
        Member::Predicate(_) | Member::Method(_) | Member::Run(_) => {
            let part = Part::Member(to_u32(place)?);
            units.push(PvUnit { class, part })?;
            Ok(())
        }
    }
}
