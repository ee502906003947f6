//! Whether literals can be met.
//!
//! `satisfy` looks at equations and at differences apart, as no symbol but 0 stands in both. It gives each symbol of an equation a
//! slot and grows trees along the equations; each tree is a class, and a class has a number of its own. That takes time in the
//! number of literals, times its logarithm for the slots. For the differences it lowers the numbers of slots round by round, from
//! zero on. A round goes over the differences once, and takes time in their number; the first one goes from the first to the last,
//! the next one from the last to the first, and so on in turn. A chain of lowered symbols that stands in either order takes at most
//! two rounds, and no chain takes more than it has members; then one round finds all differences met. Besides the answer it
//! allocates a few lists in the number of literals.
#![tactic(auto)]

ghost use Rattle.std.specs.Prelude.{◌^◌, ◌*◌, ◌+◌, ◌<◌, ◌≤◌, length, Contains, IfOk};
ghost use Rattle.std.specs.List.Sorted.{IsStrictlyIncreasing};
ghost use Rattle.pv_linear.specs.Literal.{bound_of_all};
ghost use Rattle.pv_linear.specs.Sorting.{AreSortsApart};
ghost use Rattle.pv_diff.specs.Limits.{too_many};
ghost use Rattle.pv_diff.specs.Classes.{AreClasses};
ghost use Rattle.pv_diff.specs.Slots.{AreOnlyReferences, AreReferencesNamed};
ghost use Rattle.pv_diff.specs.Answer.{IsAnswer, IsNear, IsSigned, DeniesAll};

mod chains;
mod classes;
mod differences;
mod forest;
mod numbers;
mod slots;
mod table;
#[cfg(test)]
mod tests;

use classes::{Classed, classes_of};
use differences::{Lowest, chosen, differences_of, settle_differences};
use numbers::with_classes;
use pv_base::NoMemory;
use pv_linear::{Assignment, Literal};
use slots::references_of;
use sqlite_items::Items;
use std::alloc::Global;

/// Places in a list.
pub type Places = Items<u32>;

/// Why literals contradict each other: differences that lead from a symbol back to it with bounds that add up to less than
/// zero, or equations that join two symbols, and last a literal by which these differ.
#[derive(Debug, Drop)]
pub enum Conflict {
    Cycle(Places),
    Clash(Places),
}

/// Numbers that meet the literals, or why none do.
#[derive(Debug, Drop)]
pub enum Solved {
    Yes(Assignment),
    No(Conflict),
}

/// Numbers that meet all literals, where the equations are met by these classes; or a negative cycle among the differences.
fn numbered(
    alloc: Global,
    literals: &[Literal],
    references: &[u32],
    classes: &[usize],
) -> Result<Solved, NoMemory>
    requires few { length literals.now < too_many }
    requires bounds { bound_of_all literals.now ≤ 2 ^ 100 }
    requires sorts { AreSortsApart literals.now }
    requires rises { IsStrictlyIncreasing references.now }
    requires zero { Contains references.now 0 }
    requires named { AreReferencesNamed references.now literals.now }
    requires only { AreOnlyReferences references.now literals.now }
    requires slots { length references.now ≤ 2 * length literals.now + 1 }
    requires classes { AreClasses references.now literals.now classes.now }
    ensures answer { IfOk result (λ solved. IsAnswer literals.now solved) }
    ensures near { IfOk result (λ solved. IsNear literals.now solved) }
    ensures signed { IfOk result (λ solved. IsSigned literals.now solved) }
{
    let part = differences_of(alloc, literals)?;
    match settle_differences(alloc, &part.differences)? {
        Lowest::Numbers(numbers) => {
            let all = with_classes(alloc, numbers, references, classes)?;
            Ok(Solved::Yes(all))
        }
        Lowest::Cycle(places) => {
            let places = chosen(alloc, &part.places, &places)?;
            Ok(Solved::No(Conflict::Cycle(places)))
        }
    }
}

/// Numbers that meet all literals, none far from zero and none below it but those of symbols in differences; or a
/// contradiction among the literals. It fails for want of memory alone.
pub fn satisfy(alloc: Global, literals: &[Literal]) -> Result<Solved, NoMemory>
    requires few { length literals.now < too_many }
    requires bounds { bound_of_all literals.now ≤ 2 ^ 100 }
    requires sorts { AreSortsApart literals.now }
    ensures answer { IfOk result (λ solved. IsAnswer literals.now solved) }
    ensures near { IfOk result (λ solved. IsNear literals.now solved) }
    ensures signed { IfOk result (λ solved. IsSigned literals.now solved) }
    ensures denies { IfOk result (λ solved. DeniesAll literals.now solved) }
{
    let references = references_of(alloc, literals)?;
    match classes_of(alloc, literals, &references)? {
        Classed::Classes(classes) => {
            let solved = numbered(alloc, literals, &references, &classes)?;
            Ok(solved)
        }
        Classed::Clash(places) => Ok(Solved::No(Conflict::Clash(places))),
    }
}
