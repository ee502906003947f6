//! The differences among literals, and whether they can be met by themselves.

ghost use Rattle.std.specs.Prelude.{◌≡◌, ◌+◌, ◌^◌, ◌<◌, ◌≤◌, length, slice_index_or, take, map, All, IfOk, OnOk};
ghost use Rattle.pv_linear.specs.Literal.{bound_of_all};
ghost use Rattle.pv_diff.specs.Limits.{too_many};
ghost use Rattle.pv_diff.specs.Parts.{AllAtMost, IsPart};
ghost use Rattle.pv_diff.specs.Lowest.{IsLowest};

use crate::Places;
use crate::slots::{assignment_of, edges_of, symbols_of};
use crate::table::{Settled, settle};
use pv_base::NoMemory;
use pv_linear::Literal;
use sqlite_items::Items;
use std::alloc::Global;

/// The differences of a list of literals, and the places where they stand in it.
#[derive(Drop)]
pub struct Part {
    pub differences: Vec<Literal>,
    pub places: Vec<u32>,
}

/// Numbers by symbol that meet the differences, or the places of a negative cycle.
#[derive(Drop)]
pub enum Lowest {
    Numbers(Vec<i128>),
    Cycle(Places),
}

impl Part {
    /// Adds the literal at a place, if it is a difference.
    fn add(&mut self, literals: &[Literal], place: usize) -> Result<(), NoMemory>
        requires place { place < length literals.now }
        requires few { length literals.now < too_many }
        requires part { IsPart literals.now (take place literals.now) self.old.differences.items self.old.places.items }
        ensures part { OnOk result (IsPart literals.now (take (place + 1) literals.now) self.new.differences.items self.new.places.items) }
    {
        let literal = literals[place];
        match literal {
            Literal::AtMost(_, _, _) => {
                self.differences.push(literal)?;
                self.places.push(place as u32)?;
                Ok(())
            }
            Literal::Same(_, _) | Literal::Differ(_, _) => Ok(()),
        }
    }
}

/// The differences among the literals, with their places.
pub fn differences_of(alloc: Global, literals: &[Literal]) -> Result<Part, NoMemory>
    requires few { length literals.now < too_many }
    ensures { IfOk result (λ part. IsPart literals.now literals.now part.differences.items part.places.items) }
{
    let mut part = Part {
        differences: Vec::new(alloc),
        places: Vec::new(alloc),
    };
    for place in 0..literals.len() {
        part.add(literals, place)?;
    }
    Ok(part)
}

/// Numbers that meet the differences, or a cycle of them that adds up to less than zero. It fails for want of memory alone.
pub fn settle_differences(alloc: Global, differences: &[Literal]) -> Result<Lowest, NoMemory>
    requires few { length differences.now < too_many }
    requires bounds { bound_of_all differences.now ≤ 2 ^ 100 }
    requires differences { AllAtMost differences.now }
    ensures { IfOk result (λ found. IsLowest differences.now found) }
{
    let symbols = symbols_of(alloc, differences)?;
    let edges = edges_of(alloc, differences, &symbols)?;
    match settle(alloc, &edges, symbols.len())? {
        Settled::Numbers(table) => Ok(Lowest::Numbers(assignment_of(alloc, &symbols, &table)?)),
        Settled::Round(places) => Ok(Lowest::Cycle(places)),
    }
}

/// What stands in a list at each of the places.
pub fn chosen(alloc: Global, list: &[u32], places: &Places) -> Result<Places, NoMemory>
    requires { All (λ k. k < length list.now) places.now }
    ensures { IfOk result (λ chosen. chosen ≡ map (λ k. slice_index_or list.now k 0) places.now) }
{
    let mut chosen = Vec::with_capacity(alloc, places.len())?;
    for place in places.as_slice() {
        chosen.push(list[*place as usize])?;
    }
    Ok(Items::from_vec(chosen))
}
