//! Classes of symbols that equations make equal, and the literals by which symbols of one class differ.

ghost use Rattle.std.specs.Prelude.{◌≡◌, ◌≢◌, ℕ, pos, ◌^◌, ◌<◌, ◌⊎◌, length, slice_get, slice_index_or, IfOk, IfNone, IfSome, Some};
ghost use Rattle.std.specs.List.Sorted.{IsStrictlyIncreasing};
ghost use Rattle.pv_diff.specs.Limits.{too_many};
ghost use Rattle.pv_diff.specs.Chains.{IsTie};
ghost use Rattle.pv_diff.specs.Forest.{HasRoot, IsSeen, seen_at, AreTrees};
ghost use Rattle.pv_diff.specs.Classes.{IsSplit, class_at, IsClassed, AreNodes};
ghost use Rattle.pv_diff.specs.Slots.{AreReferencesNamed};

use crate::Places;
use crate::chains::chains_of;
use crate::forest::{Forest, forest_of, path};
use crate::slots::slot_of;
use pv_base::NoMemory;
use pv_linear::{Assignment, Literal};
use sqlite_items::Items;
use std::alloc::Global;

/// A class for each slot, by its number, which is zero for slot 0; or the places of equations that join two symbols, and of a
/// literal by which these differ.
#[derive(Drop)]
pub enum Classed {
    Classes(Vec<usize>),
    Clash(Places),
}

/// A literal by which two symbols of one class differ: its place, and the slots of the symbols.
#[derive(Clone, Copy, Debug, Drop)]
struct Split {
    place: u32,
    left: usize,
    right: usize,
}

/// The node of a slot.
fn node_of(forest: &Forest, slot: usize) -> usize
    requires slot { slot < length forest.now.seen.items }
    requires seen { IsSeen forest.now.seen.items slot }
    ensures { seen_at forest.now.seen.items slot ≡ Some result }
{
    match forest.seen[slot] {
        Some(node) => node,
        None => unreachable!(),
    }
}

/// The class of each slot: the node at which its tree starts.
fn roots_of(alloc: Global, forest: &Forest) -> Result<Vec<usize>, NoMemory>
    requires nodes { AreNodes forest.now.nodes.items forest.now.seen.items }
    ensures size { IfOk result (λ classes. length classes.items ≡ length forest.now.seen.items) }
    ensures roots { IfOk result (λ classes. (k : ℕ) → k < length classes.items → HasRoot forest.now.nodes.items forest.now.seen.items k (class_at classes.items k)) }
{
    let mut classes = Vec::with_capacity(alloc, forest.seen.len())?;
    for slot in 0..forest.seen.len() {
        classes.push(forest.nodes[node_of(forest, slot)].root)?;
    }
    Ok(classes)
}

/// The split at a place, if one stands there.
fn split_at(literals: &[Literal], symbols: &[u32], classes: &[usize], place: usize) -> Option<Split>
    requires place { place < length literals.now }
    requires few { length literals.now < too_many }
    requires fits { length symbols.now < 2 ^ 32 }
    requires rises { IsStrictlyIncreasing symbols.now }
    requires named { AreReferencesNamed symbols.now literals.now }
    requires size { length classes.now ≡ length symbols.now }
    ensures none { IfNone result ((k z : ℕ) → IsSplit symbols.now literals.now place k z → class_at classes.now k ≢ class_at classes.now z) }
    ensures split { IfSome result (λ split. IsSplit symbols.now literals.now split.place split.left split.right) }
    ensures same { IfSome result (λ split. class_at classes.now split.left ≡ class_at classes.now split.right) }
{
    match literals[place] {
        Literal::Differ(x, y) => {
            let left = slot_of(symbols, x.0) as usize;
            let right = slot_of(symbols, y.0) as usize;
            if classes[left] != classes[right] {
                return None;
            }
            Some(Split {
                place: place as u32,
                left,
                right,
            })
        }
        Literal::AtMost(_, _, _) | Literal::Same(_, _) => None,
    }
}

/// The first split among the literals.
fn split_in(literals: &[Literal], symbols: &[u32], classes: &[usize]) -> Option<Split>
    requires few { length literals.now < too_many }
    requires fits { length symbols.now < 2 ^ 32 }
    requires rises { IsStrictlyIncreasing symbols.now }
    requires named { AreReferencesNamed symbols.now literals.now }
    requires size { length classes.now ≡ length symbols.now }
    ensures none { IfNone result ((p k z : ℕ) → IsSplit symbols.now literals.now p k z → class_at classes.now k ≢ class_at classes.now z) }
    ensures split { IfSome result (λ split. IsSplit symbols.now literals.now split.place split.left split.right) }
    ensures same { IfSome result (λ split. class_at classes.now split.left ≡ class_at classes.now split.right) }
{
    for place in 0..literals.len() {
        if let Some(split) = split_at(literals, symbols, classes, place) {
            return Some(split);
        }
    }
    None
}

/// The classes of the symbols, or a clash among the literals.
pub fn classes_of(alloc: Global, literals: &[Literal], symbols: &[u32]) -> Result<Classed, NoMemory>
    requires few { length literals.now < too_many }
    requires fits { length symbols.now < 2 ^ 32 }
    requires rises { IsStrictlyIncreasing symbols.now }
    requires named { AreReferencesNamed symbols.now literals.now }
    ensures { IfOk result (λ classed. IsClassed symbols.now literals.now classed) }
{
    let chains = chains_of(alloc, literals, symbols)?;
    let forest = forest_of(alloc, &chains)?;
    let classes = roots_of(alloc, &forest)?;
    match split_in(literals, symbols, &classes) {
        Some(split) => {
            let left = node_of(&forest, split.left);
            let right = node_of(&forest, split.right);
            let mut places = path(alloc, &forest.nodes, left, right)?;
            places.push(split.place)?;
            Ok(Classed::Clash(Items::from_vec(places)))
        }
        None => Ok(Classed::Classes(classes)),
    }
}
