//! The equations of a list of literals, chained by the symbols that they name.

ghost use Rattle.std.specs.Prelude.{◌≡◌, ℕ, ◌+◌, ◌^◌, ◌<◌, length, ◌↔◌, IfOk, OnOk};
ghost use Rattle.std.specs.List.Sorted.{IsStrictlyIncreasing};
ghost use Rattle.pv_diff.specs.Limits.{too_many};
ghost use Rattle.pv_diff.specs.Chains.{AreChains, HasEnd, HasAlso, AreTied};
ghost use Rattle.pv_diff.specs.Slots.{AreReferencesNamed};

use crate::slots::slot_of;
use pv_base::NoMemory;
use pv_linear::Literal;
use std::alloc::Global;

/// One side of an equation, as it stands in the chain of a slot: the slot of the other side, the place of the equation, and the
/// end that comes next in the chain.
#[derive(Clone, Copy, Debug, Drop)]
pub struct End {
    pub to: usize,
    pub place: u32,
    pub next: Option<usize>,
}

/// The ends of all equations, and for each slot the end at which its chain starts.
#[derive(Drop)]
pub struct Chains {
    pub ends: Vec<End>,
    pub first: Vec<Option<usize>>,
}

impl Chains {
    /// An empty chain for each slot.
    fn new(alloc: Global, count: usize) -> Result<Chains, NoMemory>
        ensures size { IfOk result (λ chains. length chains.first.items ≡ count) }
        ensures chains { IfOk result (λ chains. AreChains chains.ends.items chains.first.items) }
        ensures none { IfOk result (λ chains. (k z p : ℕ) → HasEnd chains.ends.items chains.first.items k z p → ⊥) }
    {
        let none: Option<usize> = None;
        Ok(Chains {
            ends: Vec::new(alloc),
            first: vec![in alloc; none; count]?,
        })
    }

    /// Puts an end at the start of the chain of the slot `at`.
    fn add(&mut self, at: usize, to: usize, place: u32) -> Result<(), NoMemory>
        requires slot { at < length self.old.first.items }
        requires chains { AreChains self.old.ends.items self.old.first.items }
        ensures size { OnOk result (length self.new.first.items ≡ length self.old.first.items) }
        ensures chains { OnOk result (AreChains self.new.ends.items self.new.first.items) }
        ensures added { OnOk result ((k z p : ℕ) → HasEnd self.new.ends.items self.new.first.items k z p ↔ HasAlso self.old.ends.items self.old.first.items at to place k z p) }
    {
        let next = self.first[at];
        let index = self.ends.len();
        self.ends.push(End { to, place, next })?;
        self.first[at] = Some(index);
        Ok(())
    }

    /// Adds both ends of the equation at a place, if one stands there.
    fn add_equation(
        &mut self,
        literals: &[Literal],
        symbols: &[u32],
        place: usize,
    ) -> Result<(), NoMemory>
        requires place { place < length literals.now }
        requires few { length literals.now < too_many }
        requires fits { length symbols.now < 2 ^ 32 }
        requires rises { IsStrictlyIncreasing symbols.now }
        requires named { AreReferencesNamed symbols.now literals.now }
        requires tied { AreTied symbols.now literals.now place self.old.ends.items self.old.first.items }
        ensures tied { OnOk result (AreTied symbols.now literals.now (place + 1) self.new.ends.items self.new.first.items) }
    {
        match literals[place] {
            Literal::Same(x, y) => {
                let left = slot_of(symbols, x.0) as usize;
                let right = slot_of(symbols, y.0) as usize;
                self.add(left, right, place as u32)?;
                self.add(right, left, place as u32)?;
                Ok(())
            }
            Literal::AtMost(_, _, _) | Literal::Differ(_, _) => Ok(()),
        }
    }
}

/// The chains of the equations among the literals, by the slots of their symbols.
pub fn chains_of(alloc: Global, literals: &[Literal], symbols: &[u32]) -> Result<Chains, NoMemory>
    requires few { length literals.now < too_many }
    requires fits { length symbols.now < 2 ^ 32 }
    requires rises { IsStrictlyIncreasing symbols.now }
    requires named { AreReferencesNamed symbols.now literals.now }
    ensures tied { IfOk result (λ chains. AreTied symbols.now literals.now (length literals.now) chains.ends.items chains.first.items) }
{
    let mut chains = Chains::new(alloc, symbols.len())?;
    for place in 0..literals.len() {
        chains.add_equation(literals, symbols, place)?;
    }
    Ok(chains)
}
