//! Lists of terms, and what speaks of value maps.

ghost use Rattle.std.specs.Prelude.{◌≡◌, [], ◌∷◌, ◌++◌, length, slice_get, OnOk, OnErr};
ghost use Rattle.std.specs.Option.{option_copied};

use crate::Term;
use pv_base::NoMemory;
use smallvec::SmallVec;
use sqlite_items::Items;
use std::alloc::Global;
use std::marker::Model;

/// The arguments of an instance: up to four of them take no allocation. Contracts see the list.
#[derive(Debug, Drop)]
pub struct Terms {
    items: SmallVec<Term, 4>,
}

impl Model for Terms {
    ghost use Rattle.std.specs.Prelude.{List};
    ghost use Rattle.pv_linear.specs.declared.Term.{Term};

    ghost Value = { List Term };

    ghost view = { λ terms. terms.items.items };
}

impl Terms {
    /// No terms. It takes no memory.
    pub fn new(alloc: Global) -> Terms
        ensures { result ≡ [] }
    {
        Terms {
            items: SmallVec::new(alloc),
        }
    }

    /// Puts the term last. After a refusal the list is as before.
    pub fn push(&mut self, item: Term) -> Result<(), NoMemory>
        ensures ok { OnOk result (self.new ≡ self.old ++ item ∷ []) }
        ensures err { OnErr result (self.new ≡ self.old) }
    {
        self.items.push(item)?;
        Ok(())
    }

    /// How many terms there are. It takes no memory.
    pub fn len(&self) -> usize
        ensures { result ≡ length self.now }
    {
        self.items.len()
    }

    /// The term at a place: none exactly where the place isn't below the length. It takes no memory.
    pub fn get(&self, at: usize) -> Option<&Term>
        ensures { option_copied result ≡ slice_get self.now at }
    {
        self.items.as_slice().get(at)
    }
}

/// The number of a value map.
#[derive(Clone, Copy, PartialEq, Eq, Debug, Drop)]
pub struct MapId(pub u64);

/// A position, and the value there.
#[derive(Clone, Copy, PartialEq, Eq, Debug, Drop)]
pub struct TermPair {
    pub at: Term,
    pub value: Term,
}

/// Positions with their values, in order.
pub type TermPairs = Items<TermPair>;
