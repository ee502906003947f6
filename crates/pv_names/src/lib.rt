//! Names by number: a list of distinct byte strings in the order in which they were first seen.
//!
//! `intern` and `find` look the text up by its hash, and `text` by its place, so each takes the time of the text's length.
#![tactic(auto)]

ghost use Rattle.std.specs.Prelude.{◌≡◌, ◌<◌, ◌↔◌, [], length, slice_get, nat_eq, Some, None, IsSome, IsNone, IfSome, IfOk, OnOk, OnErr, IsErrOf, IfNone, Contains};
ghost use Rattle.std.specs.Option.{option_map};
ghost use Rattle.std.specs.List.{IsDistinct};
ghost use Rattle.std.specs.Cmp.Lexicographic.{pointwise};
ghost use Rattle.pv_names.specs.Numbering.{most_names, place_of, number_of, with_text};

use indexmap::IndexSet;
use pv_base::Name;
use std::alloc::{AllocError, AllocFailed, Global};
use std::marker::Model;
use thiserror::Error;

/// How many names a list can have.
const MOST_NAMES: usize = 65_536;

/// Why a text got no number.
#[derive(Clone, Copy, Debug, PartialEq, Eq, Drop, Error)]
pub enum NamesFault {
    #[error("more than 65536 names")]
    Full,
    #[error("out of memory")]
    NoMemory,
}

impl From<AllocError> for NamesFault {
    ghost use Rattle.std.specs.Prelude.{◌≡◌};
    ghost use Rattle.pv_names.specs.declared.NamesFault.TheVariants.{NoMemory};

    ghost from_gives = { λ _ e. e ≡ NoMemory };

    fn from(_: AllocError) -> NamesFault {
        NamesFault::NoMemory
    }
}

impl<T: Drop> From<AllocFailed<T>> for NamesFault {
    ghost use Rattle.std.specs.Prelude.{◌≡◌};
    ghost use Rattle.pv_names.specs.declared.NamesFault.TheVariants.{NoMemory};

    ghost from_gives = { λ _ e. e ≡ NoMemory };

    fn from(_: AllocFailed<T>) -> NamesFault {
        NamesFault::NoMemory
    }
}

/// A list of distinct byte strings, each numbered by its place. It has at most 65,536.
#[derive(Drop)]
pub struct Names {
    texts: IndexSet<Vec<u8>>,
}

impl Model for Names {
    ghost use Rattle.std.specs.Prelude.{List, ℕ, map, length, ◌≤◌};

    ghost Value = { List (List ℕ) };

    ghost view = { λ s. map (λ t. t.items) s.texts.keys };

    ghost invariant = { λ s. length s.texts.keys ≤ 65536 };
}

impl Names {
    /// No names.
    pub fn new(alloc: Global) -> Names
        ensures { result ≡ [] }
    {
        Names {
            texts: IndexSet::new(alloc),
        }
    }

    /// How many names there are.
    pub fn len(&self) -> usize
        ensures len { result ≡ length self.now }
        ensures distinct { IsDistinct (pointwise nat_eq) self.now }
    {
        self.texts.len()
    }

    /// The number of a text, which goes last where it is new. It is `Full` exactly where the text is new and 65,536 names stand.
    /// An `Err` leaves the list as it was.
    pub fn intern(&mut self, text: &[u8]) -> Result<Name, NamesFault>
        ensures number { IfOk result (λ name. name.0 ≡ number_of self.old text.now) }
        ensures list { OnOk result (self.new ≡ with_text self.old text.now) }
        ensures full { IsErrOf result NamesFault.Full
            ↔ ((place_of self.old text.now ≡ None) × (length self.old ≡ most_names)) }
        ensures err { OnErr result (self.new ≡ self.old) }
    {
        if let Some(name) = self.find(text) {
            return Ok(name);
        }
        let count = self.texts.len();
        if count == MOST_NAMES {
            return Err(NamesFault::Full);
        }
        let alloc = *self.texts.allocator();
        let copy = Vec::from_slice(alloc, text)?;
        self.texts.insert(copy)?;
        Ok(Name(count as u32))
    }

    /// The number of a text that is in the list. It takes no memory.
    pub fn find(&self, text: &[u8]) -> Option<Name>
        ensures place { option_map (λ name. name.0) result ≡ place_of self.now text.now }
        ensures found { IfSome result (λ name. slice_get self.now name.0 ≡ Some text.now) }
        ensures absent { IfNone result (Contains self.now text.now → ⊥) }
    {
        match self.texts.get_index_of(text) {
            Some(at) => Some(Name(at as u32)),
            None => None,
        }
    }

    /// The text of a number. It takes no memory.
    pub fn text(&self, name: Name) -> &[u8]
        requires { name.0 < length self.now }
        ensures { slice_get self.now name.0 ≡ Some result.now }
    {
        &self.texts.as_slice()[name.0 as usize]
    }
}
