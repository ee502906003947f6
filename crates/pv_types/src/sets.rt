ghost use Rattle.std.specs.Prelude.{◌≡◌, ◌||◌, not, false, nat_eq, IfOk, OnOk};
ghost use Rattle.indexmap.specs.IndexSet.{contains};
ghost use Rattle.pv_base.specs.declared.Name.{Name as NameOf};
ghost use Rattle.pv_base.specs.Names.{same_name};

use indexmap::IndexSet;
use pv_base::{Name, NoMemory};
use std::alloc::Global;

/// A set of names. A test takes the same time however many there are.
#[derive(Drop)]
pub struct NameSet {
    numbers: IndexSet<u32>,
}

ghost use Rattle.pv_types.specs.Sets.{has_name};

impl NameSet {
    /// The empty set.
    pub fn new(alloc: Global) -> NameSet
        ensures { (n : NameOf) → has_name result n ≡ false }
    {
        NameSet {
            numbers: IndexSet::new(alloc),
        }
    }

    /// Whether the set has a name.
    pub fn has(&self, name: Name) -> bool
        ensures { result ≡ has_name self.now name }
    {
        self.numbers.contains(&name.0)
    }

    /// Puts a name in. Whether it was new.
    pub fn insert(&mut self, name: Name) -> Result<bool, NoMemory>
        ensures fresh { IfOk result (λ fresh. fresh ≡ not (has_name self.old name)) }
        ensures put { OnOk result ((n : NameOf) → has_name self.new n ≡ (same_name n name || has_name self.old n)) }
    {
        let (_, fresh) = self.numbers.insert_full(name.0)?;
        Ok(fresh)
    }
}
