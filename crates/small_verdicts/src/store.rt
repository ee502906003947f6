//! The variables of a symbolic run.

ghost use Rattle.std.specs.Prelude.{◌≡◌, ◌≤◌, max, pos, unsigned_abs, OnOk};
ghost use Rattle.pv_linear.specs.Values.{Values, term_value};
ghost use Rattle.small_meaning.specs.Running.{with_variable};
ghost use Rattle.small_verdicts.specs.Symbolic.{variables_of, size_of};

use pv_base::{Name, NoMemory};
use pv_linear::Term;
use std::alloc::Global;
use std::collections::BTreeMap;

/// The term of each variable, by the number of its name.
#[derive(Drop)]
pub struct Store {
    pub terms: BTreeMap<u32, Term>,
}

impl Store {
    /// No variable has a term.
    pub fn new(alloc: Global) -> Self
        ensures zeros { (v : Values) → variables_of v result.terms.entries ≡ (λ name. pos 0) }
        ensures size { size_of result.terms.entries ≡ 0 }
    {
        Store {
            terms: BTreeMap::new(alloc),
        }
    }
}

/// The term of a variable: zero where it has none.
pub fn term_of(store: &Store, name: Name) -> Term
    ensures value { (v : Values) → term_value v result ≡ variables_of v store.now.terms.entries name.0 }
    ensures size { unsigned_abs result.plus ≤ size_of store.now.terms.entries }
{
    match store.terms.get(&name.0) {
        Some(term) => *term,
        None => Term::constant(0),
    }
}

/// Gives a variable a term.
pub fn put(store: &mut Store, name: Name, term: Term) -> Result<(), NoMemory>
    ensures value { OnOk result ((v : Values) → variables_of v store.new.terms.entries ≡ with_variable (variables_of v store.old.terms.entries) name.0 (term_value v term)) }
    ensures size { OnOk result (size_of store.new.terms.entries ≤ max (size_of store.old.terms.entries) (unsigned_abs term.plus)) }
{
    store.terms.insert(name.0, term)?;
    Ok(())
}
