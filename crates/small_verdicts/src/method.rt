//! The symbolic run of a method: its precondition, its body, its postcondition.

ghost use Rattle.std.specs.Prelude.{◌≡◌, ◌+◌, ◌<◌, ◌≤◌, ◌^◌, unsigned_abs, IfOk, OnOk, true, if◌then◌else◌};
ghost use Rattle.pv_ast.specs.Measures.{literals_of_contract, literals_of_block};
ghost use Rattle.small_verdicts.specs.Sorted.{literals_of_clauses};
ghost use Rattle.pv_linear.specs.Values.{Values, term_value};
ghost use Rattle.small_verdicts.specs.Sorted.{is_sorted_clauses, is_sorted_method};
ghost use Rattle.small_meaning.specs.Running.{broken_clause, is_precondition, is_postcondition, variables_at_start};
ghost use Rattle.small_paths.specs.Asking.{Asks, Under};
ghost use Rattle.small_verdicts.specs.Symbolic.{scene_at, variables_of, size_of, weight, chosen_by};
ghost use Rattle.small_verdicts.specs.Ends.{IsEnd};

use crate::SmallCheck;
use crate::evaluation::check;
use crate::running::{Flow, run_all};
use crate::store::{Store, put};
use pv_ast::{Clause, ClauseKind, Method, Param};
use pv_base::{NoMemory, Span};
use pv_linear::{Symbol, Term};
use small_paths::Asker;
use std::alloc::Global;

/// How the run of a method ends along one path.
#[derive(Clone, Copy, Debug, Drop)]
pub enum MethodEnd {
    /// The precondition is not met.
    Blocked,
    Passed,
    Failed(SmallCheck, Span),
}

/// The two conditions of a contract.
#[derive(Clone, Copy, Debug, Drop)]
pub enum Condition {
    Before,
    After,
}

/// The symbol of the parameter at a place: the first one has symbol 1.
#[tactic(auto, unfolding(pv_linear::specs::Values::number_of))]
fn parameter(place: u32) -> Term
    requires { place + 1 < 2 ^ 32 }
    ensures value { (v : Values) → term_value v result ≡ v place }
    ensures size { unsigned_abs result.plus ≡ 0 }
{
    Term {
        symbol: Symbol(place + 1),
        plus: 0,
    }
}

/// Each parameter has a symbol of its own.
fn start(alloc: Global, params: &[Param]) -> Result<Store, NoMemory>
    ensures value { IfOk result (λ store. (v : Values) → variables_of v store.terms.entries ≡ variables_at_start params.now v) }
    ensures size { IfOk result (λ store. size_of store.terms.entries ≡ 0) }
{
    let mut store = Store::new(alloc);
    let mut place: u32 = 0;
    for param in params {
        if place == u32::MAX {
            return Err(NoMemory);
        }
        put(&mut store, param.name.name, parameter(place))?;
        place += 1;
    }
    Ok(store)
}

/// Whether a clause belongs to a condition.
fn is_chosen(condition: Condition, kind: ClauseKind) -> bool
    ensures { result ≡ chosen_by condition kind }
{
    match condition {
        Condition::Before => !matches!(kind, ClauseKind::Ensures),
        Condition::After => !matches!(kind, ClauseKind::Requires),
    }
}

/// The span of the first conjunct of a condition that is not true, if there is one.
fn check_clauses<K: Asker>(
    condition: Condition,
    clauses: &[Clause],
    store: &Store,
    returned: Term,
    asker: &mut K,
) -> Result<Option<Span>, NoMemory>
    requires sorted { is_sorted_clauses clauses.now ≡ true }
    requires size { size_of store.now.terms.entries + unsigned_abs returned.plus + weight (literals_of_clauses clauses.now) ≤ 2 ^ 97 }
    ensures asks { OnOk result (Asks K.follows K.stands asker.old asker.new) }
    ensures says { IfOk result (λ broken. Under K.follows asker.new (λ v. broken_clause (chosen_by condition) clauses.now (scene_at v store.now.terms.entries returned) ≡ broken)) }
{
    for clause in clauses {
        if is_chosen(condition, clause.kind) {
            let broken = check(&clause.formula, store, returned, asker)?;
            if broken.is_some() {
                return Ok(broken);
            }
        }
    }
    Ok(None)
}

/// Runs a method along the asker's path, each parameter being a symbol.
pub fn run_method<K: Asker>(alloc: Global, m: &Method, asker: &mut K) -> Result<MethodEnd, NoMemory>
    requires sorted { is_sorted_method m.now ≡ true }
    requires size { literals_of_contract m.now.contract + literals_of_block m.now.body ≤ 2 ^ 20 }
    ensures asks { OnOk result (Asks K.follows K.stands asker.old asker.new) }
    ensures says { IfOk result (λ end. Under K.follows asker.new (λ v. IsEnd m.now v end)) }
{
    let clauses = m.contract.clauses.as_slice();
    let at_start = start(alloc, m.params.as_slice())?;
    let zero = Term::constant(0);
    if check_clauses(Condition::Before, clauses, &at_start, zero, asker)?.is_some() {
        return Ok(MethodEnd::Blocked);
    }
    let mut store = start(alloc, m.params.as_slice())?;
    let returned = match run_all(m.body.as_slice(), &mut store, asker)? {
        Flow::Failed(check, span) => return Ok(MethodEnd::Failed(check, span)),
        Flow::Returned(t) => t,
        Flow::Going => zero,
    };
    match check_clauses(Condition::After, clauses, &at_start, returned, asker)? {
        Some(span) => Ok(MethodEnd::Failed(SmallCheck::Ensures, span)),
        None => Ok(MethodEnd::Passed),
    }
}
