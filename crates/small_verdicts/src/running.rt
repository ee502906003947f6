//! Symbolic runs of statements.

ghost use Rattle.std.specs.Prelude.{◌≡◌, ◌+◌, ◌≤◌, ◌^◌, max, unsigned_abs, IfOk, OnOk, true};
ghost use Rattle.pv_ast.specs.Measures.{literals_of, literals_of_stmt, literals_of_block, literals_of_right};
ghost use Rattle.pv_linear.specs.Values.{Values, term_value};
ghost use Rattle.small_meaning.specs.Sorts.{sort_of, is_number, is_truth};
ghost use Rattle.small_verdicts.specs.Sorted.{is_sorted_stmt, is_sorted_block, is_sorted_right_kind};
ghost use Rattle.small_meaning.specs.Values.{broken_of};
ghost use Rattle.small_meaning.specs.Running.{run_of_stmt, run_of_block, number_of_right_kind, number_of_expr, is_true, scene_of, assigned_to};
ghost use Rattle.small_paths.specs.Asking.{Asks, Under};
ghost use Rattle.small_verdicts.specs.Symbolic.{variables_of, size_of, outcome_of, flow_size, weight};

use crate::SmallCheck;
use crate::evaluation::{check, condition, term};
use crate::store::{Store, put};
use pv_ast::{Expr, ExprKind, Right, RightKind, Stmt, StmtKind};
use pv_base::{NoMemory, Span};
use pv_linear::Term;
use small_paths::Asker;

/// How a part of a body ends.
#[derive(Clone, Copy, Debug, Drop)]
pub enum Flow {
    Going,
    Returned(Term),
    Failed(SmallCheck, Span),
}

/// The term of a number of a body, where no result is.
fn body_term(e: &Expr, store: &Store) -> Term
    requires number { is_number (sort_of e.now) ≡ true }
    requires size { size_of store.now.terms.entries + weight (literals_of e.now) ≤ 2 ^ 97 }
    ensures value { (v : Values) → number_of_expr e.now (variables_of v store.now.terms.entries) ≡ term_value v result }
    ensures size { unsigned_abs result.plus ≤ size_of store.now.terms.entries + weight (literals_of e.now) }
{
    term(e, store, Term::constant(0))
}

/// Whether a condition of a body is true.
fn body_condition<K: Asker>(e: &Expr, store: &Store, asker: &mut K) -> Result<bool, NoMemory>
    requires truth { is_truth (sort_of e.now) ≡ true }
    requires size { size_of store.now.terms.entries + weight (literals_of e.now) ≤ 2 ^ 97 }
    ensures asks { OnOk result (Asks K.follows K.stands asker.old asker.new) }
    ensures says { IfOk result (λ told. Under K.follows asker.new (λ v. is_true e.now (variables_of v store.now.terms.entries) ≡ told)) }
{
    let told = condition(e, store, Term::constant(0), asker)?;
    Ok(told)
}

/// The span of the first conjunct of an assertion that is not true, if there is one.
fn body_check<K: Asker>(e: &Expr, store: &Store, asker: &mut K) -> Result<Option<Span>, NoMemory>
    requires truth { is_truth (sort_of e.now) ≡ true }
    requires size { size_of store.now.terms.entries + weight (literals_of e.now) ≤ 2 ^ 97 }
    ensures asks { OnOk result (Asks K.follows K.stands asker.old asker.new) }
    ensures says { IfOk result (λ broken. Under K.follows asker.new (λ v. broken_of e.now (scene_of (variables_of v store.now.terms.entries)) ≡ broken)) }
{
    let broken = check(e, store, Term::constant(0), asker)?;
    Ok(broken)
}

/// The term of a right side, which is an expression.
fn right_term(r: &Right, store: &Store) -> Term
    requires sorted { is_sorted_right_kind r.now.kind ≡ true }
    requires size { size_of store.now.terms.entries + weight (literals_of_right r.now) ≤ 2 ^ 97 }
    ensures value { (v : Values) → number_of_right_kind r.now.kind (variables_of v store.now.terms.entries) ≡ term_value v result }
    ensures size { unsigned_abs result.plus ≤ size_of store.now.terms.entries + weight (literals_of_right r.now) }
{
    match &r.kind {
        RightKind::Value(e) => body_term(e, store),
        RightKind::Call(_, _, _) => unreachable!(),
        RightKind::NewObject(_) => unreachable!(),
        RightKind::NewArray(_, _) => unreachable!(),
    }
}

/// Assigns to a place, which is a variable; nothing else is written.
fn assign(place: &Expr, t: Term, store: &mut Store) -> Result<(), NoMemory>
    ensures value { OnOk result ((v : Values) → variables_of v store.new.terms.entries ≡ assigned_to place.now.kind (variables_of v store.old.terms.entries) (term_value v t)) }
    ensures size { OnOk result (size_of store.new.terms.entries ≤ max (size_of store.old.terms.entries) (unsigned_abs t.plus)) }
{
    if let ExprKind::Var(word) = &place.kind {
        put(store, word.name, t)?;
    }
    Ok(())
}

/// Runs one statement.
#[cycle(run)]
pub fn run<K: Asker>(s: &Stmt, store: &mut Store, asker: &mut K) -> Result<Flow, NoMemory>
    requires sorted { is_sorted_stmt s.now ≡ true }
    requires size { size_of store.old.terms.entries + weight (literals_of_stmt s.now) ≤ 2 ^ 97 }
    ensures asks { OnOk result (Asks K.follows K.stands asker.old asker.new) }
    ensures says { IfOk result (λ flow. Under K.follows asker.new (λ v. run_of_stmt s.now (variables_of v store.old.terms.entries) ≡ outcome_of v flow store.new.terms.entries)) }
    ensures size { OnOk result (size_of store.new.terms.entries ≤ size_of store.old.terms.entries + weight (literals_of_stmt s.now)) }
    ensures returned { IfOk result (λ flow. flow_size flow ≤ size_of store.old.terms.entries + weight (literals_of_stmt s.now)) }
{
    match &s.kind {
        StmtKind::Local(_, word, None) => {
            put(store, word.name, Term::constant(0))?;
            Ok(Flow::Going)
        }
        StmtKind::Local(_, word, Some(right)) => {
            let t = right_term(right, store);
            put(store, word.name, t)?;
            Ok(Flow::Going)
        }
        StmtKind::Assign(place, right) => {
            let t = right_term(right, store);
            assign(place, t, store)?;
            Ok(Flow::Going)
        }
        StmtKind::If(e, first, second) => {
            if body_condition(e, store, asker)? {
                let flow = run_all(first.as_slice(), store, asker)?;
                Ok(flow)
            } else {
                let flow = run_all(second.as_slice(), store, asker)?;
                Ok(flow)
            }
        }
        StmtKind::Assert(e) => match body_check(e, store, asker)? {
            None => Ok(Flow::Going),
            Some(span) => Ok(Flow::Failed(SmallCheck::Assert, span)),
        },
        StmtKind::Return(None) => Ok(Flow::Returned(Term::constant(0))),
        StmtKind::Return(Some(e)) => Ok(Flow::Returned(body_term(e, store))),
        _ => Ok(Flow::Going),
    }
}

/// Runs the statements of a block, up to one that does not go on.
#[cycle(run)]
pub fn run_all<K: Asker>(block: &[Stmt], store: &mut Store, asker: &mut K) -> Result<Flow, NoMemory>
    requires sorted { is_sorted_block block.now ≡ true }
    requires size { size_of store.old.terms.entries + weight (literals_of_block block.now) ≤ 2 ^ 97 }
    ensures asks { OnOk result (Asks K.follows K.stands asker.old asker.new) }
    ensures says { IfOk result (λ flow. Under K.follows asker.new (λ v. run_of_block block.now (variables_of v store.old.terms.entries) ≡ outcome_of v flow store.new.terms.entries)) }
    ensures size { OnOk result (size_of store.new.terms.entries ≤ size_of store.old.terms.entries + weight (literals_of_block block.now)) }
    ensures returned { IfOk result (λ flow. flow_size flow ≤ size_of store.old.terms.entries + weight (literals_of_block block.now)) }
{
    for s in block {
        match run(s, store, asker)? {
            Flow::Going => {}
            Flow::Returned(t) => return Ok(Flow::Returned(t)),
            Flow::Failed(check, span) => return Ok(Flow::Failed(check, span)),
        }
    }
    Ok(Flow::Going)
}
