//! Symbolic values of expressions: numbers are terms, and truth values are answers of the asker.

ghost use Rattle.std.specs.Prelude.{◌≡◌, ◌+◌, ◌≤◌, ◌^◌, ◌||◌, unsigned_abs, IsTrue, IfOk, OnOk, true, None, Some, if◌then◌else◌};
ghost use Rattle.pv_ast.specs.Measures.{literals_of};
ghost use Rattle.pv_linear.specs.Values.{Values, term_value, IsWithin};
ghost use Rattle.small_meaning.specs.Sorts.{sort_of, is_literal, is_number, is_truth};
ghost use Rattle.small_meaning.specs.Values.{Scene, value_of, value_of_operator, int_eq, are_equal, broken_of, number, truth};
ghost use Rattle.small_paths.specs.Asking.{Asks, Under};
ghost use Rattle.small_verdicts.specs.Symbolic.{scene_at, size_of, is_sum, is_order, weight};

use crate::store::{Store, term_of};
use pv_ast::{Expr, ExprKind, Operator};
use pv_base::{NoMemory, Span};
use pv_linear::Term;
use small_paths::{Asker, ask_at_most};

/// A written number.
fn literal_of(e: &Expr) -> i128
    requires { is_literal (sort_of e.now) ≡ true }
    ensures value { (s : Scene) → value_of e.now s ≡ number result }
    ensures size { unsigned_abs result ≤ 2 ^ 64 }
    ensures counted { literals_of e.now ≡ 1 }
{
    match &e.kind {
        ExprKind::Number(n) => i128::from(*n),
        _ => unreachable!(),
    }
}

/// A term so much further up or down.
fn moved(t: Term, op: Operator, by: i128) -> Term
    requires sum { is_sum op ≡ true }
    requires size { unsigned_abs t.plus + unsigned_abs by ≤ 2 ^ 98 }
    ensures value { (v : Values) → value_of_operator op (number (term_value v t)) (number by) ≡ number (term_value v result) }
    ensures size { unsigned_abs result.plus ≤ unsigned_abs t.plus + unsigned_abs by }
{
    let plus = match op {
        Operator::Add => t.plus + by,
        Operator::Sub => t.plus - by,
        _ => unreachable!(),
    };
    Term {
        symbol: t.symbol,
        plus,
    }
}

/// The term of a number. `returned` stands for `\result`.
pub fn term(e: &Expr, store: &Store, returned: Term) -> Term
    requires number { is_number (sort_of e.now) ≡ true }
    requires size { size_of store.now.terms.entries + unsigned_abs returned.plus + weight (literals_of e.now) ≤ 2 ^ 97 }
    ensures value { (v : Values) → value_of e.now (scene_at v store.now.terms.entries returned) ≡ number (term_value v result) }
    ensures size { unsigned_abs result.plus ≤ size_of store.now.terms.entries + unsigned_abs returned.plus + weight (literals_of e.now) }
{
    match &e.kind {
        ExprKind::Number(n) => Term::constant(i128::from(*n)),
        ExprKind::Var(word) => term_of(store, word.name),
        ExprKind::Result => returned,
        ExprKind::Minus(a) => Term::constant(-literal_of(a.get())),
        ExprKind::Binary(op, a, b) => {
            let first = term(a.get(), store, returned);
            let by = literal_of(b.get());
            moved(first, *op, by)
        }
        _ => unreachable!(),
    }
}

/// Whether an expression that has a sort is a number.
fn is_number_expr(e: &Expr) -> bool
    requires { (is_number (sort_of e.now) || is_truth (sort_of e.now)) ≡ true }
    ensures { result ≡ is_number (sort_of e.now) }
{
    match &e.kind {
        ExprKind::Number(_) => true,
        ExprKind::Var(_) => true,
        ExprKind::Result => true,
        ExprKind::Minus(_) => true,
        ExprKind::Binary(op, _, _) => is_sum_operator(*op),
        _ => false,
    }
}

fn is_sum_operator(op: Operator) -> bool
    ensures { result ≡ is_sum op }
{
    match op {
        Operator::Add => true,
        Operator::Sub => true,
        _ => false,
    }
}

/// Whether two numbers are equal.
fn ask_equal<K: Asker>(a: Term, b: Term, asker: &mut K) -> Result<bool, NoMemory>
    requires first { IsWithin (2 ^ 98) a.plus }
    requires second { IsWithin (2 ^ 98) b.plus }
    ensures asks { OnOk result (Asks K.follows K.stands asker.old asker.new) }
    ensures says { IfOk result (λ told. Under K.follows asker.new (λ v. int_eq (term_value v a) (term_value v b) ≡ told)) }
{
    let below = ask_at_most(a, b, asker)?;
    if !below {
        return Ok(false);
    }
    let above = ask_at_most(b, a, asker)?;
    Ok(above)
}

/// What a comparison of the order of two numbers comes to.
fn compare<K: Asker>(op: Operator, a: Term, b: Term, asker: &mut K) -> Result<bool, NoMemory>
    requires order { is_order op ≡ true }
    requires first { IsWithin (2 ^ 98) a.plus }
    requires second { IsWithin (2 ^ 98) b.plus }
    ensures asks { OnOk result (Asks K.follows K.stands asker.old asker.new) }
    ensures says { IfOk result (λ told. Under K.follows asker.new (λ v. value_of_operator op (number (term_value v a)) (number (term_value v b)) ≡ truth told)) }
{
    match op {
        Operator::Lt => {
            let told = ask_at_most(b, a, asker)?;
            Ok(!told)
        }
        Operator::Le => {
            let told = ask_at_most(a, b, asker)?;
            Ok(told)
        }
        Operator::Gt => {
            let told = ask_at_most(a, b, asker)?;
            Ok(!told)
        }
        Operator::Ge => {
            let told = ask_at_most(b, a, asker)?;
            Ok(told)
        }
        _ => unreachable!(),
    }
}

/// Whether two numbers of a formula are equal. `returned` stands for `\result`.
fn equal_numbers<K: Asker>(
    a: &Expr,
    b: &Expr,
    store: &Store,
    returned: Term,
    asker: &mut K,
) -> Result<bool, NoMemory>
    requires first { is_number (sort_of a.now) ≡ true }
    requires second { is_number (sort_of b.now) ≡ true }
    requires size { size_of store.now.terms.entries + unsigned_abs returned.plus + weight (literals_of a.now + literals_of b.now) ≤ 2 ^ 97 }
    ensures asks { OnOk result (Asks K.follows K.stands asker.old asker.new) }
    ensures says { IfOk result (λ told. Under K.follows asker.new (λ v. are_equal (value_of a.now (scene_at v store.now.terms.entries returned)) (value_of b.now (scene_at v store.now.terms.entries returned)) ≡ told)) }
{
    let first = term(a, store, returned);
    let second = term(b, store, returned);
    let told = ask_equal(first, second, asker)?;
    Ok(told)
}

/// What a comparison of the order of two numbers of a formula comes to. `returned` stands for `\result`.
fn ordered_numbers<K: Asker>(
    op: Operator,
    a: &Expr,
    b: &Expr,
    store: &Store,
    returned: Term,
    asker: &mut K,
) -> Result<bool, NoMemory>
    requires order { is_order op ≡ true }
    requires first { is_number (sort_of a.now) ≡ true }
    requires second { is_number (sort_of b.now) ≡ true }
    requires size { size_of store.now.terms.entries + unsigned_abs returned.plus + weight (literals_of a.now + literals_of b.now) ≤ 2 ^ 97 }
    ensures asks { OnOk result (Asks K.follows K.stands asker.old asker.new) }
    ensures says { IfOk result (λ told. Under K.follows asker.new (λ v. value_of_operator op (value_of a.now (scene_at v store.now.terms.entries returned)) (value_of b.now (scene_at v store.now.terms.entries returned)) ≡ truth told)) }
{
    let first = term(a, store, returned);
    let second = term(b, store, returned);
    let told = compare(op, first, second, asker)?;
    Ok(told)
}

/// Whether a truth value is true. `returned` stands for `\result`.
pub fn condition<K: Asker>(
    e: &Expr,
    store: &Store,
    returned: Term,
    asker: &mut K,
) -> Result<bool, NoMemory>
    requires truth { is_truth (sort_of e.now) ≡ true }
    requires size { size_of store.now.terms.entries + unsigned_abs returned.plus + weight (literals_of e.now) ≤ 2 ^ 97 }
    ensures asks { OnOk result (Asks K.follows K.stands asker.old asker.new) }
    ensures says { IfOk result (λ told. Under K.follows asker.new (λ v. value_of e.now (scene_at v store.now.terms.entries returned) ≡ truth told)) }
{
    match &e.kind {
        ExprKind::Truth(b) => Ok(*b),
        ExprKind::Not(a) => {
            let told = condition(a.get(), store, returned, asker)?;
            Ok(!told)
        }
        ExprKind::Binary(op, a, b) => match op {
            Operator::And => {
                if !condition(a.get(), store, returned, asker)? {
                    return Ok(false);
                }
                let second = condition(b.get(), store, returned, asker)?;
                Ok(second)
            }
            Operator::Or => {
                if condition(a.get(), store, returned, asker)? {
                    return Ok(true);
                }
                let second = condition(b.get(), store, returned, asker)?;
                Ok(second)
            }
            Operator::Eq => {
                if is_number_expr(a.get()) {
                    let told = equal_numbers(a.get(), b.get(), store, returned, asker)?;
                    return Ok(told);
                }
                let first = condition(a.get(), store, returned, asker)?;
                let second = condition(b.get(), store, returned, asker)?;
                Ok(first == second)
            }
            Operator::Ne => {
                if is_number_expr(a.get()) {
                    let told = equal_numbers(a.get(), b.get(), store, returned, asker)?;
                    return Ok(!told);
                }
                let first = condition(a.get(), store, returned, asker)?;
                let second = condition(b.get(), store, returned, asker)?;
                Ok(first != second)
            }
            _ => {
                let told = ordered_numbers(*op, a.get(), b.get(), store, returned, asker)?;
                Ok(told)
            }
        },
        _ => unreachable!(),
    }
}

/// The span of the first conjunct of a formula that is not true, if there is one.
pub fn check<K: Asker>(
    e: &Expr,
    store: &Store,
    returned: Term,
    asker: &mut K,
) -> Result<Option<Span>, NoMemory>
    requires truth { is_truth (sort_of e.now) ≡ true }
    requires size { size_of store.now.terms.entries + unsigned_abs returned.plus + weight (literals_of e.now) ≤ 2 ^ 97 }
    ensures asks { OnOk result (Asks K.follows K.stands asker.old asker.new) }
    ensures says { IfOk result (λ broken. Under K.follows asker.new (λ v. broken_of e.now (scene_at v store.now.terms.entries returned) ≡ broken)) }
{
    match &e.kind {
        ExprKind::Binary(op, a, b) => match op {
            Operator::And => {
                let first = check(a.get(), store, returned, asker)?;
                if first.is_some() {
                    return Ok(first);
                }
                let second = check(b.get(), store, returned, asker)?;
                Ok(second)
            }
            _ => {
                let told = condition(e, store, returned, asker)?;
                Ok(span_unless(told, e.span))
            }
        },
        _ => {
            let told = condition(e, store, returned, asker)?;
            Ok(span_unless(told, e.span))
        }
    }
}

/// The span of a conjunct that is not true.
fn span_unless(told: bool, span: Span) -> Option<Span>
    ensures { result ≡ (if told then None else Some span) }
{
    if told { None } else { Some(span) }
}
