//! Operations and comparisons on numbers of 128 bits.
ghost use Rattle.std.specs.Prelude.{◌≡◌, true, false, IfOk, IfErr, MatchOption};
ghost use Rattle.pv_picks.specs.Plain.Trees.{operation_of, manner_of, comparison_of};
ghost use Rattle.pv_picks.specs.Formulas.Values as values;
ghost use Rattle.pv_picks.specs.Judge.Runs.{value_of_operation, taken_from, is_entry_of, is_operator};
ghost use Rattle.pv_cells.specs.Limits.{fits};
ghost use Rattle.pv_cells.specs.Reading.{IsWithin};

use pv_ast::Operator;
use pv_picks::Entry;
use pv_picks::plain::{Comparison, Operation};
use pv_values::Value;

/// The number of the value, and 0 where it is none.
pub(crate) fn number(v: Value) -> i128
    ensures { result ≡ values.number_in v }
{
    match v {
        Value::Number(n) => n,
        Value::Truth(_) | Value::Reference(_) => 0,
    }
}

/// The truth value of the value, and false where it is none.
pub(crate) fn truth(v: Value) -> bool
    ensures { result ≡ values.truth_in v }
{
    match v {
        Value::Truth(b) => b,
        Value::Number(_) | Value::Reference(_) => false,
    }
}

/// The reference of the value, and null where it is none.
pub(crate) fn reference(v: Value) -> u128
    ensures { result ≡ values.reference_in v }
{
    match v {
        Value::Reference(n) => n,
        Value::Number(_) | Value::Truth(_) => 0,
    }
}

/// What an operation gives. None where that is outside 128 bits.
#[tactic(auto, using(crate::proofs::Fitting::fitting, crate::proofs::Fitting::not_fitting))]
pub(crate) fn arithmetic(operation: Operation, a: i128, b: i128) -> Option<i128>
    ensures { IsWithin (values.arithmetic (operation_of operation) a b) result }
{
    match operation {
        Operation::Plus => a.checked_add(b),
        Operation::Minus => a.checked_sub(b),
        Operation::Times => a.checked_mul(b),
    }
}

pub(crate) fn compare(order: Comparison, a: i128, b: i128) -> bool
    ensures { result ≡ values.comparison (comparison_of order) a b }
{
    match order {
        Comparison::Less => a < b,
        Comparison::AtMost => a <= b,
        Comparison::Greater => b < a,
        Comparison::AtLeast => b <= a,
    }
}

/// Whether two values are the same, or differ where `same` is false.
pub(crate) fn equal(same: bool, a: Value, b: Value) -> bool
    ensures { result ≡ values.equality same a b }
{
    let alike = match (a, b) {
        (Value::Number(x), Value::Number(y)) => x == y,
        (Value::Truth(x), Value::Truth(y)) => x == y,
        (Value::Reference(x), Value::Reference(y)) => x == y,
        _ => false,
    };
    if same { alike } else { !alike }
}

/// The value of an operation by a table: that of its entry, the lesser argument of `+` and `*` first, and true arithmetic where no
/// entry stands. None where that is outside 128 bits. One pass over the table.
pub(crate) fn from_table(table: &[Entry], operation: Operation, a: i128, b: i128) -> Option<i128>
    ensures { IsWithin (value_of_operation table.now (operation_of operation) a b) result }
{
    if operation == Operation::Minus || a <= b {
        taken_from(table, operation, a, b)
    } else {
        taken_from(table, operation, b, a)
    }
}

#[tactic(auto, using(crate::proofs::Fitting::fitting))]
fn taken_from(table: &[Entry], operation: Operation, a: i128, b: i128) -> Option<i128>
    ensures { IsWithin (taken_from table.now (operation_of operation) a b) result }
{
    for entry in table {
        if is_entry_of(operation, a, b, entry) {
            let taken = entry.taken;
            return Some(taken);
        }
    }
    arithmetic(operation, a, b)
}

fn is_entry_of(operation: Operation, a: i128, b: i128, entry: &Entry) -> bool
    ensures { result ≡ is_entry_of (operation_of operation) a b entry.now }
{
    is_operator(operation, entry.op) && a == entry.left && b == entry.right
}

fn is_operator(operation: Operation, operator: Operator) -> bool
    ensures { result ≡ is_operator (operation_of operation) operator }
{
    matches!(
        (operation, operator),
        (Operation::Plus, Operator::Add)
            | (Operation::Minus, Operator::Sub)
            | (Operation::Times, Operator::Mul)
    )
}
