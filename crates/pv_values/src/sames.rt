//! Comparisons that take no memory.
ghost use Rattle.std.specs.Prelude.{◌≡◌};
ghost use Rattle.pv_values.specs.Sames as sames;

use crate::fields::field_value;
use crate::thing::Thing;
use crate::value::Value;
use pv_base::Name;

fn same_value(a: Value, b: Value) -> bool
    ensures { result ≡ sames.same_value a b }
{
    match (a, b) {
        (Value::Number(x), Value::Number(y)) => x == y,
        (Value::Truth(x), Value::Truth(y)) => x == y,
        (Value::Reference(x), Value::Reference(y)) => x == y,
        _ => false,
    }
}

fn same_found(a: Option<Value>, b: Option<Value>) -> bool
    ensures { result ≡ sames.same_found a b }
{
    match (a, b) {
        (Some(x), Some(y)) => same_value(x, y),
        (None, None) => true,
        _ => false,
    }
}

fn same_elements(a: &[Value], b: &[Value]) -> bool
    ensures { result ≡ sames.same_elements a.now b.now }
{
    if a.len() != b.len() {
        return false;
    }
    for index in 0..a.len() {
        if !same_value(a[index], b[index]) {
            return false;
        }
    }
    true
}

/// Whether two lists of fields agree on the names of a list.
fn agree_on(names: &[(Name, Value)], a: &[(Name, Value)], b: &[(Name, Value)]) -> bool
    ensures { result ≡ sames.agree_on names.now a.now b.now }
{
    for field in names {
        if !same_found(field_value(a, field.0), field_value(b, field.0)) {
            return false;
        }
    }
    true
}

fn same_thing(a: &Thing, b: &Thing) -> bool
    ensures { result ≡ sames.same_thing a.now b.now }
{
    match (a, b) {
        (Thing::Object(c, x), Thing::Object(d, y)) => {
            let (x, y) = (x.as_slice(), y.as_slice());
            c.0 == d.0 && agree_on(x, x, y) && agree_on(y, x, y)
        }
        (Thing::Array(x), Thing::Array(y)) => same_elements(x.as_slice(), y.as_slice()),
        _ => false,
    }
}

/// Whether two heaps are equal.
pub(crate) fn same_things(a: &[Thing], b: &[Thing]) -> bool
    ensures { result ≡ sames.same_things a.now b.now }
{
    if a.len() != b.len() {
        return false;
    }
    for index in 0..a.len() {
        if !same_thing(&a[index], &b[index]) {
            return false;
        }
    }
    true
}
