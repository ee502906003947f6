//! The value of an expression of a formula, from left to right, stopping where the left side decides.
ghost use Rattle.std.specs.Prelude.{◌≡◌, true, false, not, Some, None, IfOk, IfErr, MatchOption};
ghost use Rattle.pv_picks.specs.Plain.Core as core;
ghost use Rattle.pv_picks.specs.Plain.Trees.{expression_of, operation_of, manner_of, comparison_of};
ghost use Rattle.pv_picks.specs.Formulas.Values as values;
ghost use Rattle.pv_values.specs.declared.value.Value.TheVariants as value_kind;
ghost use Rattle.pv_cells.specs.declared.halt.Halt.TheVariants as halt_kind;
ghost use Rattle.pv_cells.specs.Keys.{resource_of};
ghost use Rattle.pv_cells.specs.Limits.{fits};
ghost use Rattle.pv_cells.specs.Prepared.{maps_of, table_of};
ghost use Rattle.pv_cells.specs.Reading.{read_in, worked};
ghost use Rattle.pv_cells.specs.Stores.{cells_held};
ghost use Rattle.pv_cells.specs.Values.{Valued, Unvalued};
ghost use Rattle.pv_cells.specs.Views.{around};

use crate::halt::Halt;
use crate::key::Resource;
use crate::lengths::length_of;
use crate::plainly::{arithmetic, compare, equal, from_table, number, reference, truth};
use crate::prepared::Prepared;
use crate::store::{Held, Learned, Scene, cell_in, variable};
use pv_ast::PvType;
use pv_base::{Name, Span};
use pv_picks::plain::{Comparison, Expression, Manner, Operation};
use pv_values::Value;

/// What expressions are evaluated in: what they speak of, what is held now and what was held in the old state, and the evidence.
#[derive(Clone, Copy)]
pub struct View<'a> {
    pub scene: &'a Scene,
    pub held: &'a Held,
    pub past: &'a Held,
    pub given: &'a Prepared<'a>,
}

/// What is read of a location at a span.
fn read(resource: Resource, span: Span, held: &Held, given: &Prepared) -> Result<Value, Halt>
    ensures found { IfOk result (λ v. read_in (maps_of given.now) (cells_held held.now) (resource_of resource) ≡ Some v) }
    ensures missing { IfErr result (λ halt. halt ≡ halt_kind.Missing span) }
    ensures none { IfErr result (λ halt. cells_held held.now (resource_of resource) ≡ None) }
{
    match cell_in(held, resource) {
        Some(cell) => Ok(given.content(cell)),
        None => Err(Halt::Missing(span)),
    }
}

/// The value of an expression. It is missing at the span of the first read of what isn't held or of the length of null, blocked
/// where a length can't be picked, and overflows at the span of the first operation whose value is outside 128 bits. Each part is
/// evaluated once.
#[cycle(value)]
pub(crate) fn value(e: &Expression, view: View, learned: &mut Learned) -> Result<Value, Halt>
    ensures goes { IfOk result (λ v. Valued view.entry.given.now (around view.entry) (expression_of e.now) learned.old v learned.new) }
    ensures stops { IfErr result (λ halt. Unvalued view.entry.given.now (around view.entry) (expression_of e.now) learned.old halt learned.new) }
{
    match e {
        Expression::Constant(v) => Ok(*v),
        Expression::This => Ok(Value::Reference(view.scene.this)),
        Expression::Result => Ok(view.scene.result),
        Expression::Variable(name) => Ok(variable(view.scene, *name)),
        Expression::Field(object, class, name, span) => {
            field(object.get(), *class, *name, *span, view, learned)
        }
        Expression::Element(kind, array, index, span) => {
            element(*kind, array.get(), index.get(), *span, view, learned)
        }
        Expression::Length(kind, array, span) => {
            measured(*kind, array.get(), *span, view, learned)
        }
        Expression::Not(a) => opposite(a.get(), view, learned),
        Expression::Compute(manner, operation, a, b, span) => {
            computed(*manner, *operation, a.get(), b.get(), *span, view, learned)
        }
        Expression::Compare(order, a, b) => compared(*order, a.get(), b.get(), view, learned),
        Expression::Equal(same, a, b) => equated(*same, a.get(), b.get(), view, learned),
        Expression::And(a, b) => both(a.get(), b.get(), view, learned),
        Expression::Or(a, b) => either(a.get(), b.get(), view, learned),
        Expression::Implies(a, b) => implied(a.get(), b.get(), view, learned),
        Expression::Old(a) => before(a.get(), view, learned),
    }
}

#[cycle(value)]
#[tactic(auto, using(crate::proofs::Values::field_is, crate::proofs::Values::no_field, crate::proofs::Values::field_stops))]
fn field(
    object: &Expression,
    class: Name,
    name: Name,
    span: Span,
    view: View,
    learned: &mut Learned,
) -> Result<Value, Halt>
    ensures goes { IfOk result (λ v. Valued view.entry.given.now (around view.entry) (core.Field (expression_of object.now) class name span) learned.old v learned.new) }
    ensures stops { IfErr result (λ halt. Unvalued view.entry.given.now (around view.entry) (core.Field (expression_of object.now) class name span) learned.old halt learned.new) }
{
    let o = value(object, view, learned)?;
    read(
        Resource::Field(class, reference(o), name),
        span,
        view.held,
        view.given,
    )
}

#[cycle(value)]
#[tactic(auto, using(crate::proofs::Values::element_is, crate::proofs::Values::no_element, crate::proofs::Values::array_stops, crate::proofs::Values::index_stops))]
fn element(
    kind: PvType,
    array: &Expression,
    index: &Expression,
    span: Span,
    view: View,
    learned: &mut Learned,
) -> Result<Value, Halt>
    ensures goes { IfOk result (λ v. Valued view.entry.given.now (around view.entry) (core.Element kind (expression_of array.now) (expression_of index.now) span) learned.old v learned.new) }
    ensures stops { IfErr result (λ halt. Unvalued view.entry.given.now (around view.entry) (core.Element kind (expression_of array.now) (expression_of index.now) span) learned.old halt learned.new) }
{
    let a = value(array, view, learned)?;
    let i = value(index, view, learned)?;
    let place = Resource::Element(kind, reference(a), number(i));
    read(place, span, view.held, view.given)
}

#[cycle(value)]
#[tactic(auto, using(crate::proofs::Values::length_is, crate::proofs::Values::no_array, crate::proofs::Values::measuring_stops, crate::proofs::Values::length_stops))]
fn measured(
    kind: PvType,
    array: &Expression,
    span: Span,
    view: View,
    learned: &mut Learned,
) -> Result<Value, Halt>
    ensures goes { IfOk result (λ v. Valued view.entry.given.now (around view.entry) (core.Length kind (expression_of array.now) span) learned.old v learned.new) }
    ensures stops { IfErr result (λ halt. Unvalued view.entry.given.now (around view.entry) (core.Length kind (expression_of array.now) span) learned.old halt learned.new) }
{
    let a = reference(value(array, view, learned)?);
    if a == 0 {
        return Err(Halt::Missing(span));
    }
    let n = length_of(view.given, learned, kind, a)?;
    Ok(Value::Number(n))
}

#[cycle(value)]
#[tactic(auto, using(crate::proofs::Values::opposite_is, crate::proofs::Values::opposite_stops))]
fn opposite(a: &Expression, view: View, learned: &mut Learned) -> Result<Value, Halt>
    ensures goes { IfOk result (λ v. Valued view.entry.given.now (around view.entry) (core.Not (expression_of a.now)) learned.old v learned.new) }
    ensures stops { IfErr result (λ halt. Unvalued view.entry.given.now (around view.entry) (core.Not (expression_of a.now)) learned.old halt learned.new) }
{
    let x = value(a, view, learned)?;
    Ok(Value::Truth(!truth(x)))
}

#[cycle(value)]
#[tactic(auto, using(crate::proofs::Values::computed_is, crate::proofs::Values::overflows_at, crate::proofs::Values::left_stops, crate::proofs::Values::right_stops))]
fn computed(
    manner: Manner,
    operation: Operation,
    a: &Expression,
    b: &Expression,
    span: Span,
    view: View,
    learned: &mut Learned,
) -> Result<Value, Halt>
    ensures goes { IfOk result (λ v. Valued view.entry.given.now (around view.entry) (core.Compute (manner_of manner) (operation_of operation) (expression_of a.now) (expression_of b.now) span) learned.old v learned.new) }
    ensures stops { IfErr result (λ halt. Unvalued view.entry.given.now (around view.entry) (core.Compute (manner_of manner) (operation_of operation) (expression_of a.now) (expression_of b.now) span) learned.old halt learned.new) }
{
    let x = number(value(a, view, learned)?);
    let y = number(value(b, view, learned)?);
    let z = operate(manner, operation, x, y, span, view.given)?;
    Ok(Value::Number(z))
}

#[cycle(value)]
#[tactic(auto, using(crate::proofs::Values::compared_is, crate::proofs::Values::lesser_stops, crate::proofs::Values::greater_stops))]
fn compared(
    order: Comparison,
    a: &Expression,
    b: &Expression,
    view: View,
    learned: &mut Learned,
) -> Result<Value, Halt>
    ensures goes { IfOk result (λ v. Valued view.entry.given.now (around view.entry) (core.Compare (comparison_of order) (expression_of a.now) (expression_of b.now)) learned.old v learned.new) }
    ensures stops { IfErr result (λ halt. Unvalued view.entry.given.now (around view.entry) (core.Compare (comparison_of order) (expression_of a.now) (expression_of b.now)) learned.old halt learned.new) }
{
    let x = value(a, view, learned)?;
    let y = value(b, view, learned)?;
    Ok(Value::Truth(compare(order, number(x), number(y))))
}

#[cycle(value)]
#[tactic(auto, using(crate::proofs::Values::equal_is, crate::proofs::Values::one_stops, crate::proofs::Values::other_stops))]
fn equated(
    same: bool,
    a: &Expression,
    b: &Expression,
    view: View,
    learned: &mut Learned,
) -> Result<Value, Halt>
    ensures goes { IfOk result (λ v. Valued view.entry.given.now (around view.entry) (core.Equal same (expression_of a.now) (expression_of b.now)) learned.old v learned.new) }
    ensures stops { IfErr result (λ halt. Unvalued view.entry.given.now (around view.entry) (core.Equal same (expression_of a.now) (expression_of b.now)) learned.old halt learned.new) }
{
    let x = value(a, view, learned)?;
    let y = value(b, view, learned)?;
    Ok(Value::Truth(equal(same, x, y)))
}

#[cycle(value)]
#[tactic(auto, using(crate::proofs::Values::both_are, crate::proofs::Values::not_both, crate::proofs::Values::first_stops, crate::proofs::Values::second_stops))]
fn both(a: &Expression, b: &Expression, view: View, learned: &mut Learned) -> Result<Value, Halt>
    ensures goes { IfOk result (λ v. Valued view.entry.given.now (around view.entry) (core.And (expression_of a.now) (expression_of b.now)) learned.old v learned.new) }
    ensures stops { IfErr result (λ halt. Unvalued view.entry.given.now (around view.entry) (core.And (expression_of a.now) (expression_of b.now)) learned.old halt learned.new) }
{
    let x = value(a, view, learned)?;
    if truth(x) {
        value(b, view, learned)
    } else {
        Ok(Value::Truth(false))
    }
}

#[cycle(value)]
#[tactic(auto, using(crate::proofs::Values::neither_is, crate::proofs::Values::either_is, crate::proofs::Values::either_stops, crate::proofs::Values::or_stops))]
fn either(a: &Expression, b: &Expression, view: View, learned: &mut Learned) -> Result<Value, Halt>
    ensures goes { IfOk result (λ v. Valued view.entry.given.now (around view.entry) (core.Or (expression_of a.now) (expression_of b.now)) learned.old v learned.new) }
    ensures stops { IfErr result (λ halt. Unvalued view.entry.given.now (around view.entry) (core.Or (expression_of a.now) (expression_of b.now)) learned.old halt learned.new) }
{
    let x = value(a, view, learned)?;
    if truth(x) {
        Ok(Value::Truth(true))
    } else {
        value(b, view, learned)
    }
}

#[cycle(value)]
#[tactic(auto, using(crate::proofs::Values::implied_is, crate::proofs::Values::implies_nothing, crate::proofs::Values::premise_stops, crate::proofs::Values::conclusion_stops))]
fn implied(a: &Expression, b: &Expression, view: View, learned: &mut Learned) -> Result<Value, Halt>
    ensures goes { IfOk result (λ v. Valued view.entry.given.now (around view.entry) (core.Implies (expression_of a.now) (expression_of b.now)) learned.old v learned.new) }
    ensures stops { IfErr result (λ halt. Unvalued view.entry.given.now (around view.entry) (core.Implies (expression_of a.now) (expression_of b.now)) learned.old halt learned.new) }
{
    let x = value(a, view, learned)?;
    if truth(x) {
        value(b, view, learned)
    } else {
        Ok(Value::Truth(true))
    }
}

#[cycle(value)]
#[tactic(auto, using(crate::proofs::Values::old_is, crate::proofs::Values::old_stops))]
fn before(a: &Expression, view: View, learned: &mut Learned) -> Result<Value, Halt>
    ensures goes { IfOk result (λ v. Valued view.entry.given.now (around view.entry) (core.Old (expression_of a.now)) learned.old v learned.new) }
    ensures stops { IfErr result (λ halt. Unvalued view.entry.given.now (around view.entry) (core.Old (expression_of a.now)) learned.old halt learned.new) }
{
    let old = View {
        scene: view.scene,
        held: view.past,
        past: view.past,
        given: view.given,
    };
    value(a, old, learned)
}

/// The value of an operation: worked out, or from the table. It overflows where that is outside 128 bits.
fn operate(
    manner: Manner,
    operation: Operation,
    a: i128,
    b: i128,
    span: Span,
    given: &Prepared,
) -> Result<i128, Halt>
    ensures is { IfOk result (λ z. worked (table_of given.now) (manner_of manner) (operation_of operation) a b ≡ z) }
    ensures within { IfOk result (λ z. fits z ≡ true) }
    ensures overflow { IfErr result (λ halt. halt ≡ halt_kind.Overflow span) }
    ensures beyond { IfErr result (λ halt. fits (worked (table_of given.now) (manner_of manner) (operation_of operation) a b) ≡ false) }
{
    let found = match manner {
        Manner::Plain => arithmetic(operation, a, b),
        Manner::Tabled => from_table(given.evidence.table.as_slice(), operation, a, b),
    };
    match found {
        Some(z) => Ok(z),
        None => Err(Halt::Overflow(span)),
    }
}
