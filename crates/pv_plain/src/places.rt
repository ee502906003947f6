//! What an expression becomes as a place, as a guard, and as the term of a position.
ghost use Rattle.std.specs.Prelude.{◌≡◌, ◌++◌, map, OnOk};
ghost use Rattle.pv_picks.specs.Plain.Core as core;
ghost use Rattle.pv_picks.specs.Plain.Trees.{expression_of, comparison_of, cut_of as cut_as, formula_of, item_of, target_of as target_as};
ghost use Rattle.pv_picks.specs.Elaborating.Operations as operations;
ghost use Rattle.pv_picks.specs.Elaborating.Expressions as elaborating;

use pv_ast::PvType;
use pv_base::{Name, NoMemory, Span};
use pv_fraction::UNIT;
use pv_picks::plain::{Comparison, Cut, Cuts, Expression, Formula, Item, Target};
use pv_types::types::is_amount;
use pv_values::Value;
use sqlite_items::Boxed;

/// So many units as so many parts of so many have. An amount that may not be written has none.
pub(crate) fn units_of(part: u64, whole: u64) -> u64
    ensures { result ≡ elaborating.units_of part whole }
{
    if is_amount(part, whole) {
        part * UNIT / whole
    } else {
        0
    }
}

/// What stands for no expression.
fn no_expression() -> Expression
    ensures { expression_of result ≡ operations.no_expression }
{
    Expression::Constant(Value::Number(0))
}

pub(crate) fn no_formula(span: Span) -> Formula
    ensures { formula_of result ≡ operations.no_formula span }
{
    Formula::Fact(no_expression(), span)
}

pub(crate) fn no_item(span: Span) -> Item
    ensures { item_of result ≡ operations.no_item span }
{
    Item::Repeated(no_expression(), span)
}

/// A permission of so many units to a field of this type, or to an element.
pub(crate) fn permission(kind: PvType, units: u64, span: Span, e: Boxed<Expression>) -> Formula
    ensures { formula_of result ≡ operations.permission kind units span (expression_of e) }
{
    match e.into_inner() {
        Expression::Field(object, class, field, _) => {
            Formula::FieldPermission(object.into_inner(), class, field, kind, units, span)
        }
        Expression::Element(elements, array, index, _) => Formula::ElementPermission(
            elements,
            array.into_inner(),
            index.into_inner(),
            units,
            span,
        ),
        _ => no_formula(span),
    }
}

/// A permission of so many units to the element at each position, shifted.
pub(crate) fn permissions(shift: i128, units: u64, span: Span, e: Boxed<Expression>) -> Item
    ensures { item_of result ≡ operations.permissions shift units span (expression_of e) }
{
    match e.into_inner() {
        Expression::Element(elements, array, _, _) => {
            Item::Elements(elements, array.into_inner(), shift, units, span)
        }
        _ => no_item(span),
    }
}

/// A left side of an assignment.
pub(crate) fn target_of(e: Boxed<Expression>) -> Target
    ensures { target_as result ≡ operations.target_of (expression_of e) }
{
    match e.into_inner() {
        Expression::Variable(name) => Target::ToVariable(name),
        Expression::Field(object, class, field, span) => {
            Target::ToField(object.into_inner(), class, field, span)
        }
        Expression::Element(elements, array, index, span) => {
            Target::ToElement(elements, array.into_inner(), index.into_inner(), span)
        }
        _ => Target::Nowhere,
    }
}

/// The term to which an equation fixes the position.
pub(crate) fn term_of(e: Boxed<Expression>) -> Expression
    ensures { expression_of result ≡ operations.term_of (expression_of e) }
{
    match e.into_inner() {
        Expression::Equal(_, _, term) => term.into_inner(),
        _ => no_expression(),
    }
}

fn is_position(name: Name, e: &Expression) -> bool
    ensures { result ≡ operations.is_position name (expression_of e.now) }
{
    match e {
        Expression::Variable(other) => name.0 == other.0,
        _ => false,
    }
}

/// The position before a term.
fn cut_before(comparison: Comparison, term: Expression) -> Cut
    ensures { cut_as result ≡ operations.cut_before (comparison_of comparison) (expression_of term) }
{
    match comparison {
        Comparison::Less => Cut::Below(term),
        Comparison::AtMost => Cut::UpTo(term),
        Comparison::Greater => Cut::Above(term),
        Comparison::AtLeast => Cut::From(term),
    }
}

/// The position behind a term.
fn cut_behind(comparison: Comparison, term: Expression) -> Cut
    ensures { cut_as result ≡ operations.cut_behind (comparison_of comparison) (expression_of term) }
{
    match comparison {
        Comparison::Less => Cut::Above(term),
        Comparison::AtMost => Cut::From(term),
        Comparison::Greater => Cut::Below(term),
        Comparison::AtLeast => Cut::UpTo(term),
    }
}

/// A comparison as a guard on the position of a name.
fn cut_of(name: Name, comparison: Comparison, a: Boxed<Expression>, b: Boxed<Expression>) -> Cut
    ensures { cut_as result ≡ operations.cut_of name (comparison_of comparison) (expression_of a) (expression_of b) }
{
    if is_position(name, a.get()) {
        cut_before(comparison, b.into_inner())
    } else if is_position(name, b.get()) {
        cut_behind(comparison, a.into_inner())
    } else {
        Cut::Provided(Expression::Compare(comparison, a, b))
    }
}

/// Adds the guards that `&&` joins, from left to right.
pub(crate) fn add_cuts(cuts: &mut Cuts, name: Name, e: Boxed<Expression>) -> Result<(), NoMemory>
    ensures { OnOk result (map cut_as cuts.new ≡ map cut_as cuts.old ++ operations.cuts_of name (expression_of e)) }
{
    match e.into_inner() {
        Expression::And(a, b) => {
            add_cuts(cuts, name, a)?;
            add_cuts(cuts, name, b)
        }
        Expression::Compare(comparison, a, b) => {
            cuts.push(cut_of(name, comparison, a, b))?;
            Ok(())
        }
        other => {
            cuts.push(Cut::Provided(other))?;
            Ok(())
        }
    }
}
