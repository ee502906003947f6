//! Operations of plain trees, and which of them are plain.
ghost use Rattle.std.specs.Prelude.{◌≡◌, ℤ, IfOk};
ghost use Rattle.pv_picks.specs.Plain.Core as core;
ghost use Rattle.pv_picks.specs.Plain.Trees.{expression_of, operation_of, comparison_of, manner_of as manner_as};
ghost use Rattle.pv_picks.specs.Elaborating.Operations as operations;

use pv_ast::{Operator, PvType};
use pv_base::{NoMemory, Span};
use pv_picks::plain::{Comparison, Expression, Manner, Operation};
use pv_values::Value;
use sqlite_items::Boxed;
use std::alloc::Global;

pub(crate) fn boxed(alloc: Global, e: Expression) -> Result<Boxed<Expression>, NoMemory>
    ensures { IfOk result (λ b. b ≡ e) }
{
    Ok(Boxed::new(alloc, e)?)
}

pub(crate) fn constant(alloc: Global, value: Value) -> Result<Boxed<Expression>, NoMemory>
    ensures { IfOk result (λ b. expression_of b ≡ core.Constant value) }
{
    boxed(alloc, Expression::Constant(value))
}

/// `this`
pub(crate) fn this(alloc: Global) -> Result<Boxed<Expression>, NoMemory>
    ensures { IfOk result (λ e. expression_of e ≡ core.This) }
{
    boxed(alloc, Expression::This)
}

/// `\\result`
pub(crate) fn outcome(alloc: Global) -> Result<Boxed<Expression>, NoMemory>
    ensures { IfOk result (λ e. expression_of e ≡ core.Result) }
{
    boxed(alloc, Expression::Result)
}

pub(crate) fn negated(alloc: Global, part: Boxed<Expression>) -> Result<Boxed<Expression>, NoMemory>
    ensures { IfOk result (λ e. expression_of e ≡ core.Not (expression_of part)) }
{
    boxed(alloc, Expression::Not(part))
}

pub(crate) fn old(alloc: Global, part: Boxed<Expression>) -> Result<Boxed<Expression>, NoMemory>
    ensures { IfOk result (λ e. expression_of e ≡ core.Old (expression_of part)) }
{
    boxed(alloc, Expression::Old(part))
}

pub(crate) fn element(
    alloc: Global,
    kind: PvType,
    array: Boxed<Expression>,
    index: Boxed<Expression>,
    span: Span,
) -> Result<Boxed<Expression>, NoMemory>
    ensures { IfOk result (λ e. expression_of e ≡ core.Element kind (expression_of array) (expression_of index) span) }
{
    boxed(alloc, Expression::Element(kind, array, index, span))
}

/// A number that is written, its negation, or a sum or difference of such.
pub(crate) fn is_literal(e: &Expression) -> bool
    ensures { result ≡ operations.is_literal (expression_of e.now) }
{
    match e {
        Expression::Constant(value) => matches!(value, Value::Number(_)),
        Expression::Compute(_, operation, a, b, _) => match operation {
            Operation::Plus | Operation::Minus => is_literal(a.get()) && is_literal(b.get()),
            Operation::Times => false,
        },
        _ => false,
    }
}

fn plain_if(holds: bool) -> Manner
    ensures { manner_as result ≡ operations.plain_if holds }
{
    if holds { Manner::Plain } else { Manner::Tabled }
}

/// `+` is plain beside a literal expression, and `-` before one.
fn manner_of(operation: Operation, a: &Expression, b: &Expression) -> Manner
    ensures { manner_as result ≡ operations.manner_of (operation_of operation) (expression_of a.now) (expression_of b.now) }
{
    match operation {
        Operation::Plus => plain_if(is_literal(a) || is_literal(b)),
        Operation::Minus => plain_if(is_literal(b)),
        Operation::Times => Manner::Tabled,
    }
}

pub(crate) fn computed(
    alloc: Global,
    operation: Operation,
    span: Span,
    a: Boxed<Expression>,
    b: Boxed<Expression>,
) -> Result<Boxed<Expression>, NoMemory>
    ensures { IfOk result (λ e. expression_of e ≡ operations.computed (operation_of operation) span (expression_of a) (expression_of b)) }
{
    let manner = manner_of(operation, a.get(), b.get());
    boxed(alloc, Expression::Compute(manner, operation, a, b, span))
}

/// A difference that is plain, where it is one.
fn plainly(alloc: Global, e: Boxed<Expression>) -> Result<Boxed<Expression>, NoMemory>
    ensures { IfOk result (λ x. expression_of x ≡ operations.plainly (expression_of e)) }
{
    let plain = match e.into_inner() {
        Expression::Compute(_, Operation::Minus, a, b, span) => {
            Expression::Compute(Manner::Plain, Operation::Minus, a, b, span)
        }
        other => other,
    };
    boxed(alloc, plain)
}

/// An operand of a comparison with what may be a literal expression.
fn compared(
    alloc: Global,
    literal: bool,
    e: Boxed<Expression>,
) -> Result<Boxed<Expression>, NoMemory>
    ensures { (other : core.Expression) → literal ≡ operations.is_literal other → IfOk result (λ x. expression_of x ≡ operations.compared other (expression_of e)) }
{
    if literal { plainly(alloc, e) } else { Ok(e) }
}

fn comparison(
    alloc: Global,
    comparison: Comparison,
    a: Boxed<Expression>,
    b: Boxed<Expression>,
) -> Result<Boxed<Expression>, NoMemory>
    ensures { IfOk result (λ e. expression_of e ≡ operations.comparison (comparison_of comparison) (expression_of a) (expression_of b)) }
{
    let first = is_literal(a.get());
    let a = compared(alloc, is_literal(b.get()), a)?;
    let b = compared(alloc, first, b)?;
    boxed(alloc, Expression::Compare(comparison, a, b))
}

fn equality(
    alloc: Global,
    same: bool,
    a: Boxed<Expression>,
    b: Boxed<Expression>,
) -> Result<Boxed<Expression>, NoMemory>
    ensures { IfOk result (λ e. expression_of e ≡ operations.equality same (expression_of a) (expression_of b)) }
{
    let first = is_literal(a.get());
    let a = compared(alloc, is_literal(b.get()), a)?;
    let b = compared(alloc, first, b)?;
    boxed(alloc, Expression::Equal(same, a, b))
}

/// What an operator between two expressions becomes.
pub(crate) fn operation(
    alloc: Global,
    operator: Operator,
    span: Span,
    a: Boxed<Expression>,
    b: Boxed<Expression>,
) -> Result<Boxed<Expression>, NoMemory>
    ensures { IfOk result (λ e. expression_of e ≡ operations.operation operator span (expression_of a) (expression_of b)) }
{
    match operator {
        Operator::Add => computed(alloc, Operation::Plus, span, a, b),
        Operator::Sub => computed(alloc, Operation::Minus, span, a, b),
        Operator::Mul => computed(alloc, Operation::Times, span, a, b),
        Operator::Eq => equality(alloc, true, a, b),
        Operator::Ne => equality(alloc, false, a, b),
        Operator::Lt => comparison(alloc, Comparison::Less, a, b),
        Operator::Le => comparison(alloc, Comparison::AtMost, a, b),
        Operator::Gt => comparison(alloc, Comparison::Greater, a, b),
        Operator::Ge => comparison(alloc, Comparison::AtLeast, a, b),
        Operator::And | Operator::Star => boxed(alloc, Expression::And(a, b)),
        Operator::Or => boxed(alloc, Expression::Or(a, b)),
        Operator::Implies => boxed(alloc, Expression::Implies(a, b)),
    }
}
