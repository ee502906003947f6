//! What expressions become.
ghost use Rattle.std.specs.Prelude.{◌≡◌, IfOk};
ghost use Rattle.pv_ast.specs.Rules.Scoping.{variable_named};
ghost use Rattle.pv_ast.specs.Rules.Expressions.{checked_expression, typing_in};
ghost use Rattle.pv_picks.specs.Plain.Core as core;
ghost use Rattle.pv_picks.specs.Plain.Trees.{expression_of};
ghost use Rattle.pv_picks.specs.Elaborating.Names as names;
ghost use Rattle.pv_picks.specs.Elaborating.Operations as operations;
ghost use Rattle.pv_picks.specs.Elaborating.Expressions.{core_of_expression, elaborated_expression};
ghost use Rattle.pv_plain.specs.Sights.{around, in_scope};

use crate::kinds::{class_of, element_type, elements_of, holder_seen, settled};
use crate::operations::{
    boxed, computed, constant, element, negated, old, operation, outcome, this,
};
use crate::sight::Sight;
use pv_ast::{Expr, ExprKind};
use pv_base::{Name, NoMemory, Span};
use pv_picks::plain::{Expression, Operation};
use pv_values::Value;
use sqlite_items::Boxed;
use std::alloc::Global;

/// A variable, or a field of `this`.
fn named(alloc: Global, name: Name, span: Span, sight: Sight) -> Result<Boxed<Expression>, NoMemory>
    ensures { IfOk result (λ x. expression_of x ≡ names.named (around sight.entry) span name (variable_named (in_scope sight.entry) name)) }
{
    match sight.variable(name) {
        Some(_) => boxed(alloc, Expression::Variable(name)),
        None => {
            let this = this(alloc)?;
            boxed(
                alloc,
                Expression::Field(this, sight.environment.class, name, span),
            )
        }
    }
}

/// The number that an expression is, where it is a written one.
fn written(e: &Expr) -> Option<u64>
    ensures { result ≡ (elaborated_expression e.now).written }
{
    match &e.kind {
        ExprKind::Number(n) => Some(*n),
        _ => None,
    }
}

/// What an expression becomes.
#[cycle(expression)]
pub(crate) fn expression(
    alloc: Global,
    e: &Expr,
    sight: Sight,
) -> Result<Boxed<Expression>, NoMemory>
    ensures { IfOk result (λ x. expression_of x ≡ core_of_expression (around sight.entry) (in_scope sight.entry) e.now) }
{
    match &e.kind {
        ExprKind::Number(n) => constant(alloc, Value::Number(*n as i128)),
        ExprKind::Truth(truth) => constant(alloc, Value::Truth(*truth)),
        ExprKind::Null => constant(alloc, Value::Reference(0)),
        ExprKind::This => this(alloc),
        ExprKind::Result => outcome(alloc),
        ExprKind::Var(word) => named(alloc, word.name, e.span, sight),
        ExprKind::Field(object, word) => member(alloc, object.get(), word.name, e.span, sight),
        ExprKind::Index(array, index) => {
            let kind = elements_of(array.get(), sight);
            let array = expression(alloc, array.get(), sight)?;
            let index = expression(alloc, index.get(), sight)?;
            element(alloc, kind, array, index, e.span)
        }
        ExprKind::Not(part) => {
            let part = expression(alloc, part.get(), sight)?;
            negated(alloc, part)
        }
        ExprKind::Minus(part) => negation(alloc, part.get(), e.span, sight),
        ExprKind::Binary(operator, a, b) => {
            let a = expression(alloc, a.get(), sight)?;
            let b = expression(alloc, b.get(), sight)?;
            operation(alloc, *operator, e.span, a, b)
        }
        ExprKind::Old(part) => {
            let part = expression(alloc, part.get(), sight)?;
            old(alloc, part)
        }
        ExprKind::Perm(_, _, _, _)
        | ExprKind::Token(_, _)
        | ExprKind::Instance(_, _, _)
        | ExprKind::Each(_) => constant(alloc, Value::Number(0)),
    }
}

/// A field of an object, or the length of an array.
#[cycle(expression)]
fn member(
    alloc: Global,
    e: &Expr,
    name: Name,
    span: Span,
    sight: Sight,
) -> Result<Boxed<Expression>, NoMemory>
    ensures { IfOk result (λ x. expression_of x ≡ names.member_of (around sight.entry) span name (typing_in (checked_expression e.now) (around sight.entry) (in_scope sight.entry)) (core_of_expression (around sight.entry) (in_scope sight.entry) e.now)) }
{
    let object = expression(alloc, e, sight)?;
    let seen = holder_seen(e, sight);
    let kind = settled(seen.typing);
    if sight.environment.is_array_length(name, seen.typing) {
        boxed(alloc, Expression::Length(element_type(kind), object, span))
    } else {
        boxed(alloc, Expression::Field(object, class_of(kind), name, span))
    }
}

/// `-` before an expression.
#[cycle(expression)]
fn negation(
    alloc: Global,
    e: &Expr,
    span: Span,
    sight: Sight,
) -> Result<Boxed<Expression>, NoMemory>
    ensures { IfOk result (λ x. expression_of x ≡ operations.negation (elaborated_expression e.now).written span (core_of_expression (around sight.entry) (in_scope sight.entry) e.now)) }
{
    match written(e) {
        Some(n) => constant(alloc, Value::Number(0 - n as i128)),
        None => {
            let part = expression(alloc, e, sight)?;
            let zero = constant(alloc, Value::Number(0))?;
            computed(alloc, Operation::Minus, span, zero, part)
        }
    }
}
