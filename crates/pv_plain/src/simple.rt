//! What statements become that have no statements inside.
ghost use Rattle.std.specs.Prelude.{◌≡◌, map, IfOk};
ghost use Rattle.std.specs.Option.{option_map};
ghost use Rattle.pv_picks.specs.Plain.Core as core;
ghost use Rattle.pv_picks.specs.Plain.Trees.{expression_of, right_of, message_of as message_as, statement_of, action_of};
ghost use Rattle.pv_picks.specs.Elaborating.Expressions as expressions;
ghost use Rattle.pv_picks.specs.Elaborating.Expressions.{core_of_expression, core_of_formula, elaborated_expression};
ghost use Rattle.pv_picks.specs.Elaborating.Statements as elaborating;
ghost use Rattle.pv_plain.specs.Sights.{around, in_scope};
ghost use Rattle.pv_plain.specs.Sites.{messages_of, way_of};
ghost use Rattle.pv_picks.specs.Formulas.Values.{default_of as first_of};

use crate::contracts::shared;
use crate::expressions::expression;
use crate::formulas::{arguments, formula};
use crate::kinds::class_at;
use crate::operations::this;
use crate::places::{no_formula, target_of};
use crate::sending::Sent;
use crate::sight::Sight;
use crate::site::{Way, listed};
use pv_ast::{Args, Contract, Expr, PvType, Right as Written, RightKind};
use pv_base::{Name, NoMemory, Span};
use pv_picks::plain::{Action, Barrier, Expression, Message, Right, Statement, Target};
use pv_values::Value;
use sqlite_items::Boxed;
use std::alloc::Global;

pub(crate) fn boxed(alloc: Global, statement: Statement) -> Result<Boxed<Statement>, NoMemory>
    ensures { IfOk result (λ b. statement_of b ≡ statement_of statement) }
{
    Ok(Boxed::new(alloc, statement)?)
}

/// What stands before the name of a method or predicate: its class, and the object, which is `this` where none is named.
fn target(
    alloc: Global,
    object: &Option<Expr>,
    sight: Sight,
) -> Result<(Name, Boxed<Expression>), NoMemory>
    ensures class { IfOk result (λ x. x.0 ≡ expressions.class_of_object (option_map elaborated_expression object.now) (around sight.entry) (in_scope sight.entry)) }
    ensures object { IfOk result (λ x. expression_of x.1 ≡ expressions.object_of (option_map elaborated_expression object.now) (around sight.entry) (in_scope sight.entry)) }
{
    match object {
        None => Ok((sight.environment.class, this(alloc)?)),
        Some(e) => Ok((class_at(e, sight), expression(alloc, e, sight)?)),
    }
}

/// A call of a method.
fn call(
    alloc: Global,
    object: &Option<Expr>,
    name: Name,
    args: &Args,
    sight: Sight,
) -> Result<Right, NoMemory>
    ensures { IfOk result (λ r. right_of r ≡ core.Call (expressions.class_of_object (option_map elaborated_expression object.now) (around sight.entry) (in_scope sight.entry)) name (expressions.object_of (option_map elaborated_expression object.now) (around sight.entry) (in_scope sight.entry)) (map (core_of_expression (around sight.entry) (in_scope sight.entry)) args.now)) }
{
    let (class, object) = target(alloc, object, sight)?;
    let arguments = arguments(alloc, args.as_slice(), sight)?;
    Ok(Right::Call(class, name, object.into_inner(), arguments))
}

/// What a right side becomes.
#[tactic(auto, using(crate::proofs::Conjuncts::arguments_each))]
fn right(alloc: Global, written: &Written, sight: Sight) -> Result<Right, NoMemory>
    ensures { IfOk result (λ r. right_of r ≡ elaborating.core_of_right (around sight.entry) (in_scope sight.entry) written.now) }
{
    match &written.kind {
        RightKind::Value(e) => Ok(Right::Value(expression(alloc, e, sight)?.into_inner())),
        RightKind::Call(object, word, args) => call(alloc, object, word.name, args, sight),
        RightKind::NewObject(word) => Ok(Right::NewObject(word.name)),
        RightKind::NewArray(kind, length) => {
            let length = expression(alloc, length, sight)?;
            Ok(Right::NewArray(kind.kind, length.into_inner()))
        }
    }
}

/// The value that a variable or a field of a type begins with.
fn default_of(kind: PvType) -> Value
    ensures { result ≡ first_of kind }
{
    match kind {
        PvType::Int => Value::Number(0),
        PvType::Truth => Value::Truth(false),
        _ => Value::Reference(0),
    }
}

/// The first value of a local.
fn first_value(
    alloc: Global,
    kind: PvType,
    value: &Option<Written>,
    sight: Sight,
) -> Result<Right, NoMemory>
    ensures { IfOk result (λ r. right_of r ≡ elaborating.first_value (around sight.entry) (in_scope sight.entry) kind value.now) }
{
    match value {
        None => Ok(Right::Value(Expression::Constant(default_of(kind)))),
        Some(written) => right(alloc, written, sight),
    }
}

/// A local with its first value.
pub(crate) fn local(
    alloc: Global,
    name: Name,
    kind: PvType,
    value: &Option<Written>,
    span: Span,
    sight: Sight,
) -> Result<Boxed<Statement>, NoMemory>
    ensures { IfOk result (λ s. statement_of s ≡ core.Assign (core.ToVariable name) (elaborating.first_value (around sight.entry) (in_scope sight.entry) kind value.now) span) }
{
    let value = first_value(alloc, kind, value, sight)?;
    boxed(
        alloc,
        Statement::Assign(Target::ToVariable(name), value, span),
    )
}

pub(crate) fn assign(
    alloc: Global,
    place: &Expr,
    value: &Written,
    span: Span,
    sight: Sight,
) -> Result<Boxed<Statement>, NoMemory>
    ensures { IfOk result (λ s. statement_of s ≡ core.Assign (elaborating.core_of_target (around sight.entry) (in_scope sight.entry) place.now) (elaborating.core_of_right (around sight.entry) (in_scope sight.entry) value.now) span) }
{
    let place = expression(alloc, place, sight)?;
    let value = right(alloc, value, sight)?;
    boxed(alloc, Statement::Assign(target_of(place), value, span))
}

/// A call that is a statement.
pub(crate) fn call_alone(
    alloc: Global,
    object: &Option<Expr>,
    name: Name,
    args: &Args,
    span: Span,
    sight: Sight,
) -> Result<Boxed<Statement>, NoMemory>
    ensures { IfOk result (λ s. statement_of s ≡ core.Assign core.Nowhere (core.Call (expressions.class_of_object (option_map elaborated_expression object.now) (around sight.entry) (in_scope sight.entry)) name (expressions.object_of (option_map elaborated_expression object.now) (around sight.entry) (in_scope sight.entry)) (map (core_of_expression (around sight.entry) (in_scope sight.entry)) args.now)) span) }
{
    let value = call(alloc, object, name, args, sight)?;
    boxed(alloc, Statement::Assign(Target::Nowhere, value, span))
}

/// What is done with an object.
pub(crate) fn act(
    alloc: Global,
    action: Action,
    e: &Expr,
    span: Span,
    sight: Sight,
) -> Result<Boxed<Statement>, NoMemory>
    ensures { IfOk result (λ s. statement_of s ≡ elaborating.core_of_action (action_of action) span (around sight.entry) (in_scope sight.entry) e.now) }
{
    let class = class_at(e, sight);
    let object = expression(alloc, e, sight)?;
    acted(alloc, action, class, object, span)
}

/// An action on an object of a class.
fn acted(
    alloc: Global,
    action: Action,
    class: Name,
    object: Boxed<Expression>,
    span: Span,
) -> Result<Boxed<Statement>, NoMemory>
    ensures { IfOk result (λ s. statement_of s ≡ core.Act (action_of action) class (expression_of object) span) }
{
    boxed(
        alloc,
        Statement::Act(action, class, object.into_inner(), span),
    )
}

pub(crate) fn fold(
    alloc: Global,
    object: &Option<Expr>,
    name: Name,
    args: &Args,
    span: Span,
    sight: Sight,
) -> Result<Boxed<Statement>, NoMemory>
    ensures { IfOk result (λ s. statement_of s ≡ core.Fold (expressions.class_of_object (option_map elaborated_expression object.now) (around sight.entry) (in_scope sight.entry)) name (expressions.object_of (option_map elaborated_expression object.now) (around sight.entry) (in_scope sight.entry)) (map (core_of_expression (around sight.entry) (in_scope sight.entry)) args.now) span) }
{
    let (class, object) = target(alloc, object, sight)?;
    let arguments = arguments(alloc, args.as_slice(), sight)?;
    boxed(
        alloc,
        Statement::Fold(class, name, object.into_inner(), arguments, span),
    )
}

pub(crate) fn unfold(
    alloc: Global,
    object: &Option<Expr>,
    name: Name,
    args: &Args,
    span: Span,
    sight: Sight,
) -> Result<Boxed<Statement>, NoMemory>
    ensures { IfOk result (λ s. statement_of s ≡ core.Unfold (expressions.class_of_object (option_map elaborated_expression object.now) (around sight.entry) (in_scope sight.entry)) name (expressions.object_of (option_map elaborated_expression object.now) (around sight.entry) (in_scope sight.entry)) (map (core_of_expression (around sight.entry) (in_scope sight.entry)) args.now) span) }
{
    let (class, object) = target(alloc, object, sight)?;
    let arguments = arguments(alloc, args.as_slice(), sight)?;
    boxed(
        alloc,
        Statement::Unfold(class, name, object.into_inner(), arguments, span),
    )
}

pub(crate) fn assert(
    alloc: Global,
    e: &Expr,
    span: Span,
    sight: Sight,
) -> Result<Boxed<Statement>, NoMemory>
    ensures { IfOk result (λ s. statement_of s ≡ core.Assert (core_of_formula (around sight.entry) (in_scope sight.entry) e.now) span) }
{
    let e = formula(alloc, e, None, sight)?;
    boxed(alloc, Statement::Assert(e.into_inner(), span))
}

/// A message, where these names are in scope.
fn message(
    alloc: Global,
    label: Name,
    distance: u64,
    e: &Expr,
    sight: Sight,
) -> Result<Message, NoMemory>
    ensures { IfOk result (λ m. message_as m ≡ record { label = label; distance = distance; formula = core_of_formula (around sight.entry) (in_scope sight.entry) e.now }) }
{
    let formula = formula(alloc, e, None, sight)?;
    Ok(Message {
        label,
        distance,
        formula: formula.into_inner(),
    })
}

pub(crate) fn send(
    alloc: Global,
    label: Name,
    distance: u64,
    e: &Expr,
    span: Span,
    sight: Sight,
) -> Result<Boxed<Statement>, NoMemory>
    ensures { IfOk result (λ s. statement_of s ≡ core.Send (record { label = label; distance = distance; formula = core_of_formula (around sight.entry) (in_scope sight.entry) e.now }) span) }
{
    let message = message(alloc, label, distance, e, sight)?;
    boxed(alloc, Statement::Send(message, span))
}

/// The first message under a label that is sent.
fn message_under(
    alloc: Global,
    sent: &[Sent],
    label: Name,
    sight: Sight,
) -> Result<Message, NoMemory>
    ensures { IfOk result (λ m. message_as m ≡ elaborating.message_of (messages_of (around sight.entry) (in_scope sight.entry) sent.now) label) }
{
    for each in sent {
        if label.0 == each.label.0 {
            return message(alloc, each.label, each.distance, each.formula, sight);
        }
    }
    let span = Span { from: 0, to: 0 };
    Ok(Message {
        label,
        distance: 0,
        formula: no_formula(span),
    })
}

pub(crate) fn receive(
    alloc: Global,
    sent: &[Sent],
    label: Name,
    span: Span,
    sight: Sight,
) -> Result<Boxed<Statement>, NoMemory>
    ensures { IfOk result (λ s. statement_of s ≡ core.Receive (elaborating.message_of (messages_of (around sight.entry) (in_scope sight.entry) sent.now) label) span) }
{
    let message = message_under(alloc, sent, label, sight)?;
    boxed(alloc, Statement::Receive(message, span))
}

pub(crate) fn give_back(
    alloc: Global,
    value: &Option<Expr>,
    span: Span,
    sight: Sight,
) -> Result<Boxed<Statement>, NoMemory>
    ensures { IfOk result (λ s. statement_of s ≡ core.Return (option_map (core_of_expression (around sight.entry) (in_scope sight.entry)) value.now) span) }
{
    match value {
        None => boxed(alloc, Statement::Return(None, span)),
        Some(e) => {
            let value = expression(alloc, e, sight)?;
            boxed(alloc, Statement::Return(Some(value.into_inner()), span))
        }
    }
}

/// A barrier of the members with this loop variable.
pub(crate) fn meet(
    alloc: Global,
    contract: &Contract,
    name: Name,
    way: Option<&Way>,
    span: Span,
    sight: Sight,
) -> Result<Boxed<Statement>, NoMemory>
    ensures { IfOk result (λ s. statement_of s ≡ core.Meet (record { place = way_of way.entry; shared = elaborating.core_of_shared name (around sight.entry) (in_scope sight.entry) contract.now }) span) }
{
    let place = listed(alloc, way)?;
    let shared = shared(alloc, contract, name, sight)?;
    boxed(alloc, Statement::Meet(Barrier { place, shared }, span))
}
