//! What formulas become, and the items of which quantifiers and shared contracts are made.
ghost use Rattle.std.specs.Prelude.{◌≡◌, Some, map, IfOk, OnOk};
ghost use Rattle.std.specs.Option.{option_map};
ghost use Rattle.pv_ast.specs.declared.Each.{out-Each};
ghost use Rattle.pv_ast.specs.Rules.Expressions.{checked_expression, typing_in, with_bound};
ghost use Rattle.pv_ast.specs.Rules.Items as shapes;
ghost use Rattle.pv_picks.specs.Plain.Core as core;
ghost use Rattle.pv_picks.specs.Plain.Trees.{expression_of, expressions_of, formula_of, item_of, items_of, cut_of as cut_as};
ghost use Rattle.pv_picks.specs.Elaborating.Names as names;
ghost use Rattle.pv_picks.specs.Elaborating.Operations as operations;
ghost use Rattle.pv_picks.specs.Elaborating.Expressions as elaborating;
ghost use Rattle.pv_picks.specs.Elaborating.Expressions.{core_of_expression, elaborated_expression, elaborated_each};
ghost use Rattle.pv_plain.specs.Operators.{implies, commits};
ghost use Rattle.pv_plain.specs.Sights.{around, in_scope};

use crate::expressions::expression;
use crate::kinds::{class_at, holder_seen, settled};
use crate::operations::this;
use crate::places::{add_cuts, no_formula, no_item, permission, permissions, term_of, units_of};
use crate::sight::{Bounds, Sight};
use pv_ast::{Args, Each, Expr, ExprKind, Operator, Token};
use pv_base::{Name, NoMemory, Span};
use pv_picks::plain::{Expression, Expressions, Formula, Item};
use pv_shapes::facts::Form;
use pv_shapes::facts_of;
use sqlite_items::{Boxed, Items};
use std::alloc::Global;

fn boxed(alloc: Global, formula: Formula) -> Result<Boxed<Formula>, NoMemory>
    ensures { IfOk result (λ b. formula_of b ≡ formula_of formula) }
{
    Ok(Boxed::new(alloc, formula)?)
}

fn boxed_item(alloc: Global, item: Item) -> Result<Boxed<Item>, NoMemory>
    ensures { IfOk result (λ b. item_of b ≡ item_of item) }
{
    Ok(Boxed::new(alloc, item)?)
}

/// The span of the conjunct in which a part stands: one around it, or its own.
fn conjunct(within: Option<Span>, own: Span) -> Span
    ensures { result ≡ elaborating.conjunct within own }
{
    match within {
        Some(span) => span,
        None => own,
    }
}

/// Whether `**` or `&&` is the operator.
fn keeps_left(operator: Operator) -> bool
    ensures { result ≡ shapes.keeps_left operator }
{
    matches!(operator, Operator::And | Operator::Star)
}

fn is_implication(operator: Operator) -> bool
    ensures { result ≡ implies operator }
{
    matches!(operator, Operator::Implies)
}

fn is_committed(token: Token) -> bool
    ensures { result ≡ commits token }
{
    matches!(token, Token::Committed)
}

/// Whether a formula with this operator is one fact.
fn is_fact(within: Option<Span>, operator: Operator, e: &Expr) -> bool
    ensures { result ≡ elaborating.is_fact within operator ((shapes.shape_of e.now).facts 0).pure }
{
    facts_of(e, Name(0)).pure && (within.is_some() || !keeps_left(operator))
}

/// A pure formula.
fn fact(alloc: Global, e: &Expr, span: Span, sight: Sight) -> Result<Boxed<Formula>, NoMemory>
    ensures { IfOk result (λ f. formula_of f ≡ core.Fact (core_of_expression (around sight.entry) (in_scope sight.entry) e.now) span) }
{
    let condition = expression(alloc, e, sight)?;
    boxed(alloc, Formula::Fact(condition.into_inner(), span))
}

/// A permission of so many units.
fn permission_of(
    alloc: Global,
    e: &Expr,
    units: u64,
    span: Span,
    sight: Sight,
) -> Result<Boxed<Formula>, NoMemory>
    ensures { IfOk result (λ f. formula_of f ≡ operations.permission (names.settled (typing_in (checked_expression e.now) (around sight.entry) (in_scope sight.entry))) units span (core_of_expression (around sight.entry) (in_scope sight.entry) e.now)) }
{
    let kind = settled(holder_seen(e, sight).typing);
    let place = expression(alloc, e, sight)?;
    boxed(alloc, permission(kind, units, span, place))
}

/// A token of an object.
fn holds(
    alloc: Global,
    token: Token,
    e: &Expr,
    span: Span,
    sight: Sight,
) -> Result<Boxed<Formula>, NoMemory>
    ensures { IfOk result (λ f. formula_of f ≡ core.Holds token (names.class_at (typing_in (checked_expression e.now) (around sight.entry) (in_scope sight.entry))) (core_of_expression (around sight.entry) (in_scope sight.entry) e.now) span) }
{
    let class = class_at(e, sight);
    let object = expression(alloc, e, sight)?;
    boxed(
        alloc,
        Formula::Holds(token, class, object.into_inner(), span),
    )
}

/// What arguments become.
pub(crate) fn arguments(alloc: Global, args: &[Expr], sight: Sight) -> Result<Expressions, NoMemory>
    ensures { IfOk result (λ es. expressions_of es ≡ map (core_of_expression (around sight.entry) (in_scope sight.entry)) args.now) }
{
    let mut all = Items::new(alloc);
    for arg in args {
        let each = expression(alloc, arg, sight)?;
        all.push(each.into_inner())?;
    }
    Ok(all)
}

/// The class of what an instance stands on, and that object: `this` where none is named.
fn instance_target(
    alloc: Global,
    target: &Option<Boxed<Expr>>,
    sight: Sight,
) -> Result<(Name, Boxed<Expression>), NoMemory>
    ensures class { IfOk result (λ x. x.0 ≡ elaborating.class_of_object (option_map elaborated_expression target.now) (around sight.entry) (in_scope sight.entry)) }
    ensures object { IfOk result (λ x. expression_of x.1 ≡ elaborating.object_of (option_map elaborated_expression target.now) (around sight.entry) (in_scope sight.entry)) }
{
    match target {
        None => Ok((sight.environment.class, this(alloc)?)),
        Some(e) => Ok((class_at(e.get(), sight), expression(alloc, e.get(), sight)?)),
    }
}

/// An instance of a predicate.
fn instance(
    alloc: Global,
    target: &Option<Boxed<Expr>>,
    name: Name,
    args: &Args,
    span: Span,
    sight: Sight,
) -> Result<Boxed<Formula>, NoMemory>
    ensures { IfOk result (λ f. formula_of f ≡ core.Instance (elaborating.class_of_object (option_map elaborated_expression target.now) (around sight.entry) (in_scope sight.entry)) name (elaborating.object_of (option_map elaborated_expression target.now) (around sight.entry) (in_scope sight.entry)) (map (core_of_expression (around sight.entry) (in_scope sight.entry)) args.now) span) }
{
    let (class, object) = instance_target(alloc, target, sight)?;
    let arguments = arguments(alloc, args.as_slice(), sight)?;
    boxed(
        alloc,
        Formula::Instance(class, name, object.into_inner(), arguments, span),
    )
}

/// A condition before a formula.
fn behind(
    alloc: Global,
    condition: Boxed<Expression>,
    body: Boxed<Formula>,
    span: Span,
) -> Result<Boxed<Formula>, NoMemory>
    ensures { IfOk result (λ f. formula_of f ≡ core.When (expression_of condition) (formula_of body) span) }
{
    boxed(alloc, Formula::When(condition.into_inner(), body, span))
}

fn star(alloc: Global, a: Boxed<Formula>, b: Boxed<Formula>) -> Result<Boxed<Formula>, NoMemory>
    ensures { IfOk result (λ f. formula_of f ≡ core.Star (formula_of a) (formula_of b)) }
{
    boxed(alloc, Formula::Star(a, b))
}

/// Items at each position between two bounds.
fn for_each(
    alloc: Global,
    name: Name,
    low: Boxed<Expression>,
    high: Boxed<Expression>,
    items: Items<Item>,
    span: Span,
) -> Result<Boxed<Formula>, NoMemory>
    ensures { IfOk result (λ f. formula_of f ≡ core.Each name (expression_of low) (expression_of high) (items_of items) span) }
{
    boxed(
        alloc,
        Formula::Each(name, low.into_inner(), high.into_inner(), items, span),
    )
}

/// What stands for no formula.
fn nothing(alloc: Global, span: Span) -> Result<Boxed<Formula>, NoMemory>
    ensures { IfOk result (λ f. formula_of f ≡ operations.no_formula span) }
{
    boxed(alloc, no_formula(span))
}

/// A pure condition on each position.
fn repeated(alloc: Global, e: &Expr, span: Span, sight: Sight) -> Result<Boxed<Item>, NoMemory>
    ensures { IfOk result (λ i. item_of i ≡ core.Repeated (core_of_expression (around sight.entry) (in_scope sight.entry) e.now) span) }
{
    let condition = expression(alloc, e, sight)?;
    boxed_item(alloc, Item::Repeated(condition.into_inner(), span))
}

/// A condition behind another on each position.
fn repeated_implication(
    alloc: Global,
    a: &Expr,
    b: &Expr,
    span: Span,
    sight: Sight,
) -> Result<Boxed<Item>, NoMemory>
    ensures { IfOk result (λ i. item_of i ≡ core.Repeated (core.Implies (core_of_expression (around sight.entry) (in_scope sight.entry) a.now) (core_of_expression (around sight.entry) (in_scope sight.entry) b.now)) span) }
{
    let a = expression(alloc, a, sight)?;
    let b = expression(alloc, b, sight)?;
    boxed_item(alloc, Item::Repeated(Expression::Implies(a, b), span))
}

/// `committed` of an object, which is no other for another position.
fn committed(alloc: Global, e: &Expr, span: Span, sight: Sight) -> Result<Boxed<Item>, NoMemory>
    ensures { IfOk result (λ i. item_of i ≡ core.Committed (names.class_at (typing_in (checked_expression e.now) (around sight.entry) (in_scope sight.entry))) (core_of_expression (around sight.entry) (in_scope sight.entry) e.now) span) }
{
    let class = class_at(e, sight);
    let object = expression(alloc, e, sight)?;
    boxed_item(alloc, Item::Committed(class, object.into_inner(), span))
}

/// A permission of so many units for the elements at the positions.
fn shifted(
    alloc: Global,
    e: &Expr,
    units: u64,
    span: Span,
    name: Name,
    sight: Sight,
) -> Result<Boxed<Item>, NoMemory>
    ensures { IfOk result (λ i. item_of i ≡ elaborating.shifted ((shapes.shape_of e.now).facts name.0).form units span (core_of_expression (around sight.entry) (in_scope sight.entry) e.now)) }
{
    match facts_of(e, name).form {
        Form::Element(shift) => {
            let place = expression(alloc, e, sight)?;
            boxed_item(alloc, permissions(shift, units, span, place))
        }
        _ => boxed_item(alloc, no_item(span)),
    }
}

/// An item under guards.
fn guarded(
    alloc: Global,
    name: Name,
    guard: Boxed<Expression>,
    item: Boxed<Item>,
    span: Span,
) -> Result<Boxed<Item>, NoMemory>
    ensures { IfOk result (λ i. item_of i ≡ core.Guarded (operations.cuts_of name (expression_of guard)) (item_of item) span) }
{
    let mut cuts = Items::new(alloc);
    add_cuts(&mut cuts, name, guard)?;
    boxed_item(alloc, Item::Guarded(cuts, item, span))
}

fn alone(alloc: Global, item: Boxed<Item>) -> Result<Items<Item>, NoMemory>
    ensures { IfOk result (λ is. items_of is ≡ elaborating.alone (item_of item)) }
{
    let mut all = Items::new(alloc);
    all.push(item.into_inner())?;
    Ok(all)
}

fn together(mut first: Items<Item>, second: Items<Item>) -> Result<Items<Item>, NoMemory>
    ensures { IfOk result (λ is. items_of is ≡ elaborating.together (items_of first) (items_of second)) }
{
    first.append(second)?;
    Ok(first)
}

/// A formula at one position.
fn fixed(
    alloc: Global,
    equation: Boxed<Expression>,
    body: Boxed<Formula>,
    span: Span,
) -> Result<Boxed<Item>, NoMemory>
    ensures { IfOk result (λ i. item_of i ≡ core.Fixed (operations.term_of (expression_of equation)) (formula_of body) span) }
{
    boxed_item(alloc, Item::Fixed(term_of(equation), body, span))
}

/// What a formula becomes, in a conjunct around it or with conjuncts of its own.
#[cycle(formula)]
pub(crate) fn formula(
    alloc: Global,
    e: &Expr,
    within: Option<Span>,
    sight: Sight,
) -> Result<Boxed<Formula>, NoMemory>
    ensures { IfOk result (λ f. formula_of f ≡ (elaborated_expression e.now).formula within (around sight.entry) (in_scope sight.entry)) }
{
    let span = conjunct(within, e.span);
    match &e.kind {
        ExprKind::Binary(operator, a, b) => {
            if is_fact(within, *operator, e) {
                fact(alloc, e, span, sight)
            } else if keeps_left(*operator) {
                let a = formula(alloc, a.get(), within, sight)?;
                let b = formula(alloc, b.get(), within, sight)?;
                star(alloc, a, b)
            } else if is_implication(*operator) {
                let condition = expression(alloc, a.get(), sight)?;
                let body = formula(alloc, b.get(), Some(span), sight)?;
                behind(alloc, condition, body, span)
            } else {
                nothing(alloc, span)
            }
        }
        ExprKind::Perm(place, part, whole, _) => {
            permission_of(alloc, place.get(), units_of(*part, *whole), span, sight)
        }
        ExprKind::Token(token, object) => holds(alloc, *token, object.get(), span, sight),
        ExprKind::Instance(target, word, args) => {
            instance(alloc, target, word.name, args, span, sight)
        }
        ExprKind::Each(each) => quantified(alloc, each, span, sight),
        _ => fact(alloc, e, span, sight),
    }
}

/// A quantified formula.
#[cycle(formula)]
fn quantified(
    alloc: Global,
    each: &Each,
    span: Span,
    sight: Sight,
) -> Result<Boxed<Formula>, NoMemory>
    ensures { IfOk result (λ f. formula_of f ≡ (elaborated_each each.now).formula span (around sight.entry) (in_scope sight.entry)) }
{
    let low = expression(alloc, each.low.get(), sight)?;
    let high = expression(alloc, each.high.get(), sight)?;
    let items = quantified_items(alloc, each, span, sight)?;
    for_each(alloc, each.name.name, low, high, items, span)
}

/// The items of a quantified formula. Its variable is in scope there.
#[cycle(formula)]
fn quantified_items(
    alloc: Global,
    each: &Each,
    span: Span,
    sight: Sight,
) -> Result<Items<Item>, NoMemory>
    ensures { IfOk result (λ is. items_of is ≡ (elaborated_expression (out-Each each.now).body).items (out-Each each.now).name.name (Some span) (around sight.entry) (with_bound (in_scope sight.entry) (out-Each each.now).name)) }
{
    let inner = Bounds {
        name: each.name.name,
        outer: sight.bounds,
    };
    let below = sight.under(&inner);
    items(alloc, each.body.get(), each.name.name, Some(span), below)
}

/// The items that a formula becomes.
#[cycle(formula)]
pub(crate) fn items(
    alloc: Global,
    e: &Expr,
    name: Name,
    within: Option<Span>,
    sight: Sight,
) -> Result<Items<Item>, NoMemory>
    ensures { IfOk result (λ is. items_of is ≡ (elaborated_expression e.now).items name within (around sight.entry) (in_scope sight.entry)) }
{
    match &e.kind {
        ExprKind::Binary(operator, a, b) => {
            if keeps_left(*operator) {
                let first = items(alloc, a.get(), name, within, sight)?;
                let second = items(alloc, b.get(), name, within, sight)?;
                together(first, second)
            } else {
                alone(alloc, item(alloc, e, name, within, sight)?)
            }
        }
        _ => alone(alloc, item(alloc, e, name, within, sight)?),
    }
}

/// What a formula becomes that is one item.
#[cycle(formula)]
fn item(
    alloc: Global,
    e: &Expr,
    name: Name,
    within: Option<Span>,
    sight: Sight,
) -> Result<Boxed<Item>, NoMemory>
    ensures { IfOk result (λ i. item_of i ≡ (elaborated_expression e.now).item name within (around sight.entry) (in_scope sight.entry)) }
{
    let span = conjunct(within, e.span);
    match &e.kind {
        ExprKind::Binary(operator, a, b) => {
            let form = facts_of(a.get(), name).form;
            if !is_implication(*operator) {
                repeated(alloc, e, span, sight)
            } else if form.is_fixing() {
                let equation = expression(alloc, a.get(), sight)?;
                let body = formula(alloc, b.get(), Some(span), sight)?;
                fixed(alloc, equation, body, span)
            } else if form.is_guard() {
                let guard = expression(alloc, a.get(), sight)?;
                let item = item(alloc, b.get(), name, Some(span), sight)?;
                guarded(alloc, name, guard, item, span)
            } else {
                repeated_implication(alloc, a.get(), b.get(), span, sight)
            }
        }
        ExprKind::Perm(place, part, whole, _) => {
            let units = units_of(*part, *whole);
            shifted(alloc, place.get(), units, span, name, sight)
        }
        ExprKind::Token(token, object) => {
            if is_committed(*token) {
                committed(alloc, object.get(), span, sight)
            } else {
                repeated(alloc, e, span, sight)
            }
        }
        _ => repeated(alloc, e, span, sight),
    }
}
