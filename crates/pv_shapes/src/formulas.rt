ghost use Rattle.std.specs.Prelude.{◌≡◌, is_some, Option};
ghost use Rattle.pv_ast.specs.Rules.Items as items;
ghost use Rattle.pv_ast.specs.Rules.Shapes as shapes;
ghost use Rattle.pv_shapes.specs.Seen.{facts_as, whole_as};

use crate::facts::{Facts, Form, has_variable_and_term, is_token_item};
use crate::firsts::earlier;
use crate::quantifiers::quantifier_in;
use crate::uses::{uses_in_any, uses_in_each, uses_in_option};
use pv_ast::{Each, Expr, ExprKind, Operator, ShapeFault, Token};
use pv_base::{Name, Span};

/// What holds the parts that must be items: the body of a `\forall*`, the body of a `\forall`, or a clause of a block, a loop
/// or a barrier, or a message.
#[derive(Clone, Copy, Drop)]
pub(crate) enum Whole {
    StarBody,
    TruthBody,
    Clause,
}

impl Whole {
    fn of_body(star: bool) -> Whole
        ensures { whole_as result ≡ items.body_of star }
    {
        if star {
            Whole::StarBody
        } else {
            Whole::TruthBody
        }
    }

    /// Whether parts are joined by an operator.
    fn joins(self, operator: Operator) -> bool
        ensures { result ≡ items.joins (whole_as self) operator }
    {
        match operator {
            Operator::And => true,
            Operator::Star => !matches!(self, Whole::TruthBody),
            _ => false,
        }
    }

    /// What is wrong with a part that isn't joined of others, if anything is.
    fn fault_of_part(self, span: Span, seen: Seen) -> Option<ShapeFault>
        ensures { result ≡ shapes.first_of (items.fault_unless (items.is_part (whole_as self) seen.is_item seen.facts.truth) (items.fault_at (whole_as self) span)) }
    {
        match self {
            Whole::StarBody if !seen.is_item => Some(ShapeFault::QuantifierShape(span)),
            Whole::TruthBody if !(seen.is_item && seen.facts.truth) => {
                Some(ShapeFault::QuantifierShape(span))
            }
            Whole::Clause if !seen.is_item => Some(ShapeFault::ItemShape(span)),
            _ => None,
        }
    }
}

/// What an expression shows of a variable, and whether it is an item for it.
#[derive(Clone, Copy, Drop)]
pub(crate) struct Seen {
    facts: Facts,
    is_item: bool,
}

impl Seen {
    /// Of what is an item only by being pure.
    fn of(facts: Facts) -> Seen
        ensures facts { facts_as result.facts ≡ facts_as facts }
        ensures item { result.is_item ≡ is_some (items.item_of_pure (facts_as facts)) }
    {
        Seen {
            facts,
            is_item: facts.is_pure_item(),
        }
    }

    /// Of a permission for a location that shows these.
    fn of_location(location: Facts) -> Seen
        ensures facts { facts_as result.facts ≡ items.facts_of_resource (items.is_used (facts_as location).uses) }
        ensures item { result.is_item ≡ is_some (items.item_of_location (facts_as location).form) }
    {
        Seen {
            facts: Facts::of_resource(location.uses.any()),
            is_item: location.form.is_element(),
        }
    }

    /// Of a token of an operand that shows these.
    fn of_token(token: Token, operand: Facts) -> Seen
        ensures facts { facts_as result.facts ≡ items.facts_of_resource (items.is_used (facts_as operand).uses) }
        ensures item { result.is_item ≡ is_some (items.item_of_token token (facts_as operand)) }
    {
        Seen {
            facts: Facts::of_resource(operand.uses.any()),
            is_item: is_token_item(token, operand),
        }
    }
}

/// What an expression shows of a variable.
pub fn facts_of(e: &Expr, name: Name) -> Facts
    ensures { facts_as result ≡ (items.shape_of e.now).facts name.0 }
{
    look(e, name).facts
}

/// What an expression shows of a variable, and whether it is an item for it.
#[cycle(shapes)]
fn look(e: &Expr, name: Name) -> Seen
    ensures facts { facts_as result.facts ≡ (items.shape_of e.now).facts name.0 }
    ensures item { result.is_item ≡ is_some ((items.shape_of e.now).item name.0) }
{
    look_in(&e.kind, name)
}

#[cycle(shapes)]
fn look_in(kind: &ExprKind, name: Name) -> Seen
    ensures facts { facts_as result.facts ≡ (items.shape_of_kind kind.now).facts name.0 }
    ensures item { result.is_item ≡ is_some ((items.shape_of_kind kind.now).item name.0) }
{
    match kind {
        ExprKind::Number(n) => Seen::of(Facts::of_word(Form::Literal(*n))),
        ExprKind::Truth(_) | ExprKind::Null | ExprKind::This | ExprKind::Result => {
            Seen::of(Facts::of_word(Form::Other))
        }
        ExprKind::Var(word) => Seen::of(Facts::of_variable(word.name.0 == name.0)),
        ExprKind::Field(e, _) | ExprKind::Not(e) | ExprKind::Minus(e) | ExprKind::Old(e) => {
            Seen::of(look(e.get(), name).facts.environment())
        }
        ExprKind::Index(array, index) => {
            let array = look(array.get(), name).facts;
            Seen::of(Facts::of_element(array, look(index.get(), name).facts))
        }
        ExprKind::Binary(operator, a, b) => {
            let left = look(a.get(), name).facts;
            let right = look(b.get(), name);
            let facts = Facts::of_operator(*operator, left, right.facts);
            let is_item = facts.is_pure_item() || is_operator_item(*operator, left, right, b.get());
            Seen { facts, is_item }
        }
        ExprKind::Perm(e, _, _, _) => Seen::of_location(look(e.get(), name).facts),
        ExprKind::Token(token, e) => Seen::of_token(*token, look(e.get(), name).facts),
        ExprKind::Instance(target, _, args) => {
            let used = uses_in_option(target, name) || uses_in_any(args.as_slice(), name);
            Seen::of(Facts::of_resource(used))
        }
        ExprKind::Each(each) => {
            Seen::of(Facts::of_quantifier(each.star, uses_in_each(each, name)))
        }
    }
}

/// Whether an operator makes an item, by what both sides show and the formula on the right.
#[cycle(shapes)]
fn is_operator_item(operator: Operator, left: Facts, right: Seen, formula: &Expr) -> bool
    ensures { (item : Option items.Item) → right.is_item ≡ is_some item → result ≡ is_some (items.item_of_operator operator (facts_as left) (facts_as right.facts) item (items.shape_of formula.now).faults) }
{
    match operator {
        Operator::Eq | Operator::Ne | Operator::Lt | Operator::Le | Operator::Gt | Operator::Ge =>
            has_variable_and_term(left, right.facts),
        Operator::Implies if left.form.is_guard() => right.is_item,
        Operator::Implies => {
            left.form.is_fixing() && right.facts.is_term() && fault_of_formula(formula).is_none()
        }
        Operator::Add
        | Operator::Sub
        | Operator::Mul
        | Operator::And
        | Operator::Or
        | Operator::Star => false,
    }
}

/// Whether a quantifier may stand on the left of an operator, in a place where it may stand.
fn keeps_left(operator: Operator) -> bool
    ensures { result ≡ items.keeps_left operator }
{
    matches!(operator, Operator::And | Operator::Star)
}

/// Whether a quantifier may stand on the right of an operator, in a place where it may stand.
fn keeps_right(operator: Operator) -> bool
    ensures { result ≡ items.keeps_right operator }
{
    matches!(operator, Operator::And | Operator::Star | Operator::Implies)
}

/// The first fault of a formula in which quantifiers may stand.
#[cycle(shapes)]
pub(crate) fn fault_of_formula(e: &Expr) -> Option<ShapeFault>
    ensures { result ≡ shapes.first_of (shapes.faults_of_formula e.now) }
{
    match &e.kind {
        ExprKind::Binary(operator, a, b) => earlier(
            fault_where(keeps_left(*operator), a.get()),
            fault_where(keeps_right(*operator), b.get()),
        ),
        ExprKind::Each(each) => fault_of_quantifier(each),
        _ => quantifier_in(e),
    }
}

/// The first fault of a formula in which quantifiers may stand, or may not.
#[cycle(shapes)]
fn fault_where(right_place: bool, e: &Expr) -> Option<ShapeFault>
    ensures { result ≡ shapes.first_of (items.faults_where right_place (items.shape_of e.now)) }
{
    if right_place {
        fault_of_formula(e)
    } else {
        quantifier_in(e)
    }
}

/// The first fault of a quantifier in a right place.
#[cycle(shapes)]
fn fault_of_quantifier(each: &Each) -> Option<ShapeFault>
    ensures { result ≡ shapes.first_of (items.shape_of_each each.now).faults }
{
    let bounds = earlier(
        quantifier_in(each.low.get()),
        quantifier_in(each.high.get()),
    );
    let whole = Whole::of_body(each.star);
    earlier(
        bounds,
        fault_of_parts(each.body.get(), whole, each.name.name),
    )
}

/// The first part of which an expression is joined that is no item for a variable.
#[cycle(shapes)]
pub(crate) fn fault_of_parts(e: &Expr, whole: Whole, name: Name) -> Option<ShapeFault>
    ensures { result ≡ shapes.first_of ((items.shape_of e.now).parts (whole_as whole) name.0) }
{
    match &e.kind {
        ExprKind::Binary(operator, a, b) if whole.joins(*operator) => earlier(
            fault_of_parts(a.get(), whole, name),
            fault_of_parts(b.get(), whole, name),
        ),
        _ => whole.fault_of_part(e.span, look(e, name)),
    }
}
