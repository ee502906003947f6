ghost use Rattle.std.specs.Prelude.{◌≡◌, ◌++◌};
ghost use Rattle.pv_ast.specs.Rules.Shapes as shapes;

use crate::firsts::earlier;
use crate::quantifiers::{quantifier_in, quantifier_in_all};
use pv_ast::{Expr, Range, Right, RightKind, ShapeFault};

/// The first quantifier in an expression that may be left out.
pub(crate) fn quantifier_in_option(e: &Option<Expr>) -> Option<ShapeFault>
    ensures { result ≡ shapes.first_of (shapes.quantifiers_in_option e.now) }
{
    match e {
        None => None,
        Some(e) => quantifier_in(e),
    }
}

/// The first quantifier in a call or in what is folded.
#[tactic(auto, using(crate::proofs::Order::first_append))]
pub(crate) fn quantifier_in_call(target: &Option<Expr>, args: &[Expr]) -> Option<ShapeFault>
    ensures { result ≡ shapes.first_of (shapes.quantifiers_in_option target.now ++ shapes.quantifiers_in_all args.now) }
{
    earlier(quantifier_in_option(target), quantifier_in_all(args))
}

/// The first quantifier in a right side.
pub(crate) fn quantifier_in_right(right: &Right) -> Option<ShapeFault>
    ensures { result ≡ shapes.first_of (shapes.quantifiers_in_right right.now) }
{
    match &right.kind {
        RightKind::Value(e) => quantifier_in(e),
        RightKind::Call(target, _, args) => quantifier_in_call(target, args.as_slice()),
        RightKind::NewObject(_) => None,
        RightKind::NewArray(_, length) => quantifier_in(length),
    }
}

/// The first quantifier in the value of a declaration, if it has one.
pub(crate) fn quantifier_in_first_value(value: &Option<Right>) -> Option<ShapeFault>
    ensures { result ≡ shapes.first_of (shapes.quantifiers_in_right_option value.now) }
{
    match value {
        None => None,
        Some(value) => quantifier_in_right(value),
    }
}

/// The first quantifier in the bounds of a range.
#[tactic(auto, using(crate::proofs::Order::first_append))]
pub(crate) fn quantifier_in_range(range: &Range) -> Option<ShapeFault>
    ensures { result ≡ shapes.first_of (shapes.quantifiers_in_range range.now) }
{
    earlier(quantifier_in(&range.low), quantifier_in(&range.high))
}
