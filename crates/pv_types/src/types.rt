ghost use Rattle.std.specs.Prelude.{◌≡◌, ◌&&◌, ◌||◌, not, if◌then◌else◌};
ghost use Rattle.pv_ast.specs.Rules.Faults.{least};
ghost use Rattle.pv_ast.specs.Rules.Typing as typing;
ghost use Rattle.pv_ast.specs.Rules.Statements.{need_like as need_like_of, need_of_result as need_of_result_of, typing_of_array};

use crate::noting::{note, note_unless};
use pv_ast::{Fault, Need, Operator, PvType, Rule, Typing};
use pv_base::Span;

fn is_array(kind: PvType) -> bool
    ensures { result ≡ typing.is_array kind }
{
    matches!(kind, PvType::IntArray | PvType::TruthArray)
}

fn is_object(kind: PvType) -> bool
    ensures { result ≡ typing.is_object kind }
{
    matches!(kind, PvType::Object(_))
}

fn is_null(kind: PvType) -> bool
    ensures { result ≡ typing.is_null kind }
{
    matches!(kind, PvType::Null)
}

fn same_type(one: PvType, other: PvType) -> bool
    ensures { result ≡ typing.same_type one other }
{
    match one {
        PvType::Int => matches!(other, PvType::Int),
        PvType::Truth => matches!(other, PvType::Truth),
        PvType::Object(name) => match other {
            PvType::Object(second) => name.0 == second.0,
            _ => false,
        },
        PvType::IntArray => matches!(other, PvType::IntArray),
        PvType::TruthArray => matches!(other, PvType::TruthArray),
        PvType::Null => matches!(other, PvType::Null),
    }
}

/// Whether a type may stand where one is needed: `null` may where a class or array type is.
fn fits(need: PvType, kind: PvType) -> bool
    ensures { result ≡ typing.fits need kind }
{
    same_type(need, kind) || (is_null(kind) && (is_object(need) || is_array(need)))
}

fn accepts(need: Need, kind: PvType) -> bool
    ensures { result ≡ typing.accepts need kind }
{
    match need {
        Need::Anything => true,
        Need::Exactly(needed) => fits(needed, kind),
        Need::AnObject => is_object(kind),
        Need::AnArray => is_array(kind),
        Need::AnObjectOrArray => is_object(kind) || is_array(kind),
    }
}

/// Whether a part has a type, and one that is needed.
pub fn meets(need: Need, found: Typing) -> bool
    ensures { result ≡ typing.meets need found }
{
    match found {
        Typing::Unsettled => false,
        Typing::Untyped => false,
        Typing::Typed(kind) => accepts(need, kind),
    }
}

/// Notes that a part whose own parts are as they must be has no type, or not the one that is needed.
pub fn note_wrong_type(need: Need, found: Typing, first: &mut Option<Fault>, span: Span)
    ensures { first.new ≡ least first.old (typing.wrong_type need found span) }
{
    match found {
        Typing::Unsettled => {}
        Typing::Untyped => note(first, Rule::WrongType, span),
        Typing::Typed(kind) => note_unless(accepts(need, kind), first, Rule::WrongType, span),
    }
}

/// A type, where what it needs is there.
pub fn typed_if(needed: bool, kind: PvType) -> Typing
    ensures { result ≡ typing.typed_if needed kind }
{
    if needed {
        Typing::Typed(kind)
    } else {
        Typing::Unsettled
    }
}

/// The type of a part, or what stands for want of one.
pub fn typing_or(otherwise: Typing, kind: Option<PvType>) -> Typing
    ensures { result ≡ typing.typing_or otherwise kind }
{
    match kind {
        None => otherwise,
        Some(kind) => Typing::Typed(kind),
    }
}

/// The type, where there is one.
pub fn type_of_typing(found: Typing) -> Option<PvType>
    ensures { result ≡ typing.type_of_typing found }
{
    match found {
        Typing::Unsettled => None,
        Typing::Untyped => None,
        Typing::Typed(kind) => Some(kind),
    }
}

/// The type of `==` and `!=`: two operands are comparable where one may stand where the other is needed.
fn typing_of_equality(one: Typing, other: Typing) -> Typing
    ensures { result ≡ typing.typing_of_equality one other }
{
    match one {
        Typing::Typed(first) => match other {
            Typing::Typed(second) => {
                if fits(first, second) || fits(second, first) {
                    Typing::Typed(PvType::Truth)
                } else {
                    Typing::Untyped
                }
            }
            Typing::Unsettled => Typing::Unsettled,
            Typing::Untyped => Typing::Unsettled,
        },
        Typing::Unsettled => Typing::Unsettled,
        Typing::Untyped => Typing::Unsettled,
    }
}

/// What each operand of an operator needs.
pub fn need_of_operator(operator: Operator) -> Need
    ensures { result ≡ typing.need_of_operator operator }
{
    match operator {
        Operator::Add | Operator::Sub | Operator::Mul => Need::Exactly(PvType::Int),
        Operator::Lt | Operator::Le | Operator::Gt | Operator::Ge => Need::Exactly(PvType::Int),
        Operator::Eq | Operator::Ne => Need::Anything,
        Operator::And | Operator::Or => Need::Exactly(PvType::Truth),
        Operator::Implies | Operator::Star => Need::Exactly(PvType::Truth),
    }
}

/// The type of an operator over operands of such types.
pub fn typing_of_operator(operator: Operator, one: Typing, other: Typing) -> Typing
    ensures { result ≡ typing.typing_of_operator operator one other }
{
    let numbers = meets(Need::Exactly(PvType::Int), one)
        && meets(Need::Exactly(PvType::Int), other);
    let truths = meets(Need::Exactly(PvType::Truth), one)
        && meets(Need::Exactly(PvType::Truth), other);
    match operator {
        Operator::Add | Operator::Sub | Operator::Mul => typed_if(numbers, PvType::Int),
        Operator::Lt | Operator::Le | Operator::Gt | Operator::Ge => {
            typed_if(numbers, PvType::Truth)
        }
        Operator::Eq | Operator::Ne => typing_of_equality(one, other),
        Operator::And | Operator::Or => typed_if(truths, PvType::Truth),
        Operator::Implies | Operator::Star => typed_if(truths, PvType::Truth),
    }
}

/// The type of an element, where its array and its index have their types.
pub fn typing_of_element(array: Typing, at: Typing) -> Typing
    ensures { result ≡ typing.typing_of_element array at }
{
    let index = meets(Need::Exactly(PvType::Int), at);
    match array {
        Typing::Unsettled => Typing::Unsettled,
        Typing::Untyped => Typing::Unsettled,
        Typing::Typed(kind) => match kind {
            PvType::IntArray => typed_if(index, PvType::Int),
            PvType::TruthArray => typed_if(index, PvType::Truth),
            _ => Typing::Unsettled,
        },
    }
}

/// The type of an old value.
pub fn typing_of_old(found: Typing) -> Typing
    ensures { result ≡ typing.typing_of_old found }
{
    match found {
        Typing::Typed(kind) => Typing::Typed(kind),
        _ => Typing::Unsettled,
    }
}

/// The type of a new array of such elements.
pub fn typing_of_new_array(element: PvType) -> Typing
    ensures { result ≡ typing_of_array element }
{
    match element {
        PvType::Int => Typing::Typed(PvType::IntArray),
        PvType::Truth => Typing::Typed(PvType::TruthArray),
        _ => Typing::Untyped,
    }
}

/// The value of an assignment needs the type of its left side.
pub fn need_like(found: Typing) -> Need
    ensures { result ≡ need_like_of found }
{
    match found {
        Typing::Typed(kind) => Need::Exactly(kind),
        _ => Need::Anything,
    }
}

pub fn need_of_result(result_type: Option<PvType>) -> Need
    ensures { result ≡ need_of_result_of result_type }
{
    match result_type {
        None => Need::Anything,
        Some(kind) => Need::Exactly(kind),
    }
}

/// Whether an amount of permission is from 1 of 1 to 40 of 40.
pub fn is_amount(part: u64, whole: u64) -> bool
    ensures { result ≡ typing.is_amount part whole }
{
    1 <= part && part <= whole && whole <= 40
}
