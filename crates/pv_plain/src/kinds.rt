//! The types by which members and elements of an expression are looked up.
ghost use Rattle.std.specs.Prelude.{◌≡◌, false};
ghost use Rattle.pv_ast.specs.declared.standing.Seen.{Seen as Looked};
ghost use Rattle.pv_ast.specs.Rules.Scoping.{variable_named};
ghost use Rattle.pv_ast.specs.Rules.Expressions.{checked_expression, typing_in, seen_of_name, typing_of_member};
ghost use Rattle.pv_picks.specs.Elaborating.Names.{settled as settled_of, class_of_type, element_type as element_type_of, elements_of as elements_in, class_at as class_in};
ghost use Rattle.pv_picks.specs.Elaborating.Expressions.{core_of_expression};
ghost use Rattle.pv_plain.specs.Sights.{around, in_scope};
ghost use Rattle.pv_plain.specs.Held.{IsHeldAs, IsPlaceOf};

use crate::sight::Sight;
use pv_ast::{Expr, ExprKind, PvType, Seen, Typing};
use pv_base::Name;
use pv_types::expressions::{place, value};
use pv_types::types::typing_or;

/// The type, or `int` where there is none.
pub(crate) fn settled(typing: Typing) -> PvType
    ensures { result ≡ settled_of typing }
{
    match typing {
        Typing::Unsettled => PvType::Int,
        Typing::Untyped => PvType::Int,
        Typing::Typed(kind) => kind,
    }
}

/// The class of an object's type.
pub(crate) fn class_of(kind: PvType) -> Name
    ensures { result ≡ class_of_type kind }
{
    match kind {
        PvType::Object(class) => class,
        _ => Name(0),
    }
}

/// The type of the elements of an array's type.
pub(crate) fn element_type(kind: PvType) -> PvType
    ensures { result ≡ element_type_of kind }
{
    match kind {
        PvType::TruthArray => PvType::Truth,
        _ => PvType::Int,
    }
}

/// A variable, or a field of `this`.
fn named(name: Name, sight: Sight) -> Seen
    ensures typing { result.typing ≡ (seen_of_name (around sight.entry) name (variable_named (in_scope sight.entry) name)).typing }
    ensures this { result.this ≡ false }
{
    match sight.variable(name) {
        Some(found) => value(Typing::Typed(found.kind), false),
        None => {
            let field = sight.environment.own_field(name);
            place(typing_or(Typing::Unsettled, field), false)
        }
    }
}

/// A field of an object, or the length of an array.
fn member(object: Seen, name: Name, sight: Sight) -> Seen
    ensures typing { (s : Looked) → IsHeldAs object s → result.typing ≡ typing_of_member (around sight.entry) name s }
    ensures this { result.this ≡ false }
{
    if sight.environment.is_array_length(name, object.typing) {
        value(Typing::Typed(PvType::Int), false)
    } else {
        place(sight.environment.holder(object).field_typing(name), false)
    }
}

/// What an expression is where its members and elements are looked up, and where it is a place.
pub(crate) fn holder_seen(e: &Expr, sight: Sight) -> Seen
    ensures held { IsHeldAs result ((checked_expression e.now).seen (around sight.entry) (in_scope sight.entry)) }
    ensures place { IsPlaceOf result.typing (typing_in (checked_expression e.now) (around sight.entry) (in_scope sight.entry)) (core_of_expression (around sight.entry) (in_scope sight.entry) e.now) }
{
    match &e.kind {
        ExprKind::This => sight.environment.this(),
        ExprKind::Result => value(typing_or(Typing::Untyped, sight.environment.result), false),
        ExprKind::Var(word) => named(word.name, sight),
        ExprKind::Field(object, word) => {
            member(holder_seen(object.get(), sight), word.name, sight)
        }
        ExprKind::Old(old) => value(holder_seen(old.get(), sight).typing, false),
        _ => value(Typing::Untyped, false),
    }
}

/// The type of the elements of an array.
pub(crate) fn elements_of(e: &Expr, sight: Sight) -> PvType
    ensures { result ≡ elements_in (typing_in (checked_expression e.now) (around sight.entry) (in_scope sight.entry)) }
{
    element_type(settled(holder_seen(e, sight).typing))
}

/// The class of an object.
pub(crate) fn class_at(e: &Expr, sight: Sight) -> Name
    ensures { result ≡ class_in (typing_in (checked_expression e.now) (around sight.entry) (in_scope sight.entry)) }
{
    class_of(settled(holder_seen(e, sight).typing))
}
