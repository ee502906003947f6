ghost use Rattle.std.specs.Prelude.{◌≡◌, ◌||◌, map, option_map};
ghost use Rattle.std.specs.List.{list_any};
ghost use Rattle.pv_ast.specs.Rules.Items as items;

use pv_ast::{Each, Expr, ExprKind};
use pv_base::Name;
use sqlite_items::Boxed;

/// Whether a variable occurs in an expression.
#[cycle(uses)]
pub(crate) fn uses_variable(e: &Expr, name: Name) -> bool
    ensures { result ≡ items.uses_variable name.0 (items.shape_of e.now) }
{
    uses_in(&e.kind, name)
}

#[tactic(auto, using(crate::proofs::Using::used_both, crate::proofs::Using::used_index, crate::proofs::Using::used_if, crate::proofs::Using::used_same))]
#[cycle(uses)]
fn uses_in(kind: &ExprKind, name: Name) -> bool
    ensures { result ≡ items.is_used ((items.shape_of_kind kind.now).facts name.0).uses }
{
    match kind {
        ExprKind::Number(_)
        | ExprKind::Truth(_)
        | ExprKind::Null
        | ExprKind::This
        | ExprKind::Result => false,
        ExprKind::Var(word) => word.name.0 == name.0,
        ExprKind::Field(e, _)
        | ExprKind::Not(e)
        | ExprKind::Minus(e)
        | ExprKind::Old(e)
        | ExprKind::Perm(e, _, _, _)
        | ExprKind::Token(_, e) => uses_variable(e.get(), name),
        ExprKind::Index(a, b) => uses_variable(a.get(), name) || uses_variable(b.get(), name),
        ExprKind::Binary(_, a, b) => uses_variable(a.get(), name) || uses_variable(b.get(), name),
        ExprKind::Instance(target, _, args) => {
            uses_in_option(target, name) || uses_in_any(args.as_slice(), name)
        }
        ExprKind::Each(each) => uses_in_each(each, name),
    }
}

#[cycle(uses)]
pub(crate) fn uses_in_option(e: &Option<Boxed<Expr>>, name: Name) -> bool
    ensures { result ≡ items.uses_of_option name.0 (option_map items.shape_of e.now) }
{
    match e {
        None => false,
        Some(e) => uses_variable(e.get(), name),
    }
}

#[cycle(uses)]
pub(crate) fn uses_in_any(es: &[Expr], name: Name) -> bool
    ensures { result ≡ list_any (items.uses_variable name.0) (map items.shape_of es.now) }
{
    for e in es {
        if uses_variable(e, name) {
            return true;
        }
    }
    false
}

#[cycle(uses)]
pub(crate) fn uses_in_each(each: &Each, name: Name) -> bool
    ensures { result ≡ items.is_used ((items.shape_of_each each.now).facts name.0).uses }
{
    uses_variable(each.low.get(), name)
        || uses_variable(each.high.get(), name)
        || uses_variable(each.body.get(), name)
}
