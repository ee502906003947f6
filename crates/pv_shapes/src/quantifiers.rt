ghost use Rattle.std.specs.Prelude.{◌≡◌, option_map};
ghost use Rattle.pv_ast.specs.Rules.Items as items;
ghost use Rattle.pv_ast.specs.Rules.Shapes as shapes;

use crate::firsts::earlier;
use pv_ast::{Expr, ExprKind, ShapeFault};
use pv_base::Span;
use sqlite_items::Boxed;

/// The first quantifier in an expression in which none may stand.
#[cycle(quantifiers)]
pub(crate) fn quantifier_in(e: &Expr) -> Option<ShapeFault>
    ensures { result ≡ shapes.first_of (shapes.quantifiers_in e.now) }
{
    quantifier_in_kind(&e.kind, e.span)
}

#[cycle(quantifiers)]
fn quantifier_in_kind(kind: &ExprKind, span: Span) -> Option<ShapeFault>
    ensures { result ≡ shapes.first_of ((items.shape_of_kind kind.now).quantifiers span) }
{
    match kind {
        ExprKind::Number(_)
        | ExprKind::Truth(_)
        | ExprKind::Null
        | ExprKind::This
        | ExprKind::Result
        | ExprKind::Var(_) => None,
        ExprKind::Field(e, _)
        | ExprKind::Not(e)
        | ExprKind::Minus(e)
        | ExprKind::Old(e)
        | ExprKind::Perm(e, _, _, _)
        | ExprKind::Token(_, e) => quantifier_in(e.get()),
        ExprKind::Index(a, b) => earlier(quantifier_in(a.get()), quantifier_in(b.get())),
        ExprKind::Binary(_, a, b) => earlier(quantifier_in(a.get()), quantifier_in(b.get())),
        ExprKind::Instance(target, _, args) => {
            earlier(
                quantifier_in_target(target),
                quantifier_in_all(args.as_slice()),
            )
        }
        ExprKind::Each(_) => Some(ShapeFault::QuantifierShape(span)),
    }
}

#[cycle(quantifiers)]
fn quantifier_in_target(e: &Option<Boxed<Expr>>) -> Option<ShapeFault>
    ensures { result ≡ shapes.first_of (items.quantifiers_of_option (option_map items.shape_of e.now)) }
{
    match e {
        None => None,
        Some(e) => quantifier_in(e.get()),
    }
}

/// The first quantifier in expressions in which none may stand.
#[cycle(quantifiers)]
pub(crate) fn quantifier_in_all(es: &[Expr]) -> Option<ShapeFault>
    ensures { result ≡ shapes.first_of (shapes.quantifiers_in_all es.now) }
{
    let mut first = None;
    for e in es {
        first = earlier(first, quantifier_in(e));
    }
    first
}
