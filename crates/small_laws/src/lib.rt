//! Laws of what small programs mean, in words apart from the definitions: each is a function that proves its clause and answers nothing.
#![tactic(auto)]

ghost use Rattle.std.specs.Prelude.{◌≡◌, ◌↔◌, None, true};
ghost use Rattle.small_meaning.specs.Values.{Scene, value_of, broken_of, truth_in};

use pv_ast::{Expr, ExprKind, Operator};

/// A formula has no broken conjunct exactly where it is true. It walks the formula, part by part.
#[cycle(holds_where_unbroken)]
pub fn holds_where_unbroken(formula: &Expr)
    ensures { (s : Scene) → (broken_of formula.now s ≡ None) ↔ (truth_in (value_of formula.now s) ≡ true) }
{
    match &formula.kind {
        ExprKind::Binary(op, first, second) => match op {
            Operator::And => {
                holds_where_unbroken(first.get());
                holds_where_unbroken(second.get());
            }
            _ => {}
        },
        _ => {}
    }
}
