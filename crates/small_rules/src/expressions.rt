ghost use Rattle.std.specs.Prelude.{◌≡◌, ◌&&◌};
ghost use Rattle.small_meaning.specs.Small as small;
ghost use Rattle.small_rules.specs.Forms.{form_as};

use pv_ast::{Expr, ExprKind, Operator};

/// The form of an expression: a written number, another small expression, or none that is small.
#[derive(Clone, Copy, Drop)]
enum Form {
    Written,
    Composed,
    Foreign,
}

impl Form {
    fn is_written(self) -> bool
        ensures { result ≡ small.is_written (form_as self) }
    {
        matches!(self, Form::Written)
    }

    fn is_formed(self) -> bool
        ensures { result ≡ small.is_formed (form_as self) }
    {
        matches!(self, Form::Written | Form::Composed)
    }

    fn composed_if(needed: bool) -> Form
        ensures { form_as result ≡ small.composed_if needed }
    {
        if needed {
            Form::Composed
        } else {
            Form::Foreign
        }
    }
}

#[cycle(form)]
fn form_of(e: &Expr) -> Form
    ensures { form_as result ≡ small.form_of e.now }
{
    form_in(&e.kind)
}

#[cycle(form)]
fn form_in(k: &ExprKind) -> Form
    ensures { form_as result ≡ small.form_of_kind k.now }
{
    match k {
        ExprKind::Number(_) => Form::Written,
        ExprKind::Truth(_) => Form::Composed,
        ExprKind::Result => Form::Composed,
        ExprKind::Var(_) => Form::Composed,
        ExprKind::Not(a) => Form::composed_if(form_of(a.get()).is_formed()),
        ExprKind::Minus(a) => Form::composed_if(form_of(a.get()).is_written()),
        ExprKind::Binary(operator, a, b) => {
            form_under(*operator, form_of(a.get()), form_of(b.get()))
        }
        _ => Form::Foreign,
    }
}

/// The form of an operator and its parts: a sum has a written number on its right, and there are no products, implications
/// or separating conjunctions.
fn form_under(operator: Operator, a: Form, b: Form) -> Form
    ensures { form_as result ≡ small.form_of_operator operator (form_as a) (form_as b) }
{
    match operator {
        Operator::Add | Operator::Sub => Form::composed_if(a.is_formed() && b.is_written()),
        Operator::Mul | Operator::Implies | Operator::Star => Form::Foreign,
        _ => Form::composed_if(a.is_formed() && b.is_formed()),
    }
}

/// Whether an expression is small.
pub fn is_small_expr(e: &Expr) -> bool
    ensures { result ≡ small.is_small_expr e.now }
{
    form_of(e).is_formed()
}
