ghost use Rattle.std.specs.Prelude.{◌≡◌};
ghost use Rattle.small_meaning.specs.Small as small;

use crate::expressions::is_small_expr;
use pv_ast::{Expr, ExprKind, PvType, Right, RightKind, Stmt, StmtKind};

/// Whether the statements of a block are small.
#[cycle(statements)]
pub fn is_small_block(block: &[Stmt]) -> bool
    ensures { result ≡ small.is_small_block block.now }
{
    for statement in block {
        if !is_small_stmt(statement) {
            return false;
        }
    }
    true
}

#[cycle(statements)]
fn is_small_stmt(statement: &Stmt) -> bool
    ensures { result ≡ small.is_small_stmt statement.now }
{
    is_small_kind(&statement.kind)
}

#[cycle(statements)]
fn is_small_kind(kind: &StmtKind) -> bool
    ensures { result ≡ small.is_small_stmt_kind kind.now }
{
    match kind {
        StmtKind::Local(word, _, value) => is_int(word.kind) && is_small_first_value(value),
        StmtKind::Assign(place, value) => is_variable(&place.kind) && is_small_right(&value.kind),
        StmtKind::If(condition, first, second) => {
            is_small_expr(condition)
                && is_small_block(first.as_slice())
                && is_small_block(second.as_slice())
        }
        StmtKind::Assert(formula) => is_small_expr(formula),
        StmtKind::Return(value) => is_small_returned(value),
        _ => false,
    }
}

/// Whether a type is `int`.
pub fn is_int(kind: PvType) -> bool
    ensures { result ≡ small.is_int kind }
{
    matches!(kind, PvType::Int)
}

fn is_variable(kind: &ExprKind) -> bool
    ensures { result ≡ small.is_variable kind.now }
{
    matches!(kind, ExprKind::Var(_))
}

/// Whether a right side is a small expression.
fn is_small_right(right: &RightKind) -> bool
    ensures { result ≡ small.is_small_right right.now }
{
    match right {
        RightKind::Value(e) => is_small_expr(e),
        RightKind::Call(_, _, _) => false,
        RightKind::NewObject(_) => false,
        RightKind::NewArray(_, _) => false,
    }
}

fn is_small_first_value(right: &Option<Right>) -> bool
    ensures { result ≡ small.is_small_first_value right.now }
{
    match right {
        None => true,
        Some(value) => is_small_right(&value.kind),
    }
}

fn is_small_returned(value: &Option<Expr>) -> bool
    ensures { result ≡ small.is_small_returned value.now }
{
    match value {
        None => true,
        Some(e) => is_small_expr(e),
    }
}
