//! Whether an expression speaks of the state that a method began in.
ghost use Rattle.std.specs.Prelude.{◌≡◌, ◌||◌, map};
ghost use Rattle.std.specs.List.{list_any};
ghost use Rattle.pv_picks.specs.Elaborating.Expressions.{has_old as has_old_of};
ghost use Rattle.pv_picks.specs.Elaborating.Statements.{elaborated_statement, contract_has_old, old_in};
ghost use Rattle.pv_picks.specs.Elaborating.Programs.{speaks_of_old as speaks};
ghost use Rattle.pv_plain.specs.Olds.{old_of, old_of_kind, old_of_each, old_of_option};

use pv_ast::{Contract, Each, Expr, ExprKind, Stmt, StmtKind};
use sqlite_items::Boxed;

/// Whether `\old` stands in an expression.
#[cycle(old)]
pub(crate) fn has_old(e: &Expr) -> bool
    ensures { result ≡ old_of e.now }
{
    has_old_in(&e.kind)
}

#[cycle(old)]
fn has_old_in(kind: &ExprKind) -> bool
    ensures { result ≡ old_of_kind kind.now }
{
    match kind {
        ExprKind::Number(_)
        | ExprKind::Truth(_)
        | ExprKind::Null
        | ExprKind::This
        | ExprKind::Result
        | ExprKind::Var(_) => false,
        ExprKind::Field(e, _) | ExprKind::Not(e) | ExprKind::Minus(e) => has_old(e.get()),
        ExprKind::Index(a, b) | ExprKind::Binary(_, a, b) => has_old(a.get()) || has_old(b.get()),
        ExprKind::Old(_) => true,
        ExprKind::Perm(e, _, _, _) | ExprKind::Token(_, e) => has_old(e.get()),
        ExprKind::Instance(target, _, args) => {
            has_old_in_target(target) || has_old_in_any(args.as_slice())
        }
        ExprKind::Each(each) => has_old_in_each(each),
    }
}

#[cycle(old)]
fn has_old_in_each(each: &Each) -> bool
    ensures { result ≡ old_of_each each.now }
{
    has_old(each.low.get()) || has_old(each.high.get()) || has_old(each.body.get())
}

#[cycle(old)]
fn has_old_in_target(target: &Option<Boxed<Expr>>) -> bool
    ensures { result ≡ old_of_option target.now }
{
    match target {
        None => false,
        Some(e) => has_old(e.get()),
    }
}

/// Whether `\old` stands in one of these.
#[cycle(old)]
pub(crate) fn has_old_in_any(es: &[Expr]) -> bool
    ensures { result ≡ list_any old_of es.now }
{
    for e in es {
        if has_old(e) {
            return true;
        }
    }
    false
}

/// Whether `\old` stands in a formula.
fn formula_has_old(e: &Expr) -> bool
    ensures { result ≡ has_old_of e.now }
{
    has_old(e)
}

/// Whether `\old` stands in one of these formulas.
fn any_has_old(es: &[Expr]) -> bool
    ensures { result ≡ list_any has_old_of es.now }
{
    for e in es {
        if formula_has_old(e) {
            return true;
        }
    }
    false
}

/// Whether `\old` stands in a contract.
fn contract_old(contract: &Contract) -> bool
    ensures { result ≡ contract_has_old contract.now }
{
    for clause in contract.clauses.as_slice() {
        if formula_has_old(&clause.formula) {
            return true;
        }
    }
    false
}

/// Whether `\old` stands in a formula of a statement.
#[cycle(statement_old)]
fn statement_old(s: &Stmt) -> bool
    ensures { result ≡ (elaborated_statement s.now).old }
{
    match &s.kind {
        StmtKind::If(_, first, second) => {
            body_old(first.as_slice()) || body_old(second.as_slice())
        }
        StmtKind::While(invariants, _, body) => {
            any_has_old(invariants.as_slice()) || body_old(body.as_slice())
        }
        StmtKind::For(_, contract, body) => contract_old(contract) || body_old(body.as_slice()),
        StmtKind::Par(_, _, contract, body) => contract_old(contract) || body_old(body.as_slice()),
        StmtKind::Barrier(_, contract) => contract_old(contract),
        StmtKind::Assert(formula) => formula_has_old(formula),
        StmtKind::Send(_, _, formula) => formula_has_old(formula),
        _ => false,
    }
}

/// Whether `\old` stands in a formula of statements.
#[cycle(statement_old)]
fn body_old(body: &[Stmt]) -> bool
    ensures { result ≡ old_in (map elaborated_statement body.now) }
{
    for each in body {
        if statement_old(each) {
            return true;
        }
    }
    false
}

/// Whether `\old` stands in a contract or in a formula of a body.
pub(crate) fn speaks_of_old(contract: &Contract, body: &[Stmt]) -> bool
    ensures { result ≡ speaks contract.now body.now }
{
    contract_old(contract) || body_old(body)
}
