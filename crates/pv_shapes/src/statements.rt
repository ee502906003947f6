ghost use Rattle.std.specs.Prelude.{◌≡◌, ◌++◌, Some};
ghost use Rattle.pv_ast.specs.Rules.Shapes as shapes;
ghost use Rattle.pv_shapes.specs.Seen.{environment_as, name_as};

use crate::expressions::{
    quantifier_in_call, quantifier_in_first_value, quantifier_in_option, quantifier_in_range,
    quantifier_in_right,
};
use crate::firsts::earlier;
use crate::formulas::{Whole, fault_of_formula, fault_of_parts};
use crate::quantifiers::quantifier_in;
use pv_ast::{Contract, Expr, Range, ShapeFault, Stmt, StmtKind};
use pv_base::Name;

/// The loop variables of the innermost par block and of the innermost counted loop round a statement.
#[derive(Clone, Copy, Drop)]
pub(crate) struct Inside {
    pub(crate) block: Option<Name>,
    pub(crate) counted: Option<Name>,
}

impl Inside {
    /// Round the statements of a par block with this loop variable.
    fn block_of(self, name: Name) -> Inside
        ensures { environment_as result ≡ record (environment_as self) { block = Some name.0 } }
    {
        Inside {
            block: Some(name),
            counted: self.counted,
        }
    }

    /// Round the statements of a counted loop with this loop variable.
    fn counted_by(self, name: Name) -> Inside
        ensures { environment_as result ≡ record (environment_as self) { loop = Some name.0 } }
    {
        Inside {
            block: self.block,
            counted: Some(name),
        }
    }
}

/// The first fault of the statements of a block.
#[cycle(statements)]
pub(crate) fn fault_of_block(block: &[Stmt], inside: Inside) -> Option<ShapeFault>
    ensures { result ≡ shapes.first_of (shapes.faults_of_block block.now (environment_as inside)) }
{
    let mut first = None;
    for statement in block {
        first = earlier(first, fault_of_statement(statement, inside));
    }
    first
}

#[cycle(statements)]
fn fault_of_statement(statement: &Stmt, inside: Inside) -> Option<ShapeFault>
    ensures { result ≡ shapes.first_of (shapes.faults_of_stmt statement.now (environment_as inside)) }
{
    fault_of_kind(&statement.kind, inside)
}

#[cycle(statements)]
fn fault_of_kind(kind: &StmtKind, inside: Inside) -> Option<ShapeFault>
    ensures { result ≡ shapes.first_of (shapes.faults_of_stmt_kind kind.now (environment_as inside)) }
{
    match kind {
        StmtKind::Local(_, _, value) => quantifier_in_first_value(value),
        StmtKind::Assign(place, value) => earlier(quantifier_in(place), quantifier_in_right(value)),
        StmtKind::Call(target, _, args)
        | StmtKind::Fold(target, _, args)
        | StmtKind::Unfold(target, _, args) => quantifier_in_call(target, args.as_slice()),
        StmtKind::If(condition, first, second) => {
            let first = fault_of_block(first.as_slice(), inside);
            let front = earlier(quantifier_in(condition), first);
            earlier(front, fault_of_block(second.as_slice(), inside))
        }
        StmtKind::While(invariants, condition, body) => {
            let invariant = fault_of_formulas(invariants.as_slice());
            let front = earlier(invariant, quantifier_in(condition));
            earlier(front, fault_of_block(body.as_slice(), inside))
        }
        StmtKind::For(range, contract, body) => {
            let body = fault_of_block(body.as_slice(), inside.counted_by(range.name.name));
            earlier(fault_of_head(range, contract), body)
        }
        StmtKind::Par(_, range, contract, body) => {
            let body = fault_of_block(body.as_slice(), inside.block_of(range.name.name));
            earlier(fault_of_head(range, contract), body)
        }
        StmtKind::Barrier(_, contract) => fault_of_barrier(inside.block, contract),
        StmtKind::Fork(e)
        | StmtKind::Join(e)
        | StmtKind::Lock(e)
        | StmtKind::Unlock(e)
        | StmtKind::Commit(e) => quantifier_in(e),
        StmtKind::Assert(formula) => fault_of_formula(formula),
        StmtKind::Send(_, _, formula) => fault_of_message(inside.counted, formula),
        StmtKind::Recv(_) => None,
        StmtKind::Return(value) => quantifier_in_option(value),
    }
}

/// The first fault of formulas in which quantifiers may stand.
fn fault_of_formulas(es: &[Expr]) -> Option<ShapeFault>
    ensures { result ≡ shapes.first_of (shapes.faults_of_formulas es.now) }
{
    let mut first = None;
    for e in es {
        first = earlier(first, fault_of_formula(e));
    }
    first
}

/// The first fault of a method's contract.
pub(crate) fn fault_of_contract(contract: &Contract) -> Option<ShapeFault>
    ensures { result ≡ shapes.first_of (shapes.faults_of_contract contract.now) }
{
    let mut first = None;
    for clause in contract.clauses.as_slice() {
        first = earlier(first, fault_of_formula(&clause.formula));
    }
    first
}

/// The first fault of a formula that is made of items for a variable.
fn fault_of_items(name: Name, formula: &Expr) -> Option<ShapeFault>
    ensures { result ≡ shapes.first_of (shapes.faults_of_items name.0 formula.now) }
{
    fault_of_parts(formula, Whole::Clause, name)
}

/// The first fault of a contract that is made of items for a variable.
fn fault_of_item_contract(name: Name, contract: &Contract) -> Option<ShapeFault>
    ensures { result ≡ shapes.first_of (shapes.faults_of_item_contract name.0 contract.now) }
{
    let mut first = None;
    for clause in contract.clauses.as_slice() {
        first = earlier(first, fault_of_items(name, &clause.formula));
    }
    first
}

/// The first fault of what stands before the body of a block or a counted loop.
#[tactic(auto, using(crate::proofs::Order::first_append))]
fn fault_of_head(range: &Range, contract: &Contract) -> Option<ShapeFault>
    ensures { result ≡ shapes.first_of (shapes.quantifiers_in_range range.now ++ shapes.faults_of_item_contract range.now.name.name.0 contract.now) }
{
    earlier(
        quantifier_in_range(range),
        fault_of_item_contract(range.name.name, contract),
    )
}

/// The first fault of a barrier's contract, in the block with this loop variable.
fn fault_of_barrier(name: Option<Name>, contract: &Contract) -> Option<ShapeFault>
    ensures { result ≡ shapes.first_of (shapes.faults_of_barrier (name_as name) contract.now) }
{
    match name {
        None => None,
        Some(name) => fault_of_item_contract(name, contract),
    }
}

/// The first fault of a message, in the counted loop with this loop variable.
fn fault_of_message(name: Option<Name>, formula: &Expr) -> Option<ShapeFault>
    ensures { result ≡ shapes.first_of (shapes.faults_of_message (name_as name) formula.now) }
{
    match name {
        None => None,
        Some(name) => fault_of_items(name, formula),
    }
}
