ghost use Rattle.std.specs.Prelude.{◌≡◌, ◌&&◌, not, OnOk};
ghost use Rattle.pv_ast.specs.declared.fault.Rule.TheVariants as rule;
ghost use Rattle.pv_ast.specs.declared.standing.Surround.TheVariants as surrounds;
ghost use Rattle.pv_ast.specs.Rules.Faults.{least, both, broken_if};
ghost use Rattle.pv_ast.specs.Rules.Lookup as lookup;
ghost use Rattle.pv_ast.specs.Rules.Scoping as scoping;
ghost use Rattle.pv_ast.specs.Rules.Statements as stated;
ghost use Rattle.pv_ast.specs.Rules.Statements.{checked_statement, checked_statement_kind, parts_of_block};
ghost use Rattle.pv_types.specs.Growth.{Extends};
ghost use Rattle.pv_types.specs.Environments.{environment_of};
ghost use Rattle.pv_types.specs.Walks.{messages_in};

use crate::environment::Environment;
use crate::labels::note_messages;
use crate::ranges::{block_name, bounds, loop_variable};
use crate::simple::{
    assert_of, assign, barrier, call_of, clauses_of, condition_of, fold_of, invariants_of, local,
    lock, not_in_loop, receive, returned, send, thread,
};
use crate::standing::{among_members, in_branch, in_condition, in_while};
use crate::walk::Walk;
use pv_ast::{Block, Contract, Range, StatementContext, Stmt, StmtKind, Surround, Word};
use pv_base::{NoMemory, Span};

/// Notes the faults of a statement. A local that it declares is in scope then, and its labels are among the messages.
#[cycle(statements)]
pub(crate) fn statement(
    statement: &Stmt,
    environment: &Environment,
    stand: StatementContext,
    walk: &mut Walk,
) -> Result<(), NoMemory>
    ensures found { OnOk result (walk.new.first ≡ least walk.old.first ((checked_statement statement.now).faults (environment_of environment.now) walk.old.visible stand)) }
    ensures behind { OnOk result (walk.new.visible ≡ (checked_statement statement.now).behind walk.old.visible) }
    ensures extends { OnOk result (Extends walk.old.visible walk.new.visible) }
    ensures messages { OnOk result (messages_in walk.new ≡ (checked_statement statement.now).messages (messages_in walk.old)) }
{
    statement_in(&statement.kind, statement.span, environment, stand, walk)
}

#[cycle(statements)]
fn statement_in(
    kind: &StmtKind,
    span: Span,
    environment: &Environment,
    stand: StatementContext,
    walk: &mut Walk,
) -> Result<(), NoMemory>
    ensures found { OnOk result (walk.new.first ≡ least walk.old.first ((checked_statement_kind kind.now).faults span (environment_of environment.now) walk.old.visible stand)) }
    ensures behind { OnOk result (walk.new.visible ≡ (checked_statement_kind kind.now).behind walk.old.visible) }
    ensures extends { OnOk result (Extends walk.old.visible walk.new.visible) }
    ensures messages { OnOk result (messages_in walk.new ≡ (checked_statement_kind kind.now).messages (messages_in walk.old)) }
{
    match kind {
        StmtKind::Local(word, name, value) => {
            local(*word, *name, value, span, environment, stand, walk)
        }
        StmtKind::Assign(place, value) => assign(place, value, span, environment, stand, walk),
        StmtKind::Call(target, word, args) => {
            call_of(target, *word, args, span, environment, stand, walk)
        }
        StmtKind::If(condition, first, second) => {
            condition_of(condition, environment, walk)?;
            block(first.as_slice(), environment, in_branch(stand), walk)?;
            block(second.as_slice(), environment, in_branch(stand), walk)
        }
        StmtKind::While(invariants, condition, body) => {
            invariants_of(invariants.as_slice(), environment, stand, walk)?;
            condition_of(condition, environment, walk)?;
            block(body.as_slice(), environment, in_while(stand), walk)
        }
        StmtKind::For(range, contract, body) => {
            counted_loop(range, contract, body, span, environment, stand, walk)
        }
        StmtKind::Par(name, range, contract, body) => {
            par_block(name, range, contract, body, span, environment, stand, walk)
        }
        StmtKind::Barrier(word, contract) => barrier(*word, contract, environment, walk),
        StmtKind::Fork(e) | StmtKind::Join(e) => thread(e, span, environment, stand, walk),
        StmtKind::Lock(e) | StmtKind::Unlock(e) | StmtKind::Commit(e) => {
            lock(e, span, environment, stand, walk)
        }
        StmtKind::Fold(target, word, args) | StmtKind::Unfold(target, word, args) => {
            fold_of(target, *word, args, environment, walk)
        }
        StmtKind::Assert(e) => assert_of(e, environment, stand, walk),
        StmtKind::Send(word, distance, e) => {
            send(*word, *distance, e, span, environment, stand, walk)
        }
        StmtKind::Recv(word) => receive(*word, span, stand, walk),
        StmtKind::Return(value) => returned(value, span, environment, stand, walk),
    }
}

/// Notes the faults of the statements of a branch or a body. What they declare is in scope only there.
#[cycle(statements)]
fn block(
    statements: &[Stmt],
    environment: &Environment,
    stand: StatementContext,
    walk: &mut Walk,
) -> Result<(), NoMemory>
    ensures found { OnOk result (walk.new.first ≡ least walk.old.first (stated.faults_of_statements (parts_of_block statements.now) (environment_of environment.now) walk.old.visible stand)) }
    ensures same { OnOk result (walk.new.visible ≡ walk.old.visible) }
    ensures messages { OnOk result (messages_in walk.new ≡ stated.messages_of_statements (parts_of_block statements.now) (messages_in walk.old)) }
{
    let mark = walk.visible.mark();
    for each in statements {
        statement(each, environment, stand, walk)?;
    }
    walk.visible.leave(mark);
    Ok(())
}

/// Notes the faults of the contract and the body of a par block or counted loop, whose names are in scope.
#[cycle(statements)]
fn members(
    surround: Surround,
    contract: &Contract,
    body: &Block,
    environment: &Environment,
    stand: StatementContext,
    walk: &mut Walk,
) -> Result<(), NoMemory>
    ensures found { OnOk result (walk.new.first ≡ least walk.old.first (stated.faults_of_members surround contract.now (parts_of_block body.now) (environment_of environment.now) walk.old.visible stand)) }
    ensures same { OnOk result (walk.new.visible ≡ walk.old.visible) }
    ensures messages { OnOk result (messages_in walk.new ≡ stated.messages_of_statements (parts_of_block body.now) (messages_in walk.old)) }
{
    clauses_of(contract, environment, in_condition(), walk)?;
    block(
        body.as_slice(),
        environment,
        among_members(surround, stand),
        walk,
    )
}

/// Notes the faults of a counted loop.
#[cycle(statements)]
fn counted_loop(
    range: &Range,
    contract: &Contract,
    body: &Block,
    span: Span,
    environment: &Environment,
    stand: StatementContext,
    walk: &mut Walk,
) -> Result<(), NoMemory>
    ensures found { OnOk result (walk.new.first ≡ least walk.old.first (both (stated.not_in_loop stand span) (stated.faults_of_for range.now contract.now (parts_of_block body.now) (environment_of environment.now) walk.old.visible stand))) }
    ensures same { OnOk result (walk.new.visible ≡ walk.old.visible) }
    ensures messages { OnOk result (messages_in walk.new ≡ messages_in walk.old) }
{
    not_in_loop(stand, span, walk);
    bounds(range, environment, &mut walk.visible, &mut walk.first)?;
    let mark = walk.visible.mark();
    walk.visible.enter();
    loop_variable(range.name, &mut walk.visible, &mut walk.first)?;
    let outer = walk.take_messages();
    members(Surround::Loop, contract, body, environment, stand, walk)?;
    walk.visible.leave(mark);
    note_messages(&walk.messages, &mut walk.first)?;
    walk.messages = outer;
    Ok(())
}

/// Notes the faults of a par block.
#[cycle(statements)]
fn par_block(
    name: &Option<Word>,
    range: &Range,
    contract: &Contract,
    body: &Block,
    span: Span,
    environment: &Environment,
    stand: StatementContext,
    walk: &mut Walk,
) -> Result<(), NoMemory>
    ensures found { OnOk result (walk.new.first ≡ least walk.old.first (both (stated.not_in_loop stand span) (stated.faults_of_par name.now range.now contract.now (parts_of_block body.now) (environment_of environment.now) walk.old.visible stand))) }
    ensures same { OnOk result (walk.new.visible ≡ walk.old.visible) }
    ensures messages { OnOk result (messages_in walk.new ≡ stated.messages_of_statements (parts_of_block body.now) (messages_in walk.old)) }
{
    not_in_loop(stand, span, walk);
    bounds(range, environment, &mut walk.visible, &mut walk.first)?;
    let mark = walk.visible.mark();
    walk.visible.enter();
    block_name(name, &mut walk.visible, &mut walk.first)?;
    loop_variable(range.name, &mut walk.visible, &mut walk.first)?;
    members(Surround::Block, contract, body, environment, stand, walk)?;
    walk.visible.leave(mark);
    Ok(())
}
