ghost use Rattle.std.specs.Prelude.{◌≡◌, ◌&&◌, ◌||◌, not, is_some, OnOk, MatchOption, Some, None};
ghost use Rattle.pv_ast.specs.declared.StmtKind.{out-StmtKind};
ghost use Rattle.pv_ast.specs.Rules.Faults.{least};
ghost use Rattle.pv_ast.specs.Rules.Lookup.{is_run};
ghost use Rattle.pv_ast.specs.Rules.Statements as stated;
ghost use Rattle.pv_ast.specs.Rules.Statements.{parts_of_block};
ghost use Rattle.pv_ast.specs.Rules.Programs as programs;
ghost use Rattle.pv_types.specs.Growth.{Extends};
ghost use Rattle.pv_types.specs.Environments.{environment_of};

use crate::Visible;
use crate::clauses::{clauses, formula};
use crate::environment::Environment;
use crate::noting::note_if;
use crate::ranges::{declare, note_shadows};
use crate::simple::note_type;
use crate::standing::{at_body, in_condition, in_ensures};
use crate::statements::statement;
use crate::walk::Walk;
use pv_ast::{
    Context, Contract, Declaration, Fault, Member, Method, Param, Predicate, PvType, Rule,
    RunMethod, StatementContext, Stmt, StmtKind, TypeWord,
};
use pv_base::NoMemory;
use std::alloc::Global;

/// Notes the faults of parameters, and brings them into scope.
fn params(
    params: &[Param],
    environment: &Environment,
    visible: &mut Visible,
    first: &mut Option<Fault>,
) -> Result<(), NoMemory>
    ensures found { OnOk result (first.new ≡ least first.old (programs.faults_of_params (environment_of environment.now) visible.old params.now)) }
    ensures declared { OnOk result (visible.new ≡ programs.with_params visible.old params.now) }
{
    for param in params {
        note_type(param.kind, environment, first);
        note_shadows(param.name, visible, first);
        declare(Declaration::Parameter, param.name, param.kind.kind, visible)?;
    }
    Ok(())
}

/// Notes the faults of the body of a method or of `run`, whose last statement may end it.
fn body(
    statements: &[Stmt],
    environment: &Environment,
    stand: StatementContext,
    walk: &mut Walk,
) -> Result<(), NoMemory>
    ensures { OnOk result (walk.new.first ≡ least walk.old.first (stated.faults_of_body (parts_of_block statements.now) (environment_of environment.now) walk.old.visible stand)) }
{
    let mut left = statements.len();
    for each in statements {
        left -= 1;
        let place = StatementContext {
            method: stand.method,
            surround: stand.surround,
            looped: stand.looped,
            repeated: stand.repeated,
            last: left == 0,
        };
        statement(each, environment, place, walk)?;
    }
    Ok(())
}

/// Whether the last statement is `return e;`.
fn ends_with_value(statements: &[Stmt]) -> bool
    ensures { result ≡ programs.ends_with_value statements.now }
{
    match statements.split_last() {
        None => false,
        Some((last, _)) => is_value_return(&last.kind),
    }
}

fn is_value_return(kind: &StmtKind) -> bool
    ensures { result ≡ programs.is_value_return (out-StmtKind kind.now) }
{
    match kind {
        StmtKind::Return(value) => value.is_some(),
        _ => false,
    }
}

/// Notes a result type of a class that isn't declared.
fn result_type(word: &Option<TypeWord>, environment: &Environment, first: &mut Option<Fault>)
    ensures { first.new ≡ least first.old (programs.faults_of_result (environment_of environment.now) word.now) }
{
    if let Some(word) = word {
        note_type(*word, environment, first);
    }
}

fn kind_of(word: &Option<TypeWord>) -> Option<PvType>
    ensures { result ≡ stated.option_type word.now }
{
    match word {
        None => None,
        Some(word) => Some(word.kind),
    }
}

/// Notes the faults of a method.
fn method(
    alloc: Global,
    method: &Method,
    environment: &Environment,
    first: &mut Option<Fault>,
) -> Result<(), NoMemory>
    ensures { OnOk result (first.new ≡ least first.old (programs.faults_of_method (environment_of environment.now) method.now)) }
{
    let environment = environment.with_result(kind_of(&method.result));
    let mut walk = Walk::new(alloc, *first);
    result_type(&method.result, &environment, &mut walk.first);
    params(
        method.params.as_slice(),
        &environment,
        &mut walk.visible,
        &mut walk.first,
    )?;
    contract(
        &method.contract,
        in_ensures(method.result.is_some()),
        &environment,
        &mut walk,
    )?;
    body(
        method.body.as_slice(),
        &environment,
        at_body(true),
        &mut walk,
    )?;
    let endless = method.result.is_some() && !ends_with_value(method.body.as_slice());
    note_if(endless, &mut walk.first, Rule::NoReturn, method.name.span);
    *first = walk.first;
    Ok(())
}

/// Notes the faults of the contract of a method or of `run`.
fn contract(
    contract: &Contract,
    ensures_context: Context,
    environment: &Environment,
    walk: &mut Walk,
) -> Result<(), NoMemory>
    ensures found { OnOk result (walk.new.first ≡ least walk.old.first (stated.faults_of_clauses (environment_of environment.now) walk.old.visible ensures_context stated.in_condition contract.now.clauses)) }
    ensures same { OnOk result (walk.new.visible ≡ walk.old.visible) }
{
    let each = contract.clauses.as_slice();
    let others = in_condition();
    clauses(
        each,
        environment,
        ensures_context,
        others,
        &mut walk.visible,
        &mut walk.first,
    )
}

/// Notes the faults of what a thread of the class runs.
fn run(
    alloc: Global,
    run: &RunMethod,
    environment: &Environment,
    first: &mut Option<Fault>,
) -> Result<(), NoMemory>
    ensures { OnOk result (first.new ≡ least first.old (programs.faults_of_run (environment_of environment.now) run.now)) }
{
    let mut walk = Walk::new(alloc, *first);
    contract(&run.contract, in_condition(), environment, &mut walk)?;
    body(run.body.as_slice(), environment, at_body(false), &mut walk)?;
    *first = walk.first;
    Ok(())
}

/// Notes the faults of a predicate.
fn predicate(
    alloc: Global,
    predicate: &Predicate,
    environment: &Environment,
    first: &mut Option<Fault>,
) -> Result<(), NoMemory>
    ensures { OnOk result (first.new ≡ least first.old (programs.faults_of_predicate (environment_of environment.now) predicate.now)) }
{
    let mut visible = Visible::new(alloc);
    params(
        predicate.params.as_slice(),
        environment,
        &mut visible,
        first,
    )?;
    formula(
        &predicate.body,
        environment,
        in_condition(),
        &mut visible,
        first,
    )
}

/// Notes the faults of a member.
fn member(
    alloc: Global,
    member: &Member,
    environment: &Environment,
    first: &mut Option<Fault>,
) -> Result<(), NoMemory>
    ensures { OnOk result (first.new ≡ least first.old (programs.faults_of_member (environment_of environment.now) member.now)) }
{
    match member {
        Member::Field(field) => {
            note_type(field.kind, environment, first);
            Ok(())
        }
        Member::Predicate(each) => predicate(alloc, each, environment, first),
        Member::Method(each) => method(alloc, each, environment, first),
        Member::Run(each) => run(alloc, each, environment, first),
    }
}

/// Notes the faults of the members of a class.
pub(crate) fn members(
    alloc: Global,
    members: &[Member],
    environment: &Environment,
    first: &mut Option<Fault>,
) -> Result<(), NoMemory>
    ensures { OnOk result (first.new ≡ least first.old (programs.faults_of_members (environment_of environment.now) members.now)) }
{
    for each in members {
        member(alloc, each, environment, first)?;
    }
    Ok(())
}
