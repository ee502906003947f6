ghost use Rattle.std.specs.Prelude.{◌≡◌, ◌&&◌, ◌||◌, not, is_some, nat_eq, ◌++◌, ◌∷◌, [], OnOk};
ghost use Rattle.pv_ast.specs.declared.PvType.TheVariants as pv;
ghost use Rattle.pv_ast.specs.declared.StmtKind.{StmtKind-F as kind};
ghost use Rattle.pv_ast.specs.declared.fault.Rule.TheVariants as rule;
ghost use Rattle.pv_ast.specs.declared.scope.Declaration.TheVariants as how;
ghost use Rattle.pv_ast.specs.declared.standing.Need.TheVariants as need;
ghost use Rattle.pv_ast.specs.Rules.Faults.{least, both, broken_if, broken_unless};
ghost use Rattle.pv_ast.specs.Rules.Lookup as lookup;
ghost use Rattle.pv_ast.specs.Rules.Scoping as scoping;
ghost use Rattle.pv_ast.specs.Rules.Expressions as parts;
ghost use Rattle.pv_ast.specs.Rules.Expressions.{checked_expression};
ghost use Rattle.pv_ast.specs.Rules.Statements as stated;
ghost use Rattle.pv_types.specs.Growth.{Extends};
ghost use Rattle.pv_types.specs.Environments.{environment_of};
ghost use Rattle.pv_types.specs.Walks.{messages_in};

use crate::Visible;
use crate::clauses::{clauses, formula, formulas};
use crate::environment::Environment;
use crate::expressions::part;
use crate::noting::{note_if, note_unless};
use crate::ranges::{declare, note_shadows};
use crate::rights::{call, expression, first_value, fold, is_made, is_made_first, right};
use crate::site::Site;
use crate::standing::{between_members, in_invariant, is_loop};
use crate::types::{need_like, need_of_result};
use crate::walk::Walk;
use pv_ast::{
    Args, Context, Contract, Declaration, Expr, ExprKind, Fault, Need, PvType, Right, Rule,
    StatementContext, TypeWord, Word,
};
use pv_base::{NoMemory, Span};

/// Notes what may not stand in a counted loop's body.
pub(crate) fn not_in_loop(stand: StatementContext, span: Span, walk: &mut Walk)
    ensures found { walk.new.first ≡ least walk.old.first (stated.not_in_loop stand span) }
    ensures same { walk.new.visible ≡ walk.old.visible }
    ensures messages { messages_in walk.new ≡ messages_in walk.old }
{
    note_if(stand.looped, &mut walk.first, Rule::BodyForm, span);
}

/// Notes the faults of a condition.
pub(crate) fn condition_of(
    e: &Expr,
    environment: &Environment,
    walk: &mut Walk,
) -> Result<(), NoMemory>
    ensures found { OnOk result (walk.new.first ≡ least walk.old.first (stated.faults_of_expression (environment_of environment.now) walk.old.visible (need.Exactly pv.Truth) e.now)) }
    ensures same { OnOk result (walk.new.visible ≡ walk.old.visible) }
    ensures messages { OnOk result (messages_in walk.new ≡ messages_in walk.old) }
{
    let a_truth = Need::Exactly(PvType::Truth);
    expression(e, environment, a_truth, &mut walk.visible, &mut walk.first)
}

/// Notes the faults of the invariants of a `while`.
pub(crate) fn invariants_of(
    es: &[Expr],
    environment: &Environment,
    stand: StatementContext,
    walk: &mut Walk,
) -> Result<(), NoMemory>
    ensures found { OnOk result (walk.new.first ≡ least walk.old.first (stated.faults_of_formulas (environment_of environment.now) walk.old.visible (stated.in_invariant stand) es.now)) }
    ensures same { OnOk result (walk.new.visible ≡ walk.old.visible) }
    ensures messages { OnOk result (messages_in walk.new ≡ messages_in walk.old) }
{
    let context = in_invariant(stand);
    formulas(es, environment, context, &mut walk.visible, &mut walk.first)
}

/// Notes the faults of the contract of a block, a counted loop or a barrier.
pub(crate) fn clauses_of(
    contract: &Contract,
    environment: &Environment,
    context: Context,
    walk: &mut Walk,
) -> Result<(), NoMemory>
    ensures found { OnOk result (walk.new.first ≡ least walk.old.first (stated.faults_of_clauses (environment_of environment.now) walk.old.visible context context contract.now.clauses)) }
    ensures same { OnOk result (walk.new.visible ≡ walk.old.visible) }
    ensures messages { OnOk result (messages_in walk.new ≡ messages_in walk.old) }
{
    let each = contract.clauses.as_slice();
    clauses(
        each,
        environment,
        context,
        context,
        &mut walk.visible,
        &mut walk.first,
    )
}

/// Notes the faults of an assert.
pub(crate) fn assert_of(
    e: &Expr,
    environment: &Environment,
    stand: StatementContext,
    walk: &mut Walk,
) -> Result<(), NoMemory>
    ensures found { OnOk result (walk.new.first ≡ least walk.old.first (stated.faults_of_formula (environment_of environment.now) walk.old.visible (stated.in_invariant stand) e.now)) }
    ensures same { OnOk result (walk.new.visible ≡ walk.old.visible) }
    ensures messages { OnOk result (messages_in walk.new ≡ messages_in walk.old) }
{
    let context = in_invariant(stand);
    formula(e, environment, context, &mut walk.visible, &mut walk.first)
}

/// Notes the faults of a call that is a statement.
pub(crate) fn call_of(
    target: &Option<Expr>,
    word: Word,
    args: &Args,
    span: Span,
    environment: &Environment,
    stand: StatementContext,
    walk: &mut Walk,
) -> Result<(), NoMemory>
    ensures found { OnOk result (walk.new.first ≡ least walk.old.first (both (stated.not_in_loop stand span) (parts.faults_of_call (stated.checked_option target.now) word (stated.parts_of args.now) (environment_of environment.now) walk.old.visible stated.in_statement))) }
    ensures same { OnOk result (walk.new.visible ≡ walk.old.visible) }
    ensures messages { OnOk result (messages_in walk.new ≡ messages_in walk.old) }
{
    not_in_loop(stand, span, walk);
    call(
        target,
        word,
        args.as_slice(),
        environment,
        &mut walk.visible,
        &mut walk.first,
    )?;
    Ok(())
}

/// Notes the faults of a fold or an unfold.
pub(crate) fn fold_of(
    target: &Option<Expr>,
    word: Word,
    args: &Args,
    environment: &Environment,
    walk: &mut Walk,
) -> Result<(), NoMemory>
    ensures found { OnOk result (walk.new.first ≡ least walk.old.first (parts.faults_of_instance (stated.checked_option target.now) word (stated.parts_of args.now) (environment_of environment.now) walk.old.visible stated.in_statement)) }
    ensures same { OnOk result (walk.new.visible ≡ walk.old.visible) }
    ensures messages { OnOk result (messages_in walk.new ≡ messages_in walk.old) }
{
    fold(
        target,
        word,
        args.as_slice(),
        environment,
        &mut walk.visible,
        &mut walk.first,
    )
}

/// Notes the faults of a barrier.
pub(crate) fn barrier(
    word: Word,
    contract: &Contract,
    environment: &Environment,
    walk: &mut Walk,
) -> Result<(), NoMemory>
    ensures found { OnOk result (walk.new.first ≡ least walk.old.first (both (stated.faults_of_barrier_name walk.old.visible word) (stated.faults_of_clauses (environment_of environment.now) walk.old.visible stated.between_members stated.between_members contract.now.clauses))) }
    ensures same { OnOk result (walk.new.visible ≡ walk.old.visible) }
    ensures messages { OnOk result (messages_in walk.new ≡ messages_in walk.old) }
{
    let known = walk.visible.is_block_around(word.name);
    let near = walk.visible.is_innermost_block(word.name);
    note_unless(known, &mut walk.first, Rule::UnknownName, word.span);
    note_if(
        known && !near,
        &mut walk.first,
        Rule::BarrierPlace,
        word.span,
    );
    clauses_of(contract, environment, between_members(), walk)
}

/// Notes the faults of the operand of a fork or a join.
pub(crate) fn thread(
    e: &Expr,
    span: Span,
    environment: &Environment,
    stand: StatementContext,
    walk: &mut Walk,
) -> Result<(), NoMemory>
    ensures found { OnOk result (walk.new.first ≡ least walk.old.first (both (stated.not_in_loop stand span) (stated.faults_of_operand lookup.has_run (environment_of environment.now) walk.old.visible e.now))) }
    ensures same { OnOk result (walk.new.visible ≡ walk.old.visible) }
    ensures messages { OnOk result (messages_in walk.new ≡ messages_in walk.old) }
{
    not_in_loop(stand, span, walk);
    let object = Need::AnObject;
    let site = Site::in_statement(environment);
    let seen = part(e, site, object, &mut walk.visible, &mut walk.first)?;
    note_if(
        environment.lacks_run(seen),
        &mut walk.first,
        Rule::NoRole,
        e.span,
    );
    Ok(())
}

/// Notes the faults of the operand of a statement of locks.
pub(crate) fn lock(
    e: &Expr,
    span: Span,
    environment: &Environment,
    stand: StatementContext,
    walk: &mut Walk,
) -> Result<(), NoMemory>
    ensures found { OnOk result (walk.new.first ≡ least walk.old.first (both (stated.not_in_loop stand span) (stated.faults_of_operand lookup.has_lock_invariant (environment_of environment.now) walk.old.visible e.now))) }
    ensures same { OnOk result (walk.new.visible ≡ walk.old.visible) }
    ensures messages { OnOk result (messages_in walk.new ≡ messages_in walk.old) }
{
    not_in_loop(stand, span, walk);
    let object = Need::AnObject;
    let site = Site::in_statement(environment);
    let seen = part(e, site, object, &mut walk.visible, &mut walk.first)?;
    note_if(
        environment.lacks_lock_invariant(seen),
        &mut walk.first,
        Rule::NoRole,
        e.span,
    );
    Ok(())
}

/// Notes the faults of a `return`.
pub(crate) fn returned(
    value: &Option<Expr>,
    span: Span,
    environment: &Environment,
    stand: StatementContext,
    walk: &mut Walk,
) -> Result<(), NoMemory>
    ensures found { OnOk result (walk.new.first ≡ least walk.old.first (both (broken_unless (stated.is_return_place (environment_of environment.now) stand value.now) rule.ReturnPlace span) (stated.faults_of_returned (environment_of environment.now) walk.old.visible value.now))) }
    ensures same { OnOk result (walk.new.visible ≡ walk.old.visible) }
    ensures messages { OnOk result (messages_in walk.new ≡ messages_in walk.old) }
{
    let placed = is_return_place(value, environment, stand);
    note_unless(placed, &mut walk.first, Rule::ReturnPlace, span);
    match value {
        None => Ok(()),
        Some(e) => {
            let need = need_of_result(environment.result);
            expression(e, environment, need, &mut walk.visible, &mut walk.first)
        }
    }
}

/// Whether a `return` stands last in a method's body, with a value where there is a result.
fn is_return_place(value: &Option<Expr>, environment: &Environment, stand: StatementContext) -> bool
    ensures { result ≡ stated.is_return_place (environment_of environment.now) stand value.now }
{
    match value {
        None => stand.last && stand.method && !environment.result.is_some(),
        Some(_) => stand.last && stand.method && environment.result.is_some(),
    }
}

/// Whether a left side is a local that is declared in the same body.
fn is_inner_local(kind: &ExprKind, visible: &Visible) -> bool
    ensures { result ≡ stated.is_inner_local_kind visible.now kind.now }
{
    match kind {
        ExprKind::Var(word) => visible.is_inner_local(word.name),
        _ => false,
    }
}

/// Notes the faults of an assignment.
pub(crate) fn assign(
    place: &Expr,
    value: &Right,
    span: Span,
    environment: &Environment,
    stand: StatementContext,
    walk: &mut Walk,
) -> Result<(), NoMemory>
    ensures found { OnOk result (walk.new.first ≡ least walk.old.first (both (stated.faults_of_expression (environment_of environment.now) walk.old.visible need.Anything place.now) (both (broken_unless (stated.is_assignable (environment_of environment.now) walk.old.visible place.now) rule.NotAssignable place.now.span) (both (stated.faults_of_right (environment_of environment.now) walk.old.visible (stated.need_like ((checked_expression place.now).seen (environment_of environment.now) walk.old.visible).typing) value.now) (broken_if (stand.looped && stated.is_made value.now.kind) rule.BodyForm span))))) }
    ensures same { OnOk result (walk.new.visible ≡ walk.old.visible) }
    ensures messages { OnOk result (messages_in walk.new ≡ messages_in walk.old) }
{
    let any = Need::Anything;
    let site = Site::in_statement(environment);
    let seen = part(place, site, any, &mut walk.visible, &mut walk.first)?;
    let assignable = seen.location || is_inner_local(&place.kind, &walk.visible);
    note_unless(assignable, &mut walk.first, Rule::NotAssignable, place.span);
    let need = need_like(seen.typing);
    right(value, environment, need, &mut walk.visible, &mut walk.first)?;
    let made = stand.looped && is_made(value);
    note_if(made, &mut walk.first, Rule::BodyForm, span);
    Ok(())
}

/// Notes the faults of a local, which is in scope then.
pub(crate) fn local(
    word: TypeWord,
    name: Word,
    value: &Option<Right>,
    span: Span,
    environment: &Environment,
    stand: StatementContext,
    walk: &mut Walk,
) -> Result<(), NoMemory>
    ensures found { OnOk result (walk.new.first ≡ least walk.old.first (both (stated.faults_of_type (environment_of environment.now) word) (both (stated.shadows walk.old.visible name) (both (stated.faults_of_first_value (environment_of environment.now) walk.old.visible (need.Exactly word.kind) value.now) (broken_if (stand.looped && stated.is_made_first value.now) rule.BodyForm span))))) }
    ensures behind { OnOk result (walk.new.visible ≡ scoping.declare_variable how.Local walk.old.visible name.name word.kind) }
    ensures extends { OnOk result (Extends walk.old.visible walk.new.visible) }
    ensures messages { OnOk result (messages_in walk.new ≡ messages_in walk.old) }
{
    note_type(word, environment, &mut walk.first);
    note_shadows(name, &walk.visible, &mut walk.first);
    let need = Need::Exactly(word.kind);
    first_value(value, environment, need, &mut walk.visible, &mut walk.first)?;
    let made = stand.looped && is_made_first(value);
    note_if(made, &mut walk.first, Rule::BodyForm, span);
    declare(Declaration::Local, name, word.kind, &mut walk.visible)
}

/// Notes a type of a class that isn't declared.
pub(crate) fn note_type(word: TypeWord, environment: &Environment, first: &mut Option<Fault>)
    ensures { first.new ≡ least first.old (stated.faults_of_type (environment_of environment.now) word) }
{
    note_unless(
        environment.is_type(word.kind),
        first,
        Rule::UnknownName,
        word.span,
    );
}

/// Notes where a message may not stand.
fn note_message_place(stand: StatementContext, span: Span, walk: &mut Walk)
    ensures found { walk.new.first ≡ least walk.old.first (stated.faults_of_message_place stand span) }
    ensures same { walk.new.visible ≡ walk.old.visible }
    ensures messages { messages_in walk.new ≡ messages_in walk.old }
{
    let misplaced = !is_loop(stand.surround) || stand.repeated;
    note_if(misplaced, &mut walk.first, Rule::MessagePlace, span);
}

/// Notes the faults of a `send`, whose label is among the messages then.
pub(crate) fn send(
    word: Word,
    distance: u64,
    e: &Expr,
    span: Span,
    environment: &Environment,
    stand: StatementContext,
    walk: &mut Walk,
) -> Result<(), NoMemory>
    ensures found { OnOk result (walk.new.first ≡ least walk.old.first (both (stated.faults_of_message_place stand span) (both (broken_if (nat_eq distance 0) rule.MessageRule word.span) (stated.faults_of_formula (environment_of environment.now) walk.old.visible stated.between_members e.now)))) }
    ensures same { OnOk result (walk.new.visible ≡ walk.old.visible) }
    ensures messages { OnOk result (messages_in walk.new ≡ record { sent = (messages_in walk.old).sent ++ word ∷ []; received = (messages_in walk.old).received }) }
{
    note_message_place(stand, span, walk);
    note_if(distance == 0, &mut walk.first, Rule::MessageRule, word.span);
    formula(
        e,
        environment,
        between_members(),
        &mut walk.visible,
        &mut walk.first,
    )?;
    walk.messages.sent.push(word)?;
    Ok(())
}

/// Notes the faults of a `recv`, whose label is among the messages then.
pub(crate) fn receive(
    word: Word,
    span: Span,
    stand: StatementContext,
    walk: &mut Walk,
) -> Result<(), NoMemory>
    ensures found { OnOk result (walk.new.first ≡ least walk.old.first (both (stated.faults_of_message_place stand span) (broken_unless stand.looped rule.UnknownName word.span))) }
    ensures same { OnOk result (walk.new.visible ≡ walk.old.visible) }
    ensures messages { OnOk result (messages_in walk.new ≡ record { sent = (messages_in walk.old).sent; received = (messages_in walk.old).received ++ word ∷ [] }) }
{
    note_message_place(stand, span, walk);
    note_unless(stand.looped, &mut walk.first, Rule::UnknownName, word.span);
    walk.messages.received.push(word)?;
    Ok(())
}
