ghost use Rattle.std.specs.Prelude.{◌≡◌, map, IfOk, OnOk, if◌then◌else◌};
ghost use Rattle.pv_ast.specs.declared.standing.Typing.TheVariants as typings;
ghost use Rattle.pv_ast.specs.declared.PvType.TheVariants as pv;
ghost use Rattle.pv_ast.specs.declared.standing.Need.TheVariants as need;
ghost use Rattle.pv_ast.specs.Rules.Faults.{least};
ghost use Rattle.pv_ast.specs.Rules.Typing as typing;
ghost use Rattle.pv_ast.specs.Rules.Expressions.{checked_expression, faults_of_use, faults_of_call as faults_of_call_of, faults_of_instance as faults_of_instance_of, method_in, method_signature};
ghost use Rattle.pv_ast.specs.Rules.Statements as stated;
ghost use Rattle.pv_types.specs.Environments.{environment_of, members_in};

use crate::Visible;
use crate::environment::{Environment, Holder};
use crate::expressions::part;
use crate::noting::note_unless;
use crate::site::Site;
use crate::types::{meets, note_wrong_type, typed_if, typing_of_new_array};
use crate::uses::{instance, member_use, object};
use pv_ast::{Expr, Fault, Method, Need, PvType, Right, RightKind, Rule, TypeWord, Typing, Word};
use pv_base::{NoMemory, Span};

/// A call has the type of its method's result, and none where there is no result.
fn call_typing(method: &Method, meet: bool) -> Typing
    ensures { result ≡ (if meet then typing.typing_or typings.Untyped (stated.option_type method.now.result) else typings.Unsettled) }
{
    if !meet {
        return Typing::Unsettled;
    }
    match method.result {
        None => Typing::Untyped,
        Some(word) => Typing::Typed(word.kind),
    }
}

/// The type of a call of a method that is looked up there, whose faults are noted.
fn call_on(
    holder: Holder,
    word: Word,
    args: &[Expr],
    environment: &Environment,
    visible: &mut Visible,
    first: &mut Option<Fault>,
) -> Result<Typing, NoMemory>
    ensures typing { IfOk result (λ found. found ≡ stated.typing_of_call (environment_of environment.now) visible.old (map checked_expression args.now) (method_in (members_in holder.entry) word.name)) }
    ensures found { OnOk result (first.new ≡ least first.old (faults_of_use word (map checked_expression args.now) (method_signature (members_in holder.entry) word.name) (environment_of environment.now) visible.old stated.in_statement)) }
    ensures same { OnOk result (visible.new ≡ visible.old) }
{
    let site = Site::in_statement(environment);
    let signature = holder.method_signature(word.name);
    let seen = member_use(word, args, signature, site, visible, first)?;
    match holder.method(word.name) {
        None => Ok(Typing::Unsettled),
        Some(method) => Ok(call_typing(method, seen.meet)),
    }
}

/// The type of a call, whose faults are noted.
pub(crate) fn call(
    target: &Option<Expr>,
    word: Word,
    args: &[Expr],
    environment: &Environment,
    visible: &mut Visible,
    first: &mut Option<Fault>,
) -> Result<Typing, NoMemory>
    ensures typing { IfOk result (λ found. found ≡ stated.typing_of_call (environment_of environment.now) visible.old (stated.parts_of args.now) (stated.called_method (environment_of environment.now) visible.old (stated.checked_option target.now) word.name)) }
    ensures found { OnOk result (first.new ≡ least first.old (faults_of_call_of (stated.checked_option target.now) word (stated.parts_of args.now) (environment_of environment.now) visible.old stated.in_statement)) }
    ensures same { OnOk result (visible.new ≡ visible.old) }
{
    let object = object(target, Site::in_statement(environment), visible, first)?;
    call_on(
        environment.holder(object),
        word,
        args,
        environment,
        visible,
        first,
    )
}

/// Notes the faults of an instance that is folded or unfolded.
pub(crate) fn fold(
    target: &Option<Expr>,
    word: Word,
    args: &[Expr],
    environment: &Environment,
    visible: &mut Visible,
    first: &mut Option<Fault>,
) -> Result<(), NoMemory>
    ensures found { OnOk result (first.new ≡ least first.old (faults_of_instance_of (stated.checked_option target.now) word (stated.parts_of args.now) (environment_of environment.now) visible.old stated.in_statement)) }
    ensures same { OnOk result (visible.new ≡ visible.old) }
{
    let site = Site::in_statement(environment);
    let object = object(target, site, visible, first)?;
    instance(object, word, args, site, visible, first)?;
    Ok(())
}

/// Notes the faults of an expression of a statement, of which a type is needed.
pub(crate) fn expression(
    e: &Expr,
    environment: &Environment,
    need: Need,
    visible: &mut Visible,
    first: &mut Option<Fault>,
) -> Result<(), NoMemory>
    ensures found { OnOk result (first.new ≡ least first.old (stated.faults_of_expression (environment_of environment.now) visible.old need e.now)) }
    ensures same { OnOk result (visible.new ≡ visible.old) }
{
    part(e, Site::in_statement(environment), need, visible, first)?;
    Ok(())
}

/// The type of a new array, whose faults are noted but for its own type.
fn new_array(
    element: TypeWord,
    length: &Expr,
    environment: &Environment,
    visible: &mut Visible,
    first: &mut Option<Fault>,
) -> Result<Typing, NoMemory>
    ensures typing { IfOk result (λ found. found ≡ (if typing.meets (need.Exactly pv.Int) ((checked_expression length.now).seen (environment_of environment.now) visible.old).typing then stated.typing_of_array element.kind else typings.Unsettled)) }
    ensures found { OnOk result (first.new ≡ least first.old (stated.faults_of_expression (environment_of environment.now) visible.old (need.Exactly pv.Int) length.now)) }
    ensures same { OnOk result (visible.new ≡ visible.old) }
{
    let an_int = Need::Exactly(PvType::Int);
    let site = Site::in_statement(environment);
    let seen = part(length, site, an_int, visible, first)?;
    if meets(an_int, seen.typing) {
        Ok(typing_of_new_array(element.kind))
    } else {
        Ok(Typing::Unsettled)
    }
}

/// Notes the faults of a right side, of which a type is needed.
pub(crate) fn right(
    value: &Right,
    environment: &Environment,
    need: Need,
    visible: &mut Visible,
    first: &mut Option<Fault>,
) -> Result<(), NoMemory>
    ensures found { OnOk result (first.new ≡ least first.old (stated.faults_of_right (environment_of environment.now) visible.old need value.now)) }
    ensures same { OnOk result (visible.new ≡ visible.old) }
{
    match &value.kind {
        RightKind::Value(e) => expression(e, environment, need, visible, first),
        RightKind::Call(target, word, args) => {
            let typing = call(target, *word, args.as_slice(), environment, visible, first)?;
            note_wrong_type(need, typing, first, value.span);
            Ok(())
        }
        RightKind::NewObject(word) => {
            let declared = environment.is_class(word.name);
            note_unless(declared, first, Rule::UnknownName, word.span);
            let typing = typed_if(declared, PvType::Object(word.name));
            note_wrong_type(need, typing, first, value.span);
            Ok(())
        }
        RightKind::NewArray(element, length) => {
            let typing = new_array(*element, length, environment, visible, first)?;
            note_wrong_type(need, typing, first, value.span);
            Ok(())
        }
    }
}

/// Notes the faults of a local's first value, if it has one.
pub(crate) fn first_value(
    value: &Option<Right>,
    environment: &Environment,
    need: Need,
    visible: &mut Visible,
    first: &mut Option<Fault>,
) -> Result<(), NoMemory>
    ensures found { OnOk result (first.new ≡ least first.old (stated.faults_of_first_value (environment_of environment.now) visible.old need value.now)) }
    ensures same { OnOk result (visible.new ≡ visible.old) }
{
    match value {
        None => Ok(()),
        Some(value) => right(value, environment, need, visible, first),
    }
}

/// Whether a right side is a call or a `new`.
pub(crate) fn is_made(value: &Right) -> bool
    ensures { result ≡ stated.is_made value.now.kind }
{
    match &value.kind {
        RightKind::Value(_) => false,
        RightKind::Call(_, _, _) => true,
        RightKind::NewObject(_) => true,
        RightKind::NewArray(_, _) => true,
    }
}

pub(crate) fn is_made_first(value: &Option<Right>) -> bool
    ensures { result ≡ stated.is_made_first value.now }
{
    match value {
        None => false,
        Some(value) => is_made(value),
    }
}
