ghost use Rattle.std.specs.Prelude.{◌≡◌, ◌&&◌, ◌||◌, not, map, Some, None, IfOk, OnOk, if◌then◌else◌};
ghost use Rattle.pv_ast.specs.declared.PvType.TheVariants as pv;
ghost use Rattle.pv_ast.specs.declared.fault.Rule.TheVariants as rule;
ghost use Rattle.pv_ast.specs.declared.standing.Typing.TheVariants as typings;
ghost use Rattle.pv_ast.specs.Rules.Faults.{least, both, broken_if};
ghost use Rattle.pv_ast.specs.Rules.Typing as typing;
ghost use Rattle.pv_ast.specs.Rules.Scoping as scoping;
ghost use Rattle.pv_ast.specs.Rules.Statements.{option_type, typing_of_call, checked_option};
ghost use Rattle.pv_ast.specs.Rules.Expressions as parts;
ghost use Rattle.pv_ast.specs.Rules.Expressions.{checked_expression, args_meet, args_name_local, types_of, seen_of_target, faults_of_args, param_types, typing_of_use, value_seen, holder_of, predicate_signature};
ghost use Rattle.pv_types.specs.Environments.{signature_of, IsNextType, has_type as has_type_of};
ghost use Rattle.pv_types.specs.Sites.{around};

use crate::Visible;
use crate::environment::Signature;
use crate::expressions::part;
use crate::noting::note_if;
use crate::site::Site;
use crate::types::{meets, need_of_result, typed_if};
use pv_ast::{Expr, Fault, Method, Need, Param, PvType, Rule, Seen, Typing, Word};
use pv_base::NoMemory;

/// What arguments are: whether each has a type, and its parameter's where there is one; and whether a local variable stands in
/// one.
#[derive(Clone, Copy, Drop)]
pub struct ArgsSeen {
    pub meet: bool,
    pub local: bool,
}

/// The type of the next parameter, and the parameters behind it.
pub fn next_type(params: &[Param]) -> (Option<PvType>, &[Param])
    ensures { IsNextType params.now result.0 result.1.now }
{
    match params.split_first() {
        None => (None, params),
        Some((param, rest)) => (Some(param.kind.kind), rest),
    }
}

/// Whether an argument has its parameter's type, or any where it stands beyond the parameters.
pub fn has_type(needed: Option<PvType>, found: Typing) -> bool
    ensures { result ≡ has_type_of needed found }
{
    match needed {
        None => meets(Need::Anything, found),
        Some(kind) => meets(Need::Exactly(kind), found),
    }
}

/// The arguments of a method or predicate with such parameters.
#[cycle(part)]
fn arguments(
    args: &[Expr],
    params: &[Param],
    site: Site,
    visible: &mut Visible,
    first: &mut Option<Fault>,
) -> Result<ArgsSeen, NoMemory>
    ensures meet { IfOk result (λ seen. seen.meet ≡ args_meet (map checked_expression args.now) (types_of params.now) (around site.entry) visible.old) }
    ensures local { IfOk result (λ seen. seen.local ≡ args_name_local (map checked_expression args.now) (around site.entry) visible.old) }
    ensures found { OnOk result (first.new ≡ least first.old (faults_of_args (map checked_expression args.now) (types_of params.now) (around site.entry) visible.old site.entry.context)) }
    ensures same { OnOk result (visible.new ≡ visible.old) }
{
    let mut left = params;
    let mut meet = true;
    let mut local = false;
    for arg in args {
        let (needed, rest) = next_type(left);
        left = rest;
        let need = need_of_result(needed);
        let seen = part(arg, site, need, visible, first)?;
        meet &= has_type(needed, seen.typing);
        local |= seen.local;
    }
    Ok(ArgsSeen { meet, local })
}

/// The use of a method or predicate of which so much is known.
#[cycle(part)]
pub(crate) fn member_use(
    word: Word,
    args: &[Expr],
    signature: Signature,
    site: Site,
    visible: &mut Visible,
    first: &mut Option<Fault>,
) -> Result<ArgsSeen, NoMemory>
    ensures meet { IfOk result (λ seen. seen.meet ≡ args_meet (map checked_expression args.now) (param_types (signature_of signature.entry)) (around site.entry) visible.old) }
    ensures local { IfOk result (λ seen. seen.local ≡ args_name_local (map checked_expression args.now) (around site.entry) visible.old) }
    ensures found { OnOk result (first.new ≡ least first.old (parts.faults_of_use word (map checked_expression args.now) (signature_of signature.entry) (around site.entry) visible.old site.entry.context)) }
    ensures same { OnOk result (visible.new ≡ visible.old) }
{
    match signature {
        Signature::Unsought => arguments(args, &[], site, visible, first),
        Signature::Unknown => {
            note_if(true, first, Rule::UnknownName, word.span);
            arguments(args, &[], site, visible, first)
        }
        Signature::Known(params) => {
            let seen = arguments(args, params, site, visible, first)?;
            note_if(
                args.len() != params.len(),
                first,
                Rule::WrongCount,
                word.span,
            );
            Ok(seen)
        }
    }
}

/// An instance of a predicate on an object.
#[cycle(part)]
pub(crate) fn instance(
    object: Seen,
    word: Word,
    args: &[Expr],
    site: Site,
    visible: &mut Visible,
    first: &mut Option<Fault>,
) -> Result<Seen, NoMemory>
    ensures seen { IfOk result (λ seen. seen ≡ value_seen (typing_of_use (map checked_expression args.now) (predicate_signature (holder_of (around site.entry) object) word.name) (around site.entry) visible.old) (object.local || args_name_local (map checked_expression args.now) (around site.entry) visible.old)) }
    ensures found { OnOk result (first.new ≡ least first.old (parts.faults_of_predicate_use object word (map checked_expression args.now) (around site.entry) visible.old site.entry.context)) }
    ensures same { OnOk result (visible.new ≡ visible.old) }
{
    let signature = site.environment.holder(object).predicate(word.name);
    let seen = member_use(word, args, signature, site, visible, first)?;
    let known = matches!(signature, Signature::Known(_));
    Ok(Seen {
        typing: typed_if(known && seen.meet, PvType::Truth),
        this: false,
        location: false,
        local: object.local || seen.local,
    })
}

/// What stands before the name of a method or predicate: an object, or nothing, which means `this`.
pub(crate) fn object(
    target: &Option<Expr>,
    site: Site,
    visible: &mut Visible,
    first: &mut Option<Fault>,
) -> Result<Seen, NoMemory>
    ensures seen { IfOk result (λ seen. seen ≡ seen_of_target (around site.entry) visible.old (checked_option target.now)) }
    ensures found { OnOk result (first.new ≡ least first.old (parts.faults_of_target (around site.entry) visible.old site.entry.context (checked_option target.now))) }
    ensures same { OnOk result (visible.new ≡ visible.old) }
{
    match target {
        None => Ok(site.environment.this()),
        Some(e) => part(e, site, Need::AnObject, visible, first),
    }
}
