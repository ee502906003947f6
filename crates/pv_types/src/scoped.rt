ghost use Rattle.std.specs.Prelude.{◌≡◌, ◌||◌, ◌&&◌, map, Some, None, Option};
ghost use Rattle.std.specs.Option.{option_map};
ghost use Rattle.pv_ast.specs.declared.Each.{out-Each};
ghost use Rattle.pv_ast.specs.declared.PvType.TheVariants as pv;
ghost use Rattle.pv_ast.specs.declared.standing.Need.TheVariants as need;
ghost use Rattle.pv_ast.specs.Rules.Scoping as scoping;
ghost use Rattle.pv_ast.specs.Rules.Typing as typing;
ghost use Rattle.pv_ast.specs.Rules.Expressions as parts;
ghost use Rattle.pv_ast.specs.Rules.Expressions.{checked_expression, checked_kind, checked_each, args_meet, args_name_local, types_of};
ghost use Rattle.pv_ast.specs.Rules.Statements.{checked_option};
ghost use Rattle.pv_ast.specs.Rules.Programs.{environment_in, visible_in, type_in_scope};

use crate::expressions::{
    A_TRUTH, AN_INT, binary, element, of_part, place, quantified_seen, value,
};
use crate::lookup;
use crate::types::{meets, type_of_typing, typed_if, typing_of_old, typing_or};
use crate::uses::{ArgsSeen, has_type, next_type};
use pv_ast::{
    Class, Declaration, Declared, Each, Expr, ExprKind, Need, Param, Program, PvType, Scope,
    ScopeVar, Seen, Typing,
};
use pv_base::Name;
use sqlite_items::Boxed;

/// The variables of the quantifiers around, the innermost first.
#[cycle(bounds)]
#[derive(Clone, Copy, Drop)]
pub(crate) struct Bounds<'a> {
    pub name: Name,
    pub outer: Option<&'a Bounds<'a>>,
}

ghost use Rattle.pv_types.specs.Bounds.{visible_under, visible_of, or_bound as or_bound_of, visible_under_bounds, this_seen, taken};

/// What a name stands for among the variables of a scope.
fn in_scope(vars: &[ScopeVar], name: Name) -> Option<Declared>
    ensures { result ≡ scoping.declared_as (visible_of vars.now) name }
{
    for var in vars {
        if name.0 == var.name.0 {
            return Some(Declared {
                declaration: Declaration::Parameter,
                kind: var.kind,
            });
        }
    }
    None
}

/// What was found of a name, or else the variable of a quantifier that has the name.
fn or_bound(found: Option<Declared>, name: Name, bound: Name) -> Option<Declared>
    ensures { result ≡ or_bound_of found name bound }
{
    match found {
        Some(declared) => Some(declared),
        None if name.0 == bound.0 => Some(Declared {
            declaration: Declaration::Bound,
            kind: PvType::Int,
        }),
        None => None,
    }
}

/// What a name stands for in a scope or as the variable of one of these quantifiers.
#[tactic(auto, using(crate::proofs::Bounding::declared_with_bound))]
fn declared_under(name: Name, scope: &Scope, bounds: &Bounds) -> Option<Declared>
    ensures { result ≡ scoping.declared_as (visible_under_bounds scope.now bounds.now).names name }
{
    match bounds.outer {
        None => or_bound(in_scope(scope.vars.as_slice(), name), name, bounds.name),
        Some(outer) => or_bound(declared_under(name, scope, outer), name, bounds.name),
    }
}

/// What a name stands for in a scope, or as the variable of a quantifier around.
fn declared(name: Name, scope: &Scope, bounds: Option<&Bounds>) -> Option<Declared>
    ensures { result ≡ scoping.declared_as (visible_under scope.now bounds.entry).names name }
{
    match bounds {
        None => in_scope(scope.vars.as_slice(), name),
        Some(inner) => declared_under(name, scope, inner),
    }
}

/// The class of an object: `this` has the class of the scope, another object the first class of its type's name.
fn class_of<'a>(program: &'a Program, scope: &Scope, this: bool, name: Name) -> Option<&'a Class>
    ensures { option_map (λ c. c.now) result ≡ parts.class_of (environment_in program.now scope.now) this name }
{
    let classes = program.classes.as_slice();
    if this {
        lookup::class_named(classes, scope.class)
    } else {
        lookup::class_named(classes, name)
    }
}

/// The class that a part has, where it is declared.
fn declared_class<'a>(program: &'a Program, scope: &Scope, seen: Seen) -> Option<&'a Class>
    ensures { option_map (λ c. c.now) result ≡ parts.class_of_typing (environment_in program.now scope.now) seen.this seen.typing }
{
    match seen.typing {
        Typing::Typed(kind) => match kind {
            PvType::Object(name) => class_of(program, scope, seen.this, name),
            _ => None,
        },
        _ => None,
    }
}

/// The type of a field of a class.
fn field_type(class: Option<&Class>, name: Name) -> Option<PvType>
    ensures { result ≡ parts.type_of_field (option_map (λ c. c.now) class.entry) name }
{
    match class {
        None => None,
        Some(class) => lookup::field_type_named(class.members.as_slice(), name),
    }
}

/// A variable, or a field of `this`.
fn named(name: Name, program: &Program, scope: &Scope, bounds: Option<&Bounds>) -> Seen
    ensures { result ≡ parts.seen_of_name (environment_in program.now scope.now) name (scoping.variable_named (visible_under scope.now bounds.entry) name) }
{
    match declared(name, scope, bounds) {
        Some(found) => match found.declaration {
            Declaration::Block => own_field(name, program, scope),
            Declaration::Local => value(Typing::Typed(found.kind), true),
            _ => value(Typing::Typed(found.kind), false),
        },
        None => own_field(name, program, scope),
    }
}

/// A field of `this`.
fn own_field(name: Name, program: &Program, scope: &Scope) -> Seen
    ensures { result ≡ parts.seen_of_name (environment_in program.now scope.now) name None }
{
    let class = lookup::class_named(program.classes.as_slice(), scope.class);
    place(typing_or(Typing::Unsettled, field_type(class, name)), false)
}

/// Whether a name is `length`.
fn is_length(program: &Program, name: Name) -> bool
    ensures { result ≡ parts.is_name program.now.length name }
{
    match program.length {
        None => false,
        Some(length) => name.0 == length.0,
    }
}

/// A field of a part, or the length of an array.
fn member(target: Seen, name: Name, program: &Program, scope: &Scope) -> Seen
    ensures { result ≡ parts.seen_of_member (environment_in program.now scope.now) name target }
{
    let length = meets(Need::AnArray, target.typing) && is_length(program, name);
    let typing = if length {
        Typing::Typed(PvType::Int)
    } else {
        let class = declared_class(program, scope, target);
        typing_or(Typing::Unsettled, field_type(class, name))
    };
    Seen {
        typing,
        this: false,
        location: !length,
        local: target.local,
    }
}

fn this(scope: &Scope) -> Seen
    ensures { result ≡ this_seen scope.now.class }
{
    Seen {
        typing: Typing::Typed(PvType::Object(scope.class)),
        this: true,
        location: false,
        local: false,
    }
}

/// The parameters of a predicate on a part, where it is declared.
fn predicate_params<'a>(
    program: &'a Program,
    scope: &Scope,
    object: Seen,
    name: Name,
) -> Option<&'a [Param]>
    ensures { option_map (λ ps. types_of ps.now) result ≡ taken (parts.predicate_signature (parts.holder_of (environment_in program.now scope.now) object) name) }
{
    match declared_class(program, scope, object) {
        None => None,
        Some(class) => match lookup::predicate_named(class.members.as_slice(), name) {
            None => None,
            Some(predicate) => Some(predicate.params.as_slice()),
        },
    }
}

/// `!` before a part.
fn negation(part: Seen) -> Seen
    ensures { result ≡ parts.value_seen (typing.typed_if (typing.meets (need.Exactly pv.Truth) part.typing) pv.Truth) part.local }
{
    of_part(part, A_TRUTH, PvType::Truth)
}

/// `-` before a part.
fn opposite(part: Seen) -> Seen
    ensures { result ≡ parts.value_seen (typing.typed_if (typing.meets (need.Exactly pv.Int) part.typing) pv.Int) part.local }
{
    of_part(part, AN_INT, PvType::Int)
}

/// `\old(..)` around a part.
fn old(part: Seen) -> Seen
    ensures { result ≡ parts.value_seen (typing.typing_of_old part.typing) part.local }
{
    value(typing_of_old(part.typing), part.local)
}

/// A permission for a part.
fn permission(part: Seen) -> Seen
    ensures { result ≡ parts.value_seen (typing.typed_if (typing.is_typed part.typing) pv.Truth) part.local }
{
    of_part(part, Need::Anything, PvType::Truth)
}

/// A token of a thread or a lock on a part.
fn role(part: Seen) -> Seen
    ensures { result ≡ parts.value_seen (typing.typed_if (typing.meets need.AnObject part.typing) pv.Truth) part.local }
{
    of_part(part, Need::AnObject, PvType::Truth)
}

/// What the rules ask of an expression. No memory is taken.
#[cycle(seen)]
fn seen(e: &Expr, program: &Program, scope: &Scope, bounds: Option<&Bounds>) -> Seen
    ensures { result ≡ (checked_expression e.now).seen (environment_in program.now scope.now) (visible_under scope.now bounds.entry) }
{
    seen_in(&e.kind, program, scope, bounds)
}

#[cycle(seen)]
fn seen_in(kind: &ExprKind, program: &Program, scope: &Scope, bounds: Option<&Bounds>) -> Seen
    ensures { result ≡ (checked_kind kind.now).seen (environment_in program.now scope.now) (visible_under scope.now bounds.entry) }
{
    match kind {
        ExprKind::Number(_) => value(Typing::Typed(PvType::Int), false),
        ExprKind::Truth(_) => value(Typing::Typed(PvType::Truth), false),
        ExprKind::Null => value(Typing::Typed(PvType::Null), false),
        ExprKind::This => this(scope),
        ExprKind::Result => value(typing_or(Typing::Untyped, scope.result), false),
        ExprKind::Var(word) => named(word.name, program, scope, bounds),
        ExprKind::Field(e, word) => {
            let target = seen(e.get(), program, scope, bounds);
            member(target, word.name, program, scope)
        }
        ExprKind::Index(e, at) => {
            let array = seen(e.get(), program, scope, bounds);
            element(array, seen(at.get(), program, scope, bounds))
        }
        ExprKind::Not(e) => negation(seen(e.get(), program, scope, bounds)),
        ExprKind::Minus(e) => opposite(seen(e.get(), program, scope, bounds)),
        ExprKind::Binary(operator, a, b) => {
            let left = seen(a.get(), program, scope, bounds);
            binary(*operator, left, seen(b.get(), program, scope, bounds))
        }
        ExprKind::Old(e) => old(seen(e.get(), program, scope, bounds)),
        ExprKind::Perm(e, _, _, _) => permission(seen(e.get(), program, scope, bounds)),
        ExprKind::Token(_, e) => role(seen(e.get(), program, scope, bounds)),
        ExprKind::Instance(target, word, args) => {
            let object = instance_target(target, program, scope, bounds);
            instance(object, word.name, args.as_slice(), program, scope, bounds)
        }
        ExprKind::Each(each) => quantified(each, program, scope, bounds),
    }
}

/// A quantified formula. Its variable is in scope in its body.
#[cycle(seen)]
fn quantified(each: &Each, program: &Program, scope: &Scope, bounds: Option<&Bounds>) -> Seen
    ensures { result ≡ (checked_each each.now).seen (environment_in program.now scope.now) (visible_under scope.now bounds.entry) }
{
    let low = seen(each.low.get(), program, scope, bounds);
    let high = seen(each.high.get(), program, scope, bounds);
    quantified_seen(low, high, quantified_body(each, program, scope, bounds))
}

#[cycle(seen)]
fn quantified_body(each: &Each, program: &Program, scope: &Scope, bounds: Option<&Bounds>) -> Seen
    ensures { result ≡ (checked_expression (out-Each each.now).body).seen (environment_in program.now scope.now) (parts.with_bound (visible_under scope.now bounds.entry) (out-Each each.now).name) }
{
    let inner = Bounds {
        name: each.name.name,
        outer: bounds,
    };
    seen(each.body.get(), program, scope, Some(&inner))
}

/// What an instance of a predicate stands on: an object, or `this` where none is named.
#[cycle(seen)]
fn instance_target(
    target: &Option<Boxed<Expr>>,
    program: &Program,
    scope: &Scope,
    bounds: Option<&Bounds>,
) -> Seen
    ensures { result ≡ parts.seen_of_target (environment_in program.now scope.now) (visible_under scope.now bounds.entry) (checked_option target.now) }
{
    match target {
        None => this(scope),
        Some(e) => seen(e.get(), program, scope, bounds),
    }
}

/// An instance of a predicate on an object.
#[cycle(seen)]
fn instance(
    object: Seen,
    name: Name,
    args: &[Expr],
    program: &Program,
    scope: &Scope,
    bounds: Option<&Bounds>,
) -> Seen
    ensures { result ≡ parts.value_seen (parts.typing_of_use (map checked_expression args.now) (parts.predicate_signature (parts.holder_of (environment_in program.now scope.now) object) name) (environment_in program.now scope.now) (visible_under scope.now bounds.entry)) (object.local || args_name_local (map checked_expression args.now) (environment_in program.now scope.now) (visible_under scope.now bounds.entry)) }
{
    match predicate_params(program, scope, object, name) {
        None => {
            let seen = arguments(args, &[], program, scope, bounds);
            value(Typing::Unsettled, object.local || seen.local)
        }
        Some(params) => {
            let seen = arguments(args, params, program, scope, bounds);
            value(
                typed_if(seen.meet, PvType::Truth),
                object.local || seen.local,
            )
        }
    }
}

/// The arguments of a predicate with such parameters.
#[cycle(seen)]
fn arguments(
    args: &[Expr],
    params: &[Param],
    program: &Program,
    scope: &Scope,
    bounds: Option<&Bounds>,
) -> ArgsSeen
    ensures meet { result.meet ≡ args_meet (map checked_expression args.now) (types_of params.now) (environment_in program.now scope.now) (visible_under scope.now bounds.entry) }
    ensures local { result.local ≡ args_name_local (map checked_expression args.now) (environment_in program.now scope.now) (visible_under scope.now bounds.entry) }
{
    let mut left = params;
    let mut meet = true;
    let mut local = false;
    for arg in args {
        let (needed, rest) = next_type(left);
        left = rest;
        let each = seen(arg, program, scope, bounds);
        meet &= has_type(needed, each.typing);
        local |= each.local;
    }
    ArgsSeen { meet, local }
}

/// The type of an expression in a scope. None comes exactly where the rules give it no type: where a name in it isn't declared,
/// a part of it hasn't the type that it needs, or the whole has none. No memory is taken.
pub fn type_of(program: &Program, scope: &Scope, e: &Expr) -> Option<PvType>
    ensures { result ≡ type_in_scope program.now scope.now e.now }
{
    type_of_typing(seen(e, program, scope, None).typing)
}
