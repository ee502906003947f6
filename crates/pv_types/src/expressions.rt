ghost use Rattle.std.specs.Prelude.{◌≡◌, ◌||◌, ◌&&◌, not, map, true, false, IfOk, OnOk};
ghost use Rattle.pv_ast.specs.declared.Each.{out-Each};
ghost use Rattle.pv_ast.specs.declared.ExprKind.{ExprKind-F as kind};
ghost use Rattle.pv_ast.specs.declared.PvType.TheVariants as pv;
ghost use Rattle.pv_ast.specs.declared.fault.Rule.TheVariants as rule;
ghost use Rattle.pv_ast.specs.declared.standing.Need.TheVariants as need;
ghost use Rattle.pv_ast.specs.Rules.Faults.{least, both, broken_if, broken_unless};
ghost use Rattle.pv_ast.specs.Rules.Typing as typing;
ghost use Rattle.pv_ast.specs.Rules.Scoping as scoping;
ghost use Rattle.pv_ast.specs.Rules.Expressions.{checked_expression, checked_kind, checked_each, checked_in_kind, seen_of_name, faults_of_name, faults_of_written, faults_of_location, faults_of_target, faults_of_field, faults_of_old, value_seen, place_seen, seen_of_result, seen_of_target, with_bound};
ghost use Rattle.pv_ast.specs.Rules.Statements.{checked_option};
ghost use Rattle.pv_types.specs.Sites.{around};

use crate::Visible;
use crate::noting::{note_if, note_unless};
use crate::site::Site;
use crate::standing::{under_left, under_quantifier, under_right};
use crate::types::{
    is_amount, meets, need_of_operator, note_wrong_type, typed_if, typing_of_element,
    typing_of_old, typing_of_operator, typing_or,
};
use crate::uses::instance;
use pv_ast::{
    Declaration, Declared, Each, Expr, ExprKind, Fault, Need, Operator, PvType, Rule, Seen, Token,
    Typing, Word,
};
use pv_base::{Name, NoMemory, Span};
use sqlite_items::Boxed;

pub const AN_INT: Need = Need::Exactly(PvType::Int);

pub const A_TRUTH: Need = Need::Exactly(PvType::Truth);

/// A value that is no place.
pub fn value(typing: Typing, local: bool) -> Seen
    ensures { result ≡ value_seen typing local }
{
    Seen {
        typing,
        this: false,
        location: false,
        local,
    }
}

pub fn place(typing: Typing, local: bool) -> Seen
    ensures { result ≡ place_seen typing local }
{
    Seen {
        typing,
        this: false,
        location: true,
        local,
    }
}

/// A value of a type, where its part has the one that is needed.
pub fn of_part(part: Seen, need: Need, kind: PvType) -> Seen
    ensures { result ≡ value_seen (typing.typed_if (typing.meets need part.typing) kind) part.local }
{
    value(typed_if(meets(need, part.typing), kind), part.local)
}

/// A quantified formula over such bounds and of such a body.
pub fn quantified_seen(low: Seen, high: Seen, body: Seen) -> Seen
    ensures { result ≡ value_seen (typing.typed_if (typing.both_meet (need.Exactly pv.Int) low.typing high.typing && typing.meets (need.Exactly pv.Truth) body.typing) pv.Truth) (low.local || (high.local || body.local)) }
{
    let bounds = meets(AN_INT, low.typing) && meets(AN_INT, high.typing);
    let typing = typed_if(bounds && meets(A_TRUTH, body.typing), PvType::Truth);
    value(typing, low.local || high.local || body.local)
}

/// What an expression is, where its faults are noted. Without memory what is noted and what is in scope mean nothing.
#[cycle(part)]
pub(crate) fn part(
    e: &Expr,
    site: Site,
    need: Need,
    visible: &mut Visible,
    first: &mut Option<Fault>,
) -> Result<Seen, NoMemory>
    ensures seen { IfOk result (λ seen. seen ≡ (checked_expression e.now).seen (around site.entry) visible.old) }
    ensures found { OnOk result (first.new ≡ least first.old ((checked_expression e.now).faults (around site.entry) visible.old site.entry.context need)) }
    ensures same { OnOk result (visible.new ≡ visible.old) }
{
    let seen = part_in(&e.kind, e.span, site, visible, first)?;
    note_wrong_type(need, seen.typing, first, e.span);
    Ok(seen)
}

#[cycle(part)]
fn part_in(
    kind: &ExprKind,
    span: Span,
    site: Site,
    visible: &mut Visible,
    first: &mut Option<Fault>,
) -> Result<Seen, NoMemory>
    ensures seen { IfOk result (λ seen. seen ≡ (checked_kind kind.now).seen (around site.entry) visible.old) }
    ensures found { OnOk result (first.new ≡ least first.old ((checked_kind kind.now).faults span (around site.entry) visible.old site.entry.context)) }
    ensures same { OnOk result (visible.new ≡ visible.old) }
{
    match kind {
        ExprKind::Number(_) => Ok(value(Typing::Typed(PvType::Int), false)),
        ExprKind::Truth(_) => Ok(value(Typing::Typed(PvType::Truth), false)),
        ExprKind::Null => Ok(value(Typing::Typed(PvType::Null), false)),
        ExprKind::This => Ok(site.environment.this()),
        ExprKind::Result => Ok(result_part(span, site, first)),
        ExprKind::Var(word) => Ok(name(*word, site, visible, first)),
        ExprKind::Field(e, word) => field(e.get(), *word, site, visible, first),
        ExprKind::Index(e, at) => {
            let array = part(e.get(), site, Need::AnArray, visible, first)?;
            let index = part(at.get(), site, AN_INT, visible, first)?;
            Ok(element(array, index))
        }
        ExprKind::Not(e) => negation(e.get(), site, visible, first),
        ExprKind::Minus(e) => opposite(e.get(), site, visible, first),
        ExprKind::Binary(operator, a, b) => {
            let left = left_operand(*operator, a.get(), site, visible, first)?;
            let right = right_operand(*operator, b.get(), site, visible, first)?;
            Ok(binary(*operator, left, right))
        }
        ExprKind::Old(e) => old(e.get(), span, site, visible, first),
        ExprKind::Perm(e, part, whole, amount) => {
            permission(e.get(), *part, *whole, *amount, span, site, visible, first)
        }
        ExprKind::Token(token, e) => role(*token, e.get(), span, site, visible, first),
        ExprKind::Instance(target, word, args) => {
            note_if(site.context.pure, first, Rule::NotPure, span);
            let inner = site.purely();
            let object = instance_target(target, inner, visible, first)?;
            instance(object, *word, args.as_slice(), inner, visible, first)
        }
        ExprKind::Each(e) => quantified(e, span, site, visible, first),
    }
}

/// `\result`, which stands only in an `ensures` of a method with a result type.
fn result_part(span: Span, site: Site, first: &mut Option<Fault>) -> Seen
    ensures seen { result ≡ seen_of_result (around site.entry).result }
    ensures found { first.new ≡ least first.old (broken_unless site.entry.context.result rule.ResultPlace span) }
{
    note_unless(site.context.result, first, Rule::ResultPlace, span);
    value(typing_or(Typing::Untyped, site.environment.result), false)
}

/// A variable in scope, or a field of `this`.
fn name(word: Word, site: Site, visible: &Visible, first: &mut Option<Fault>) -> Seen
    ensures seen { result ≡ seen_of_name (around site.entry) word.name (scoping.variable_named visible.now word.name) }
    ensures found { first.new ≡ least first.old (faults_of_name (around site.entry) visible.now site.entry.context word) }
{
    let variable = visible.variable(word.name);
    let field = site.environment.own_field(word.name);
    let declared = variable.is_some() || field.is_some();
    note_unless(declared, first, Rule::UnknownName, word.span);
    let hidden = !site.context.locals && visible.is_inner_local(word.name);
    note_if(hidden, first, Rule::FormulaScope, word.span);
    match variable {
        None => place(typing_or(Typing::Unsettled, field), false),
        Some(found) => {
            let local = matches!(found.declaration, Declaration::Local);
            value(Typing::Typed(found.kind), local)
        }
    }
}

/// A field, or the length of an array.
#[cycle(part)]
fn field(
    e: &Expr,
    word: Word,
    site: Site,
    visible: &mut Visible,
    first: &mut Option<Fault>,
) -> Result<Seen, NoMemory>
    ensures seen { IfOk result (λ seen. seen ≡ (checked_in_kind (kind.Field (checked_expression e.now) word)).seen (around site.entry) visible.old) }
    ensures found { OnOk result (first.new ≡ least first.old (faults_of_field (checked_expression e.now) word (around site.entry) visible.old site.entry.context)) }
    ensures same { OnOk result (visible.new ≡ visible.old) }
{
    let need = site.environment.need_of_target(word.name);
    let target = part(e, site, need, visible, first)?;
    let holder = site.environment.holder(target);
    note_if(
        holder.lacks_field(word.name),
        first,
        Rule::UnknownName,
        word.span,
    );
    let length = site.environment.is_array_length(word.name, target.typing);
    let typing = if length {
        Typing::Typed(PvType::Int)
    } else {
        holder.field_typing(word.name)
    };
    Ok(Seen {
        typing,
        this: false,
        location: !length,
        local: target.local,
    })
}

/// An element of an array.
pub fn element(array: Seen, index: Seen) -> Seen
    ensures { result ≡ place_seen (typing.typing_of_element array.typing index.typing) (array.local || index.local) }
{
    let typing = typing_of_element(array.typing, index.typing);
    place(typing, array.local || index.local)
}

pub fn binary(operator: Operator, left: Seen, right: Seen) -> Seen
    ensures { result ≡ value_seen (typing.typing_of_operator operator left.typing right.typing) (left.local || right.local) }
{
    let typing = typing_of_operator(operator, left.typing, right.typing);
    value(typing, left.local || right.local)
}

/// The left operand of an operator.
#[cycle(part)]
fn left_operand(
    operator: Operator,
    e: &Expr,
    site: Site,
    visible: &mut Visible,
    first: &mut Option<Fault>,
) -> Result<Seen, NoMemory>
    ensures seen { IfOk result (λ seen. seen ≡ (checked_expression e.now).seen (around site.entry) visible.old) }
    ensures found { OnOk result (first.new ≡ least first.old ((checked_expression e.now).faults (around site.entry) visible.old (typing.under_left operator site.entry.context) (typing.need_of_operator operator))) }
    ensures same { OnOk result (visible.new ≡ visible.old) }
{
    let inner = site.with_context(under_left(operator, site.context));
    part(e, inner, need_of_operator(operator), visible, first)
}

/// The right operand of an operator.
#[cycle(part)]
fn right_operand(
    operator: Operator,
    e: &Expr,
    site: Site,
    visible: &mut Visible,
    first: &mut Option<Fault>,
) -> Result<Seen, NoMemory>
    ensures seen { IfOk result (λ seen. seen ≡ (checked_expression e.now).seen (around site.entry) visible.old) }
    ensures found { OnOk result (first.new ≡ least first.old ((checked_expression e.now).faults (around site.entry) visible.old (typing.under_right operator site.entry.context) (typing.need_of_operator operator))) }
    ensures same { OnOk result (visible.new ≡ visible.old) }
{
    let inner = site.with_context(under_right(operator, site.context));
    part(e, inner, need_of_operator(operator), visible, first)
}

#[cycle(part)]
fn negation(
    e: &Expr,
    site: Site,
    visible: &mut Visible,
    first: &mut Option<Fault>,
) -> Result<Seen, NoMemory>
    ensures seen { IfOk result (λ seen. seen ≡ (checked_in_kind (kind.Not (checked_expression e.now))).seen (around site.entry) visible.old) }
    ensures found { OnOk result (first.new ≡ least first.old ((checked_expression e.now).faults (around site.entry) visible.old (typing.purely site.entry.context) (need.Exactly pv.Truth))) }
    ensures same { OnOk result (visible.new ≡ visible.old) }
{
    let truth = part(e, site.purely(), A_TRUTH, visible, first)?;
    Ok(of_part(truth, A_TRUTH, PvType::Truth))
}

#[cycle(part)]
fn opposite(
    e: &Expr,
    site: Site,
    visible: &mut Visible,
    first: &mut Option<Fault>,
) -> Result<Seen, NoMemory>
    ensures seen { IfOk result (λ seen. seen ≡ (checked_in_kind (kind.Minus (checked_expression e.now))).seen (around site.entry) visible.old) }
    ensures found { OnOk result (first.new ≡ least first.old ((checked_expression e.now).faults (around site.entry) visible.old site.entry.context (need.Exactly pv.Int))) }
    ensures same { OnOk result (visible.new ≡ visible.old) }
{
    let number = part(e, site, AN_INT, visible, first)?;
    Ok(of_part(number, AN_INT, PvType::Int))
}

/// `\old(..)`, which reads the state that a method began in.
#[cycle(part)]
fn old(
    e: &Expr,
    span: Span,
    site: Site,
    visible: &mut Visible,
    first: &mut Option<Fault>,
) -> Result<Seen, NoMemory>
    ensures seen { IfOk result (λ seen. seen ≡ (checked_in_kind (kind.Old (checked_expression e.now))).seen (around site.entry) visible.old) }
    ensures found { OnOk result (first.new ≡ least first.old (faults_of_old (checked_expression e.now) span (around site.entry) visible.old site.entry.context)) }
    ensures same { OnOk result (visible.new ≡ visible.old) }
{
    let now = part(e, site.purely(), Need::Anything, visible, first)?;
    note_if(!site.context.old || now.local, first, Rule::OldPlace, span);
    Ok(value(typing_of_old(now.typing), now.local))
}

/// A permission of so many parts of so many for a location. The amount stands in a span of its own.
#[cycle(part)]
fn permission(
    e: &Expr,
    part: u64,
    whole: u64,
    amount: Span,
    span: Span,
    site: Site,
    visible: &mut Visible,
    first: &mut Option<Fault>,
) -> Result<Seen, NoMemory>
    ensures seen { IfOk result (λ seen. seen ≡ (checked_in_kind (kind.Perm (checked_expression e.now) part whole amount)).seen (around site.entry) visible.old) }
    ensures found { OnOk result (first.new ≡ least first.old ((checked_in_kind (kind.Perm (checked_expression e.now) part whole amount)).faults span (around site.entry) visible.old site.entry.context)) }
    ensures same { OnOk result (visible.new ≡ visible.old) }
{
    note_if(site.context.pure, first, Rule::NotPure, span);
    note_unless(is_amount(part, whole), first, Rule::BadFraction, amount);
    location(e, site, visible, first)
}

/// What a permission is of.
#[cycle(part)]
fn location(
    e: &Expr,
    site: Site,
    visible: &mut Visible,
    first: &mut Option<Fault>,
) -> Result<Seen, NoMemory>
    ensures seen { IfOk result (λ seen. seen ≡ value_seen (typing.typed_if (typing.is_typed ((checked_expression e.now).seen (around site.entry) visible.old).typing) pv.Truth) ((checked_expression e.now).seen (around site.entry) visible.old).local) }
    ensures found { OnOk result (first.new ≡ least first.old (faults_of_location (checked_expression e.now) (around site.entry) visible.old site.entry.context)) }
    ensures same { OnOk result (visible.new ≡ visible.old) }
{
    let place = part(e, site, Need::Anything, visible, first)?;
    note_unless(place.location, first, Rule::NotALocation, e.span);
    Ok(of_part(place, Need::Anything, PvType::Truth))
}

/// A token of a thread or a lock.
#[cycle(part)]
fn role(
    token: Token,
    e: &Expr,
    span: Span,
    site: Site,
    visible: &mut Visible,
    first: &mut Option<Fault>,
) -> Result<Seen, NoMemory>
    ensures seen { IfOk result (λ seen. seen ≡ (checked_in_kind (kind.Token token (checked_expression e.now))).seen (around site.entry) visible.old) }
    ensures found { OnOk result (first.new ≡ least first.old ((checked_in_kind (kind.Token token (checked_expression e.now))).faults span (around site.entry) visible.old site.entry.context)) }
    ensures same { OnOk result (visible.new ≡ visible.old) }
{
    note_if(site.context.pure, first, Rule::NotPure, span);
    let object = part(e, site, Need::AnObject, visible, first)?;
    note_if(
        site.environment.lacks_role(token, object),
        first,
        Rule::NoRole,
        e.span,
    );
    Ok(of_part(object, Need::AnObject, PvType::Truth))
}

/// What an instance of a predicate stands on: an object, or `this` where none is named.
#[cycle(part)]
fn instance_target(
    target: &Option<Boxed<Expr>>,
    site: Site,
    visible: &mut Visible,
    first: &mut Option<Fault>,
) -> Result<Seen, NoMemory>
    ensures seen { IfOk result (λ seen. seen ≡ seen_of_target (around site.entry) visible.old (checked_option target.now)) }
    ensures found { OnOk result (first.new ≡ least first.old (faults_of_target (around site.entry) visible.old site.entry.context (checked_option target.now))) }
    ensures same { OnOk result (visible.new ≡ visible.old) }
{
    match target {
        None => Ok(site.environment.this()),
        Some(e) => part(e.get(), site, Need::AnObject, visible, first),
    }
}

/// A quantified formula. Its variable is in scope in its body.
#[cycle(part)]
fn quantified(
    e: &Each,
    span: Span,
    site: Site,
    visible: &mut Visible,
    first: &mut Option<Fault>,
) -> Result<Seen, NoMemory>
    ensures seen { IfOk result (λ seen. seen ≡ (checked_each e.now).seen (around site.entry) visible.old) }
    ensures found { OnOk result (first.new ≡ least first.old ((checked_each e.now).faults span (around site.entry) visible.old site.entry.context)) }
    ensures same { OnOk result (visible.new ≡ visible.old) }
{
    note_if(e.star && site.context.pure, first, Rule::NotPure, span);
    note_if(
        visible.is_visible(e.name.name),
        first,
        Rule::Shadows,
        e.name.span,
    );
    let low = part(e.low.get(), site, AN_INT, visible, first)?;
    let high = part(e.high.get(), site, AN_INT, visible, first)?;
    let inner = site.with_context(under_quantifier(e.star, site.context));
    let body = quantified_body(e, inner, visible, first)?;
    note_written(e.name.name, &e.written, first);
    Ok(quantified_seen(low, high, body))
}

#[cycle(part)]
fn quantified_body(
    e: &Each,
    site: Site,
    visible: &mut Visible,
    first: &mut Option<Fault>,
) -> Result<Seen, NoMemory>
    ensures seen { IfOk result (λ seen. seen ≡ (checked_expression (out-Each e.now).body).seen (around site.entry) (with_bound visible.old (out-Each e.now).name)) }
    ensures found { OnOk result (first.new ≡ least first.old ((checked_expression (out-Each e.now).body).faults (around site.entry) (with_bound visible.old (out-Each e.now).name) site.entry.context (need.Exactly pv.Truth))) }
    ensures same { OnOk result (visible.new ≡ visible.old) }
{
    let mark = visible.mark();
    let bound = Declared {
        declaration: Declaration::Bound,
        kind: PvType::Int,
    };
    visible.declare(e.name.name, bound)?;
    let body = part(e.body.get(), site, A_TRUTH, visible, first)?;
    visible.leave(mark);
    Ok(body)
}

/// The form of bounds that repeats the bound variable.
fn note_written(name: Name, written: &Option<(Word, Word)>, first: &mut Option<Fault>)
    ensures { first.new ≡ least first.old (faults_of_written name written.now) }
{
    if let Some((low, high)) = written {
        note_unless(name.0 == low.name.0, first, Rule::RangeName, low.span);
        note_unless(name.0 == high.name.0, first, Rule::RangeName, high.span);
    }
}
