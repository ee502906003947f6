ghost use Rattle.std.specs.Prelude.{◌≡◌, ◌&&◌, ◌||◌, true};
ghost use Rattle.pv_ast.specs.Rules.Typing as typing;
ghost use Rattle.pv_ast.specs.Rules.Expressions.{under_quantifier as under_quantifier_of};
ghost use Rattle.pv_ast.specs.Rules.Statements as stated;
ghost use Rattle.pv_ast.specs.Rules.Programs.{at_body as at_body_of, in_ensures as in_ensures_of};

use pv_ast::{Context, Operator, StatementContext, Surround};

/// Where a truth value is needed: at any depth under it nothing but what is pure may stand.
pub(crate) fn purely(context: Context) -> Context
    ensures { result ≡ typing.purely context }
{
    Context {
        pure: true,
        result: context.result,
        old: context.old,
        locals: context.locals,
    }
}

pub(crate) fn under_left(operator: Operator, context: Context) -> Context
    ensures { result ≡ typing.under_left operator context }
{
    match operator {
        Operator::Eq | Operator::Ne => purely(context),
        Operator::And | Operator::Or | Operator::Implies => purely(context),
        _ => context,
    }
}

pub(crate) fn under_right(operator: Operator, context: Context) -> Context
    ensures { result ≡ typing.under_right operator context }
{
    match operator {
        Operator::Eq | Operator::Ne => purely(context),
        Operator::And | Operator::Or => purely(context),
        _ => context,
    }
}

pub(crate) fn under_quantifier(star: bool, context: Context) -> Context
    ensures { result ≡ under_quantifier_of star context }
{
    if star { context } else { purely(context) }
}

/// An expression of a statement.
pub(crate) fn in_statement() -> Context
    ensures { result ≡ stated.in_statement }
{
    Context {
        pure: true,
        result: false,
        old: false,
        locals: true,
    }
}

/// A formula without `\result` and `\old`.
pub(crate) fn in_condition() -> Context
    ensures { result ≡ stated.in_condition }
{
    Context {
        pure: false,
        result: false,
        old: false,
        locals: true,
    }
}

/// An invariant or an assert: only a method's own body can speak of the state that the method began in.
pub(crate) fn in_invariant(stand: StatementContext) -> Context
    ensures { result ≡ stated.in_invariant stand }
{
    Context {
        pure: false,
        result: false,
        old: stand.method && matches!(stand.surround, Surround::Body),
        locals: true,
    }
}

/// A message, or a barrier's contract: it speaks of other members too, which don't have the locals of this one.
pub(crate) fn between_members() -> Context
    ensures { result ≡ stated.between_members }
{
    Context {
        pure: false,
        result: false,
        old: false,
        locals: false,
    }
}

/// An `ensures` of a method.
pub(crate) fn in_ensures(has_result: bool) -> Context
    ensures { result ≡ in_ensures_of has_result }
{
    Context {
        pure: false,
        result: has_result,
        old: true,
        locals: true,
    }
}

pub(crate) fn is_loop(surround: Surround) -> bool
    ensures { result ≡ stated.is_loop surround }
{
    matches!(surround, Surround::Loop)
}

/// The body of a method, or of `run`.
pub(crate) fn at_body(method: bool) -> StatementContext
    ensures { result ≡ at_body_of method }
{
    StatementContext {
        method,
        surround: Surround::Body,
        looped: false,
        repeated: false,
        last: false,
    }
}

pub(crate) fn in_branch(stand: StatementContext) -> StatementContext
    ensures { result ≡ stated.in_branch stand }
{
    StatementContext {
        method: stand.method,
        surround: stand.surround,
        looped: stand.looped,
        repeated: stand.repeated,
        last: false,
    }
}

pub(crate) fn in_while(stand: StatementContext) -> StatementContext
    ensures { result ≡ stated.in_while stand }
{
    StatementContext {
        method: stand.method,
        surround: stand.surround,
        looped: stand.looped,
        repeated: true,
        last: false,
    }
}

/// In a par block or a counted loop.
pub(crate) fn among_members(surround: Surround, stand: StatementContext) -> StatementContext
    ensures { result ≡ stated.among_members surround stand }
{
    StatementContext {
        method: stand.method,
        surround,
        looped: stand.looped || is_loop(surround),
        repeated: false,
        last: false,
    }
}
