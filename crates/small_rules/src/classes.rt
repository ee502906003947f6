ghost use Rattle.std.specs.Prelude.{◌≡◌};
ghost use Rattle.std.specs.List.{list_all};
ghost use Rattle.small_meaning.specs.Small as small;

use crate::expressions::is_small_expr;
use crate::statements::{is_int, is_small_block};
use pv_ast::{Class, Clause, Member, Method, Param, TypeWord};

/// Whether a class has no lock invariant, and nothing but small methods.
pub fn is_small_class(class: &Class) -> bool
    ensures { result ≡ small.is_small_class class.now }
{
    class.lock_invariant.is_none() && are_small_members(class.members.as_slice())
}

fn are_small_members(members: &[Member]) -> bool
    ensures { result ≡ list_all small.is_small_member members.now }
{
    members.iter().all(|member| is_small_member(member))
}

fn is_small_member(member: &Member) -> bool
    ensures { result ≡ small.is_small_member member.now }
{
    match member {
        Member::Method(method) => is_small_method(method),
        Member::Field(_) => false,
        Member::Predicate(_) => false,
        Member::Run(_) => false,
    }
}

/// Whether the parameters and the result of a method are whole numbers, and its clauses and its body are small.
fn is_small_method(method: &Method) -> bool
    ensures { result ≡ small.is_small_method method.now }
{
    is_small_result(&method.result)
        && are_small_params(method.params.as_slice())
        && are_small_clauses(method.contract.clauses.as_slice())
        && is_small_block(method.body.as_slice())
}

fn is_small_result(word: &Option<TypeWord>) -> bool
    ensures { result ≡ small.is_small_result word.now }
{
    match word {
        None => true,
        Some(word) => is_int(word.kind),
    }
}

fn are_small_params(params: &[Param]) -> bool
    ensures { result ≡ list_all small.is_small_param params.now }
{
    params.iter().all(|param| is_int(param.kind.kind))
}

fn are_small_clauses(clauses: &[Clause]) -> bool
    ensures { result ≡ list_all small.is_small_clause clauses.now }
{
    clauses.iter().all(|clause| is_small_expr(&clause.formula))
}
