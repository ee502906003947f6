//! Lists of literals: looked through, and asked of the solver.

ghost use Rattle.pv_diff.specs.Limits.{too_many};
ghost use Rattle.std.specs.Prelude.{◌≡◌, ◌∷◌, [], ◌++◌, ◌≤◌, ◌<◌, ◌^◌, IfOk, IfSome, IsTrue, ◌↔◌, false, true, length};
ghost use Rattle.pv_linear.specs.Values.{Values};
ghost use Rattle.pv_linear.specs.Literal.{Holds, Meets, IsBounded, opposite, bound_of_all};
ghost use Rattle.pv_linear.specs.Sorting.{AreSortsApart};
ghost use Rattle.pv_linear.specs.Evidence.{CanBeMet, answered};
ghost use Rattle.pv_path.specs.Standing.{highest_in, highest_among, HasNewSymbol, HasSymbol, AreWithout, IsFree, HasFreeSymbol};

use pv_base::NoMemory;
use pv_diff::{Solved, satisfy};
use pv_linear::{Literal, Symbol};
use std::alloc::Global;

/// What is known of a literal before it is put on a path.
#[derive(Clone, Copy, Debug, Drop)]
pub enum Settled {
    /// Whether it holds of all that follows the path.
    Told(bool),
    /// Both it and its opposite can be met together with the path.
    Undecided,
}

fn is_same(a: &Literal, b: &Literal) -> bool
    ensures { IsTrue result ↔ (a.now ≡ b.now) }
{
    *a == *b
}

/// The answer that the literals have themselves: where the literal stands among them, or its opposite.
#[tactic(auto, using(crate::proofs::LiteralLemmas::meets_at))]
pub fn known(literals: &[Literal], literal: Literal) -> Option<bool>
    requires { IsBounded (2 ^ 126) literal }
    ensures { IfSome result (λ told. (v : Values) → Meets v literals.now → Holds v (answered literal told)) }
{
    let other = literal.opposite();
    for one in literals {
        if is_same(one, &literal) {
            return Some(true);
        }
        if is_same(one, &other) {
            return Some(false);
        }
    }
    None
}

/// The answer that the literal at a place has, where one stands there and it is this one or its opposite.
#[tactic(auto, using(crate::proofs::LiteralLemmas::meets_at))]
pub fn known_at(literals: &[Literal], at: usize, literal: Literal) -> Option<bool>
    requires { IsBounded (2 ^ 126) literal }
    ensures { IfSome result (λ told. (v : Values) → Meets v literals.now → Holds v (answered literal told)) }
{
    if at < literals.len() {
        if is_same(&literals[at], &literal) {
            return Some(true);
        }
        if is_same(&literals[at], &literal.opposite()) {
            return Some(false);
        }
    }
    None
}

/// The highest number of a symbol in the literal.
pub fn highest_symbol(literal: Literal) -> u32
    ensures { result ≡ highest_in literal }
{
    match literal {
        Literal::AtMost(x, y, _) | Literal::Same(x, y) | Literal::Differ(x, y) => x.0.max(y.0),
    }
}

/// The highest number of a symbol in the literals; 0 where there are none.
pub fn highest_of(literals: &[Literal]) -> u32
    ensures { highest_among literals.now ≤ result }
{
    let mut highest: u32 = 0;
    for literal in literals {
        highest = highest.max(highest_symbol(*literal));
    }
    highest
}

/// Whether the literal has two symbols one of which is above the highest of the literals: then it can be met together with
/// all that can be met without it.
pub fn has_new_symbol(literal: Literal, highest: u32) -> bool
    ensures { IsTrue result → HasNewSymbol literal highest }
{
    match literal {
        Literal::AtMost(x, y, _) | Literal::Same(x, y) | Literal::Differ(x, y) => {
            x != y && highest < x.0.max(y.0)
        }
    }
}

/// Whether the symbol stands in the literal.
fn has_symbol(literal: &Literal, symbol: Symbol) -> bool
    ensures { IsTrue result ↔ HasSymbol literal.now symbol.0 }
{
    match literal {
        Literal::AtMost(x, y, _) | Literal::Same(x, y) | Literal::Differ(x, y) => {
            x.0 == symbol.0 || y.0 == symbol.0
        }
    }
}

/// Whether the symbol is not 0 and stands in none of the literals. One look along them.
fn is_free(literals: &[Literal], symbol: Symbol) -> bool
    ensures { IsTrue result → IsFree literals.now symbol.0 }
{
    for literal in literals {
        if has_symbol(literal, symbol) {
            return false;
        }
    }
    symbol.0 != 0
}

/// Whether the literal has two symbols one of which stands in none of the others: then it can be met together with all that
/// can be met without it. Two looks along them.
pub fn has_free_symbol(literals: &[Literal], literal: Literal) -> bool
    ensures { IsTrue result → HasFreeSymbol literals.now literal }
{
    match literal {
        Literal::AtMost(x, y, _) | Literal::Same(x, y) | Literal::Differ(x, y) => {
            x != y && (is_free(literals, x) || is_free(literals, y))
        }
    }
}

/// The literals, and one more.
fn with_one(alloc: Global, literals: &[Literal], last: Literal) -> Result<Vec<Literal>, NoMemory>
    ensures { IfOk result (λ all. all.items ≡ literals.now ++ last ∷ []) }
{
    let mut all = Vec::with_capacity(alloc, literals.len() + 1)?;
    all.extend_from_slice(literals)?;
    all.push(last)?;
    Ok(all)
}

/// Whether some numbers meet the literals. It fails for want of memory alone.
fn can_be_met(alloc: Global, literals: &[Literal]) -> Result<bool, NoMemory>
    requires few { length literals.now < too_many }
    requires bounds { bound_of_all literals.now ≤ 2 ^ 100 }
    requires sorts { AreSortsApart literals.now }
    ensures no { IfOk result (λ told. told ≡ false → (v : Values) → Meets v literals.now → ⊥) }
    ensures yes { IfOk result (λ told. told ≡ true → CanBeMet literals.now) }
{
    match satisfy(alloc, literals)? {
        Solved::Yes(_) => Ok(true),
        Solved::No(_) => Ok(false),
    }
}

/// Whether some numbers meet the literals and one more. It fails for want of memory alone.
pub fn can_be_added(alloc: Global, literals: &[Literal], last: Literal) -> Result<bool, NoMemory>
    requires few { length literals.now < 2 ^ 19 }
    requires bounds { bound_of_all (literals.now ++ last ∷ []) ≤ 2 ^ 100 }
    requires sorts { AreSortsApart (literals.now ++ last ∷ []) }
    ensures no { IfOk result (λ told. told ≡ false → (v : Values) → Meets v (literals.now ++ last ∷ []) → ⊥) }
    ensures yes { IfOk result (λ told. told ≡ true → CanBeMet (literals.now ++ last ∷ [])) }
{
    let all = with_one(alloc, literals, last)?;
    can_be_met(alloc, &all)
}
