//! Terms and literals over symbols, what the questions of a symbolic run are made of, and who answers them.
//!
//! `at_most` and `Literal::opposite` take constant time and `holds` too; none of them takes memory. What a question costs is its
//! asker's affair: `question` and its kin ask once, or not at all where both terms have one symbol.
#![tactic(auto)]

ghost use Rattle.std.specs.Prelude.{◌≡◌, ℕ, pos, ◌+ℤ◌, ◌≤ℤ◌, ◌↔◌, IsTrue, ◌^◌, ◌*◌, All};
ghost use Rattle.pv_linear.specs.Values.{Values, term_value, number_of, IsWithin, values_of};
ghost use Rattle.pv_linear.specs.Literal.{Holds, opposite, IsBounded, ShapeHolds, IsShapeBounded, is_ground};

mod asker;
mod asking;
mod terms;
#[cfg(test)]
mod tests;

pub use asker::{Added, AskFault, Asker};
pub use asking::{
    ask_at_most, ask_equal, ask_order, ask_same, ask_truth, make_symbol, question, take_turn,
};
use sqlite_items::Items;
pub use terms::{MapId, TermPair, TermPairs, Terms};

/// What a symbol stands for.
#[derive(Clone, Copy, PartialEq, Eq, Debug, Drop)]
pub enum Sort {
    Number,
    Truth,
    Reference,
}

/// A symbol: a number that is not known. Symbol 0 is the number zero and the null reference.
#[derive(Clone, Copy, PartialEq, Eq, Debug, Default, Drop)]
pub struct Symbol(pub u32);

impl Symbol {
    /// The symbol that stands for zero.
    pub const ZERO: Symbol = Symbol(0);
}

/// A symbol plus a number. The default is zero.
#[derive(Clone, Copy, PartialEq, Eq, Debug, Default, Drop)]
pub struct Term {
    pub symbol: Symbol,
    pub plus: i128,
}

impl Term {
    /// The term that stands for the number itself, whatever the symbols stand for.
    #[tactic(auto, unfolding(crate::specs::Values::number_of))]
    pub fn constant(plus: i128) -> Term
        ensures value { (v : Values) → term_value v result ≡ plus }
        ensures plus { result.plus ≡ plus }
    {
        Term {
            symbol: Symbol(0),
            plus,
        }
    }
}

/// A statement about symbols. `AtMost(x, y, c)` says that x - y is at most c.
#[derive(Clone, Copy, PartialEq, Eq, Debug, Drop)]
pub enum Literal {
    AtMost(Symbol, Symbol, i128),
    Same(Symbol, Symbol),
    Differ(Symbol, Symbol),
}

/// What a comparison of two terms comes to: an answer at once, or a literal.
#[derive(Clone, Copy, PartialEq, Eq, Debug, Drop)]
pub enum Shape {
    Ground(bool),
    Difference(Literal),
}

/// A number for each symbol, by its number: symbol 0 and the symbols past the end have zero.
pub type Assignment = Items<i128>;

impl Literal {
    /// The literal that holds exactly where this one does not.
    pub fn opposite(self) -> Literal
        requires { IsBounded (2 ^ 126) self }
        ensures { result ≡ opposite self }
    {
        match self {
            Literal::AtMost(x, y, c) => Literal::AtMost(y, x, -c - 1),
            Literal::Same(x, y) => Literal::Differ(x, y),
            Literal::Differ(x, y) => Literal::Same(x, y),
        }
    }
}

/// What `a <= b` comes to: it is settled at once exactly where both terms have one symbol, and else a difference of their
/// symbols. The literal's bound is at most twice as far from zero as the numbers of the terms are.
pub fn at_most(a: Term, b: Term) -> Shape
    requires first { IsWithin (2 ^ 100) a.plus }
    requires second { IsWithin (2 ^ 100) b.plus }
    ensures says { (v : Values) → ShapeHolds v result ↔ (term_value v a ≤ℤ term_value v b) }
    ensures ground { IsTrue (is_ground result) ↔ (a.symbol ≡ b.symbol) }
    ensures bound { (n : ℕ) → IsWithin n a.plus → IsWithin n b.plus → IsShapeBounded (2 * n) result }
    ensures size { IsShapeBounded (2 ^ 101) result }
{
    if a.symbol == b.symbol {
        Shape::Ground(a.plus <= b.plus)
    } else {
        Shape::Difference(Literal::AtMost(a.symbol, b.symbol, b.plus - a.plus))
    }
}

/// The number of a symbol: zero for symbol 0, and where the list has none.
#[tactic(auto, unfolding(crate::specs::Values::number_of))]
pub fn number_at(symbol: Symbol, numbers: &[i128]) -> i128
    ensures value { result ≡ number_of (values_of numbers.now) symbol.0 }
    ensures bound { All (IsWithin (2 ^ 126)) numbers.now → IsWithin (2 ^ 126) result }
{
    if symbol.0 == 0 {
        0
    } else {
        numbers.get(symbol.0 as usize).copied().unwrap_or(0)
    }
}

// x <= y + c, so that neither side leaves the type.
fn is_at_most(x: i128, y: i128, c: i128) -> bool
    requires x { IsWithin (2 ^ 126) x }
    requires y { IsWithin (2 ^ 126) y }
    requires c { IsWithin (2 ^ 126) c }
    ensures { IsTrue result ↔ (x ≤ℤ (y +ℤ c)) }
{
    if c < 0 { x <= y + c } else { x - c <= y }
}

/// Whether the literal holds of these numbers.
pub fn holds(literal: &Literal, values: &Assignment) -> bool
    requires bound { IsBounded (2 ^ 126) literal.now }
    requires values { All (IsWithin (2 ^ 126)) values.now }
    ensures { IsTrue result ↔ Holds (values_of values.now) literal.now }
{
    let numbers = values.as_slice();
    match *literal {
        Literal::AtMost(x, y, c) => is_at_most(number_at(x, numbers), number_at(y, numbers), c),
        Literal::Same(x, y) => number_at(x, numbers) == number_at(y, numbers),
        Literal::Differ(x, y) => number_at(x, numbers) != number_at(y, numbers),
    }
}
