//! Symbolic values.
ghost use Rattle.std.specs.Prelude.{◌≡◌, ◌^◌, IfOk, IfErr, OnOk, not, List};
ghost use Rattle.pv_linear.specs.declared.Sort.{Sort as Sorts};
ghost use Rattle.pv_linear.specs.declared.Sort.TheVariants.{Reference as ReferenceSort};
ghost use Rattle.pv_linear.specs.Sorts.{HasSort};
ghost use Rattle.pv_values.specs.declared.value.Value.TheVariants as value;
ghost use Rattle.pv_linear.specs.declared.asker.AskFault.TheVariants.{NoMemory as NoMemoryFault};
ghost use Rattle.pv_linear.specs.Values.{Values, IsWithin, term_value, number_of};
ghost use Rattle.pv_picks.specs.Formulas.Values.{number_in, truth_in, or_zero};
ghost use Rattle.pv_state.specs.Values.{value_at, truth_at, IsTerm, IsMade, IsMadeTruth};

use pv_linear::{AskFault, Symbol, Term};

/// A truth value: one that is known; the number of a symbol, true from 1 on; or its opposite.
#[derive(Clone, Copy, Debug, PartialEq, Eq, Drop)]
pub enum SymbolTruth {
    Known(bool),
    From(Symbol),
    Unless(Symbol),
}

/// How far from zero a number beside a symbol may be: sums of two such, and their differences, fit in a question.
const FARTHEST: u128 = 1 << 98;

/// The sum of a symbol and a number that is known. Where that is farther from zero than 2^98, which no text within the limits has
/// the numbers for, it is refused as want of memory is.
#[tactic(auto, using(crate::proofs::Orders::is_number, pv_linear::proofs::Bounds::within_abs))]
pub fn term(symbol: Symbol, plus: i128) -> Result<Term, AskFault>
    ensures term { IfOk result (λ t. t ≡ record { symbol = symbol; plus = plus }) }
    ensures near { OnOk result (IsWithin (2 ^ 98) plus) }
    ensures fault { IfErr result (λ fault. fault ≡ NoMemoryFault) }
{
    if plus.unsigned_abs() > FARTHEST {
        return Err(AskFault::NoMemory);
    }
    Ok(Term { symbol, plus })
}

/// A value: a number, a truth value, or a reference.
#[derive(Clone, Copy, Debug, PartialEq, Eq, Drop)]
pub enum SymbolValue {
    Number(Term),
    Truth(SymbolTruth),
    Reference(Symbol),
}

impl SymbolValue {
    /// A truth value that is known.
    #[tactic(auto, unfolding(crate::specs::Values::value_at, crate::specs::Values::IsMade))]
    pub fn known(truth: bool) -> SymbolValue
        ensures value { (v : Values) → value_at v result ≡ value.Truth truth }
        ensures made { (made : List Sorts) → IsMade made result }
    {
        SymbolValue::Truth(SymbolTruth::Known(truth))
    }

    /// The reference that a symbol stands for.
    #[tactic(auto, unfolding(crate::specs::Values::value_at, crate::specs::Values::IsMade))]
    pub fn reference(symbol: Symbol) -> SymbolValue
        ensures value { (v : Values) → value_at v result ≡ value.Reference (or_zero (number_of v symbol.0)) }
        ensures made { (made : List Sorts) → HasSort made ReferenceSort symbol.0 → IsMade made result }
    {
        SymbolValue::Reference(symbol)
    }

    /// The number of the value, and 0 where it is none.
    #[tactic(auto, unfolding(crate::specs::Values::value_at, crate::specs::Values::IsMade, pv_linear::specs::Sorts::HasSort, pv_linear::specs::Values::number_of))]
    pub fn number(self) -> Term
        ensures value { (v : Values) → term_value v result ≡ number_in (value_at v self) }
        ensures made { (made : List Sorts) → IsMade made self → IsTerm made result }
    {
        match self {
            SymbolValue::Number(term) => term,
            SymbolValue::Truth(_) | SymbolValue::Reference(_) => Term {
                symbol: Symbol::ZERO,
                plus: 0,
            },
        }
    }

    /// The truth value of the value, and false where it is none.
    #[tactic(auto, unfolding(crate::specs::Values::value_at, crate::specs::Values::IsMade))]
    pub fn truth(self) -> SymbolTruth
        ensures value { (v : Values) → truth_at v result ≡ truth_in (value_at v self) }
        ensures made { (made : List Sorts) → IsMade made self → IsMadeTruth made result }
    {
        match self {
            SymbolValue::Truth(truth) => truth,
            SymbolValue::Number(_) | SymbolValue::Reference(_) => SymbolTruth::Known(false),
        }
    }
}

impl SymbolTruth {
    /// The opposite. Nothing is asked.
    #[tactic(auto, using(crate::proofs::Truths::not_not))]
    pub fn opposite(self) -> SymbolTruth
        ensures value { (v : Values) → truth_at v result ≡ not (truth_at v self) }
        ensures made { (made : List Sorts) → IsMadeTruth made self → IsMadeTruth made result }
    {
        match self {
            SymbolTruth::Known(truth) => SymbolTruth::Known(!truth),
            SymbolTruth::From(symbol) => SymbolTruth::Unless(symbol),
            SymbolTruth::Unless(symbol) => SymbolTruth::From(symbol),
        }
    }
}
