//! Questions on values: what the meaning shows of them decides the answers.

ghost use Rattle.std.specs.Prelude.{◌≡◌, [], ◌∷◌, IfOk, IfErr, OnOk, OnErr, int_le, int_lt, not, nat_eq};
ghost use Rattle.pv_values.specs.Heaps.{same_number};
ghost use Rattle.pv_values.specs.Sames.{same_truth, same_value};
ghost use Rattle.pv_linear.specs.declared.Sort.TheVariants.{Truth as TruthSort, Reference as ReferenceSort};
ghost use Rattle.pv_linear.specs.Values.{term_value, number_of};
ghost use Rattle.pv_linear.specs.Sorts.{HasSort};
ghost use Rattle.pv_linear.specs.Evidence.{Evidence, Under, MayBeFull, OnFull};
ghost use Rattle.pv_linear.specs.Asking.{Asks, Goes};
ghost use Rattle.pv_linear.specs.Keeping.{AreUp};
ghost use Rattle.pv_picks.specs.Plain.Trees.{comparison_of};
ghost use Rattle.pv_picks.specs.Formulas.Values.{or_zero, comparison, equality};
ghost use Rattle.pv_picks.specs.Lazy.Patterns.{Is, Ordered, Same, order_of, shown_of};
ghost use Rattle.pv_state.specs.Parts.{StaysSorted, IsSorted, TellsShown, StopsShown};
ghost use Rattle.pv_state.specs.Values.{value_at, truth_at, is_from, IsMade, IsMadeTruth, IsTerm};

use crate::uses::is_alike;
use crate::values::{SymbolTruth, SymbolValue};
use pv_linear::{AskFault, Asker, Symbol, Term, ask_at_most, ask_same, ask_truth};
use pv_picks::plain::Comparison;

/// Whether the number of a symbol is from 1 on.
#[tactic(auto, using(crate::proofs::Truths::truth_may, crate::proofs::Truths::truth_says, crate::proofs::Truths::meet_is, pv_linear::proofs::Pairs::Meet_single))]
fn is_from<K: Asker>(symbol: Symbol, asker: &mut K) -> Result<bool, AskFault>
    requires made { HasSort (K.sorts asker.old) TruthSort symbol.0 }
    requires ready { IsSorted K.path K.turns K.decisions K.sorts asker.old }
    ensures asks { OnOk result (Asks K.path K.turns K.decisions K.stands K.ended K.sorts asker.old asker.new) }
    ensures says { IfOk result (λ told. Under K.path K.turns asker.new (λ e. told ≡ is_from e.values symbol.0)) }
    ensures tells { OnOk result (TellsShown K.path K.turns K.decisions K.sorts asker.old asker.new (λ e. Is (is_from e.values symbol.0) ∷ [])) }
    ensures sorted { OnOk result (StaysSorted K.path K.turns K.decisions K.sorts asker.old asker.new) }
    ensures still { OnOk result (IsSorted K.path K.turns K.decisions K.sorts asker.new) }
    ensures stops { OnErr result (Goes K.path K.turns K.decisions K.stands K.ended asker.old asker.new) }
    ensures stopped { OnErr result (StopsShown K.path K.turns K.decisions K.sorts asker.old asker.new (λ e. Is (is_from e.values symbol.0) ∷ [])) }
    ensures stopped_sorted { OnErr result (StaysSorted K.path K.turns K.decisions K.sorts asker.old asker.new) }
    ensures same_sorts { K.sorts asker.new ≡ K.sorts asker.old }
    ensures full { IfErr result (λ fault. OnFull fault (MayBeFull (K.path asker.new) (K.sorts asker.new))) }
{
    let told = ask_truth(symbol, asker)?;
    Ok(told)
}

/// Whether a truth value is true. Nothing is asked of one that is known.
#[tactic(auto, using(crate::proofs::Truths::meet_not, crate::proofs::Truths::not_same))]
pub fn is_true<K: Asker>(truth: SymbolTruth, asker: &mut K) -> Result<bool, AskFault>
    requires made { IsMadeTruth (K.sorts asker.old) truth }
    requires ready { IsSorted K.path K.turns K.decisions K.sorts asker.old }
    ensures asks { OnOk result (Asks K.path K.turns K.decisions K.stands K.ended K.sorts asker.old asker.new) }
    ensures says { IfOk result (λ told. Under K.path K.turns asker.new (λ e. told ≡ truth_at e.values truth)) }
    ensures tells { OnOk result (TellsShown K.path K.turns K.decisions K.sorts asker.old asker.new (λ e. Is (truth_at e.values truth) ∷ [])) }
    ensures sorted { OnOk result (StaysSorted K.path K.turns K.decisions K.sorts asker.old asker.new) }
    ensures still { OnOk result (IsSorted K.path K.turns K.decisions K.sorts asker.new) }
    ensures stops { OnErr result (Goes K.path K.turns K.decisions K.stands K.ended asker.old asker.new) }
    ensures stopped { OnErr result (StopsShown K.path K.turns K.decisions K.sorts asker.old asker.new (λ e. Is (truth_at e.values truth) ∷ [])) }
    ensures stopped_sorted { OnErr result (StaysSorted K.path K.turns K.decisions K.sorts asker.old asker.new) }
    ensures same_sorts { K.sorts asker.new ≡ K.sorts asker.old }
    ensures full { IfErr result (λ fault. OnFull fault (MayBeFull (K.path asker.new) (K.sorts asker.new))) }
{
    match truth {
        SymbolTruth::Known(told) => Ok(told),
        SymbolTruth::From(symbol) => {
            let told = is_from(symbol, asker)?;
            Ok(told)
        }
        SymbolTruth::Unless(symbol) => {
            let told = is_from(symbol, asker)?;
            Ok(!told)
        }
    }
}

/// Whether `a <= b`.
#[tactic(auto, using(crate::proofs::Orders::may_compare, crate::proofs::Orders::le_told, crate::proofs::Orders::meet_le, pv_linear::proofs::Pairs::Meet_single))]
fn is_at_most<K: Asker>(a: Term, b: Term, asker: &mut K) -> Result<bool, AskFault>
    requires first { IsTerm (K.sorts asker.old) a }
    requires second { IsTerm (K.sorts asker.old) b }
    requires ready { IsSorted K.path K.turns K.decisions K.sorts asker.old }
    ensures asks { OnOk result (Asks K.path K.turns K.decisions K.stands K.ended K.sorts asker.old asker.new) }
    ensures says { IfOk result (λ told. Under K.path K.turns asker.new (λ e. told ≡ int_le (term_value e.values a) (term_value e.values b))) }
    ensures tells { OnOk result (TellsShown K.path K.turns K.decisions K.sorts asker.old asker.new (λ e. Ordered (order_of (term_value e.values a) (term_value e.values b)) ∷ [])) }
    ensures sorted { OnOk result (StaysSorted K.path K.turns K.decisions K.sorts asker.old asker.new) }
    ensures still { OnOk result (IsSorted K.path K.turns K.decisions K.sorts asker.new) }
    ensures stops { OnErr result (Goes K.path K.turns K.decisions K.stands K.ended asker.old asker.new) }
    ensures stopped { OnErr result (StopsShown K.path K.turns K.decisions K.sorts asker.old asker.new (λ e. Ordered (order_of (term_value e.values a) (term_value e.values b)) ∷ [])) }
    ensures stopped_sorted { OnErr result (StaysSorted K.path K.turns K.decisions K.sorts asker.old asker.new) }
    ensures same_sorts { K.sorts asker.new ≡ K.sorts asker.old }
    ensures full { IfErr result (λ fault. OnFull fault (MayBeFull (K.path asker.new) (K.sorts asker.new))) }
{
    let told = ask_at_most(a, b, asker)?;
    Ok(told)
}

/// Whether `a < b`.
#[tactic(auto, using(crate::proofs::Orders::may_compare, crate::proofs::Orders::lt_told, crate::proofs::Orders::meet_ge, pv_linear::proofs::Pairs::Meet_single))]
fn is_below<K: Asker>(a: Term, b: Term, asker: &mut K) -> Result<bool, AskFault>
    requires first { IsTerm (K.sorts asker.old) a }
    requires second { IsTerm (K.sorts asker.old) b }
    requires ready { IsSorted K.path K.turns K.decisions K.sorts asker.old }
    ensures asks { OnOk result (Asks K.path K.turns K.decisions K.stands K.ended K.sorts asker.old asker.new) }
    ensures says { IfOk result (λ told. Under K.path K.turns asker.new (λ e. told ≡ int_lt (term_value e.values a) (term_value e.values b))) }
    ensures tells { OnOk result (TellsShown K.path K.turns K.decisions K.sorts asker.old asker.new (λ e. Ordered (order_of (term_value e.values a) (term_value e.values b)) ∷ [])) }
    ensures sorted { OnOk result (StaysSorted K.path K.turns K.decisions K.sorts asker.old asker.new) }
    ensures still { OnOk result (IsSorted K.path K.turns K.decisions K.sorts asker.new) }
    ensures stops { OnErr result (Goes K.path K.turns K.decisions K.stands K.ended asker.old asker.new) }
    ensures stopped { OnErr result (StopsShown K.path K.turns K.decisions K.sorts asker.old asker.new (λ e. Ordered (order_of (term_value e.values a) (term_value e.values b)) ∷ [])) }
    ensures stopped_sorted { OnErr result (StaysSorted K.path K.turns K.decisions K.sorts asker.old asker.new) }
    ensures same_sorts { K.sorts asker.new ≡ K.sorts asker.old }
    ensures full { IfErr result (λ fault. OnFull fault (MayBeFull (K.path asker.new) (K.sorts asker.new))) }
{
    let told = ask_at_most(b, a, asker)?;
    Ok(!told)
}

/// Whether a comparison of two numbers is true: one question.
#[tactic(auto, using(crate::proofs::Orders::lt_not_le, crate::proofs::Orders::le_not_lt))]
pub fn compare<K: Asker>(
    order: Comparison,
    a: Term,
    b: Term,
    asker: &mut K,
) -> Result<bool, AskFault>
    requires first { IsTerm (K.sorts asker.old) a }
    requires second { IsTerm (K.sorts asker.old) b }
    requires ready { IsSorted K.path K.turns K.decisions K.sorts asker.old }
    ensures asks { OnOk result (Asks K.path K.turns K.decisions K.stands K.ended K.sorts asker.old asker.new) }
    ensures says { IfOk result (λ told. Under K.path K.turns asker.new (λ e. told ≡ comparison (comparison_of order) (term_value e.values a) (term_value e.values b))) }
    ensures tells { OnOk result (TellsShown K.path K.turns K.decisions K.sorts asker.old asker.new (λ e. Ordered (order_of (term_value e.values a) (term_value e.values b)) ∷ [])) }
    ensures sorted { OnOk result (StaysSorted K.path K.turns K.decisions K.sorts asker.old asker.new) }
    ensures still { OnOk result (IsSorted K.path K.turns K.decisions K.sorts asker.new) }
    ensures stops { OnErr result (Goes K.path K.turns K.decisions K.stands K.ended asker.old asker.new) }
    ensures stopped { OnErr result (StopsShown K.path K.turns K.decisions K.sorts asker.old asker.new (λ e. Ordered (order_of (term_value e.values a) (term_value e.values b)) ∷ [])) }
    ensures stopped_sorted { OnErr result (StaysSorted K.path K.turns K.decisions K.sorts asker.old asker.new) }
    ensures same_sorts { K.sorts asker.new ≡ K.sorts asker.old }
    ensures full { IfErr result (λ fault. OnFull fault (MayBeFull (K.path asker.new) (K.sorts asker.new))) }
{
    match order {
        Comparison::Less => {
            let told = is_below(a, b, asker)?;
            Ok(told)
        }
        Comparison::AtMost => {
            let told = is_at_most(a, b, asker)?;
            Ok(told)
        }
        Comparison::Greater => {
            let told = is_at_most(a, b, asker)?;
            Ok(!told)
        }
        Comparison::AtLeast => {
            let told = is_below(a, b, asker)?;
            Ok(!told)
        }
    }
}

/// Whether two numbers are the same: at most two questions.
#[tactic(auto, using(crate::proofs::Orders::meet_order, pv_linear::proofs::Pairs::Meet_single))]
pub(crate) fn are_same_numbers<K: Asker>(a: Term, b: Term, asker: &mut K) -> Result<bool, AskFault>
    requires first { IsTerm (K.sorts asker.old) a }
    requires second { IsTerm (K.sorts asker.old) b }
    requires ready { IsSorted K.path K.turns K.decisions K.sorts asker.old }
    ensures asks { OnOk result (Asks K.path K.turns K.decisions K.stands K.ended K.sorts asker.old asker.new) }
    ensures says { IfOk result (λ told. Under K.path K.turns asker.new (λ e. told ≡ same_number (term_value e.values a) (term_value e.values b))) }
    ensures tells { OnOk result (TellsShown K.path K.turns K.decisions K.sorts asker.old asker.new (λ e. Ordered (order_of (term_value e.values a) (term_value e.values b)) ∷ [])) }
    ensures sorted { OnOk result (StaysSorted K.path K.turns K.decisions K.sorts asker.old asker.new) }
    ensures still { OnOk result (IsSorted K.path K.turns K.decisions K.sorts asker.new) }
    ensures stops { OnErr result (Goes K.path K.turns K.decisions K.stands K.ended asker.old asker.new) }
    ensures stopped { OnErr result (StopsShown K.path K.turns K.decisions K.sorts asker.old asker.new (λ e. Ordered (order_of (term_value e.values a) (term_value e.values b)) ∷ [])) }
    ensures stopped_sorted { OnErr result (StaysSorted K.path K.turns K.decisions K.sorts asker.old asker.new) }
    ensures same_sorts { K.sorts asker.new ≡ K.sorts asker.old }
    ensures full { IfErr result (λ fault. OnFull fault (MayBeFull (K.path asker.new) (K.sorts asker.new))) }
{
    let told = is_alike(a, b, asker)?;
    Ok(told)
}

/// Whether two truth values are the same.
#[tactic(auto, using(pv_linear::proofs::Pairs::Meet_first, pv_linear::proofs::Pairs::Meet_later, crate::proofs::Truths::truth_stays, crate::proofs::Truths::two_same))]
fn are_same_truths<K: Asker>(
    a: SymbolTruth,
    b: SymbolTruth,
    asker: &mut K,
) -> Result<bool, AskFault>
    requires first { IsMadeTruth (K.sorts asker.old) a }
    requires second { IsMadeTruth (K.sorts asker.old) b }
    requires ready { IsSorted K.path K.turns K.decisions K.sorts asker.old }
    ensures asks { OnOk result (Asks K.path K.turns K.decisions K.stands K.ended K.sorts asker.old asker.new) }
    ensures says { IfOk result (λ told. Under K.path K.turns asker.new (λ e. told ≡ same_truth (truth_at e.values a) (truth_at e.values b))) }
    ensures tells { OnOk result (TellsShown K.path K.turns K.decisions K.sorts asker.old asker.new (λ e. Is (truth_at e.values a) ∷ Is (truth_at e.values b) ∷ [])) }
    ensures sorted { OnOk result (StaysSorted K.path K.turns K.decisions K.sorts asker.old asker.new) }
    ensures still { OnOk result (IsSorted K.path K.turns K.decisions K.sorts asker.new) }
    ensures stops { OnErr result (Goes K.path K.turns K.decisions K.stands K.ended asker.old asker.new) }
    ensures stopped { OnErr result (StopsShown K.path K.turns K.decisions K.sorts asker.old asker.new (λ e. Is (truth_at e.values a) ∷ Is (truth_at e.values b) ∷ [])) }
    ensures stopped_sorted { OnErr result (StaysSorted K.path K.turns K.decisions K.sorts asker.old asker.new) }
    ensures same_sorts { K.sorts asker.new ≡ K.sorts asker.old }
    ensures full { IfErr result (λ fault. OnFull fault (MayBeFull (K.path asker.new) (K.sorts asker.new))) }
{
    let first = is_true(a, asker)?;
    let second = is_true(b, asker)?;
    Ok(first == second)
}

/// Whether two references are the same: one question, and none of one symbol.
#[tactic(auto, using(crate::proofs::References::may_equate, crate::proofs::References::same_told, crate::proofs::References::meet_same, pv_linear::proofs::Pairs::Meet_single))]
pub fn are_same_references<K: Asker>(a: Symbol, b: Symbol, asker: &mut K) -> Result<bool, AskFault>
    requires first { HasSort (K.sorts asker.old) ReferenceSort a.0 }
    requires second { HasSort (K.sorts asker.old) ReferenceSort b.0 }
    requires ready { IsSorted K.path K.turns K.decisions K.sorts asker.old }
    ensures asks { OnOk result (Asks K.path K.turns K.decisions K.stands K.ended K.sorts asker.old asker.new) }
    ensures says { IfOk result (λ told. Under K.path K.turns asker.new (λ e. AreUp (K.sorts asker.new) e.values → told ≡ nat_eq (or_zero (number_of e.values a.0)) (or_zero (number_of e.values b.0)))) }
    ensures tells { OnOk result (TellsShown K.path K.turns K.decisions K.sorts asker.old asker.new (λ e. Same (nat_eq (or_zero (number_of e.values a.0)) (or_zero (number_of e.values b.0))) ∷ [])) }
    ensures sorted { OnOk result (StaysSorted K.path K.turns K.decisions K.sorts asker.old asker.new) }
    ensures still { OnOk result (IsSorted K.path K.turns K.decisions K.sorts asker.new) }
    ensures stops { OnErr result (Goes K.path K.turns K.decisions K.stands K.ended asker.old asker.new) }
    ensures stopped { OnErr result (StopsShown K.path K.turns K.decisions K.sorts asker.old asker.new (λ e. Same (nat_eq (or_zero (number_of e.values a.0)) (or_zero (number_of e.values b.0))) ∷ [])) }
    ensures stopped_sorted { OnErr result (StaysSorted K.path K.turns K.decisions K.sorts asker.old asker.new) }
    ensures same_sorts { K.sorts asker.new ≡ K.sorts asker.old }
    ensures full { IfErr result (λ fault. OnFull fault (MayBeFull (K.path asker.new) (K.sorts asker.new))) }
{
    let told = ask_same(a, b, asker)?;
    Ok(told)
}

/// Whether two values of one type are the same. Of values of two types nothing is asked.
#[tactic(auto, unfolding(crate::specs::Values::value_at, crate::specs::Values::IsMade))]
pub fn are_same<K: Asker>(a: SymbolValue, b: SymbolValue, asker: &mut K) -> Result<bool, AskFault>
    requires first { IsMade (K.sorts asker.old) a }
    requires second { IsMade (K.sorts asker.old) b }
    requires ready { IsSorted K.path K.turns K.decisions K.sorts asker.old }
    ensures asks { OnOk result (Asks K.path K.turns K.decisions K.stands K.ended K.sorts asker.old asker.new) }
    ensures says { IfOk result (λ told. Under K.path K.turns asker.new (λ e. AreUp (K.sorts asker.new) e.values → told ≡ same_value (value_at e.values a) (value_at e.values b))) }
    ensures tells { OnOk result (TellsShown K.path K.turns K.decisions K.sorts asker.old asker.new (λ e. shown_of (value_at e.values a) (value_at e.values b))) }
    ensures sorted { OnOk result (StaysSorted K.path K.turns K.decisions K.sorts asker.old asker.new) }
    ensures still { OnOk result (IsSorted K.path K.turns K.decisions K.sorts asker.new) }
    ensures stops { OnErr result (Goes K.path K.turns K.decisions K.stands K.ended asker.old asker.new) }
    ensures stopped { OnErr result (StopsShown K.path K.turns K.decisions K.sorts asker.old asker.new (λ e. shown_of (value_at e.values a) (value_at e.values b))) }
    ensures stopped_sorted { OnErr result (StaysSorted K.path K.turns K.decisions K.sorts asker.old asker.new) }
    ensures same_sorts { K.sorts asker.new ≡ K.sorts asker.old }
    ensures full { IfErr result (λ fault. OnFull fault (MayBeFull (K.path asker.new) (K.sorts asker.new))) }
{
    match a {
        SymbolValue::Number(x) => match b {
            SymbolValue::Number(y) => {
                let told = are_same_numbers(x, y, asker)?;
                Ok(told)
            }
            SymbolValue::Truth(_) => Ok(false),
            SymbolValue::Reference(_) => Ok(false),
        },
        SymbolValue::Truth(x) => match b {
            SymbolValue::Number(_) => Ok(false),
            SymbolValue::Truth(y) => {
                let told = are_same_truths(x, y, asker)?;
                Ok(told)
            }
            SymbolValue::Reference(_) => Ok(false),
        },
        SymbolValue::Reference(x) => match b {
            SymbolValue::Number(_) => Ok(false),
            SymbolValue::Truth(_) => Ok(false),
            SymbolValue::Reference(y) => {
                let told = are_same_references(x, y, asker)?;
                Ok(told)
            }
        },
    }
}
