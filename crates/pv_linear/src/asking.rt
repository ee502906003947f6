//! The questions of a symbolic run, with clauses that chain from call to call.

ghost use Rattle.std.specs.Prelude.{◌≡◌, List, pos, ◌≤ℤ◌, ◌-ℤ◌, ◌↔◌, ◌<◌, ◌+◌, ◌^◌, [], ◌∷◌, ◌++◌, length, IsTrue, IfOk, IfErr, OnOk, OnErr, int_le};
ghost use Rattle.pv_linear.specs.declared.Sort.{Sort as Sorts};
ghost use Rattle.std.specs.Ordering.{int_cmp};
ghost use Rattle.pv_linear.specs.declared.Sort.TheVariants.{Number as NumberSort, Truth as TruthSort, Reference as ReferenceSort};
ghost use Rattle.pv_linear.specs.declared.Literal.TheVariants.{AtMost, Same};
ghost use Rattle.pv_linear.specs.declared.asker.AskFault.TheVariants.{NoMemory as NoMemoryFault};
ghost use Rattle.pv_linear.specs.Values.{term_value, number_of, IsWithin};
ghost use Rattle.pv_linear.specs.Literal.{IsBounded, Holds, opposite};
ghost use Rattle.pv_linear.specs.Sorts.{HasSort, HasSorts, truth_test};
ghost use Rattle.pv_linear.specs.Evidence.{Evidence, HasTurns, Follows, Under, answered, MayAsk, MayBeFull, OnFull};
ghost use Rattle.pv_linear.specs.Keeping.{AreSorted, Tracks};
ghost use Rattle.pv_linear.specs.Decisions.{Level};
ghost use Rattle.pv_linear.specs.Asking.{Asks, Goes, Together, Rests, Stays, int_same};

use crate::asker::{AskFault, Asker};
use crate::{Literal, Sort, Symbol, Term};
use std::cmp::Ordering;

/// Whether the literal holds of the evidence that follows the path then. `Full` comes only where the asker may answer it.
#[tactic(auto, using(crate::proofs::AskingLemmas::on_long))]
pub fn question<K: Asker>(literal: Literal, asker: &mut K) -> Result<bool, AskFault>
    requires bound { IsBounded (2 ^ 100) literal }
    requires opposite { IsBounded (2 ^ 100) (opposite literal) }
    requires may { MayAsk (K.path asker.old) literal }
    ensures asks { OnOk result (Asks K.path K.turns K.decisions K.stands K.ended K.sorts asker.old asker.new) }
    ensures says { IfOk result (λ told. Under K.path K.turns asker.new (λ e. IsTrue told ↔ Holds e.values literal)) }
    ensures tells { OnOk result ((e f : Evidence)
        → Follows (K.path asker.old) (K.turns asker.old) e → Follows (K.path asker.old) (K.turns asker.old) f → Level (K.decisions asker.old) e f
        → (Holds e.values literal → Holds f.values literal) → (Holds f.values literal → Holds e.values literal)
        → Together K.path K.turns K.decisions asker.new e f (Unit {0})) }
    ensures stops { OnErr result (Goes K.path K.turns K.decisions K.stands K.ended asker.old asker.new) }
    ensures stopped { OnErr result (Stays K.path K.turns K.decisions asker.old asker.new) }
    ensures sorted { OnOk result ((takes : Evidence → List Sorts) → AreSorted takes (K.path asker.old) (K.turns asker.old) (K.decisions asker.old) (K.sorts asker.old)
        → HasSorts (K.sorts asker.old) literal → AreSorted takes (K.path asker.new) (K.turns asker.new) (K.decisions asker.new) (K.sorts asker.new)) }
    ensures stopped_sorted { OnErr result ((takes : Evidence → List Sorts) → AreSorted takes (K.path asker.old) (K.turns asker.old) (K.decisions asker.old) (K.sorts asker.old)
        → HasSorts (K.sorts asker.old) literal → AreSorted takes (K.path asker.new) (K.turns asker.new) (K.decisions asker.new) (K.sorts asker.new)) }
    ensures path { IfOk result (λ told. K.path asker.new ≡ K.path asker.old ++ answered literal told ∷ []) }
    ensures same_sorts { K.sorts asker.new ≡ K.sorts asker.old }
    ensures full { IfErr result (λ fault. OnFull fault (MayBeFull (K.path asker.new) (K.sorts asker.new))) }
{
    asker.ask(literal)
}

/// Whether `a <= b`. Nothing is asked where both have one symbol. Then the same may be asked the other way round.
#[tactic(auto, using(crate::proofs::AskingLemmas::may_back))]
pub fn ask_at_most<K: Asker>(a: Term, b: Term, asker: &mut K) -> Result<bool, AskFault>
    requires first { IsWithin (2 ^ 98) a.plus }
    requires second { IsWithin (2 ^ 98) b.plus }
    requires may { MayAsk (K.path asker.old) (AtMost a.symbol b.symbol (b.plus -ℤ a.plus)) }
    ensures asks { OnOk result (Asks K.path K.turns K.decisions K.stands K.ended K.sorts asker.old asker.new) }
    ensures says { IfOk result (λ told. Under K.path K.turns asker.new (λ e. IsTrue told ↔ (term_value e.values a ≤ℤ term_value e.values b))) }
    ensures tells { OnOk result (Rests K.path K.turns K.decisions asker.old asker.new (λ e. int_le (term_value e.values a) (term_value e.values b))) }
    ensures stops { OnErr result (Goes K.path K.turns K.decisions K.stands K.ended asker.old asker.new) }
    ensures stopped { OnErr result (Stays K.path K.turns K.decisions asker.old asker.new) }
    ensures sorted { OnOk result ((takes : Evidence → List Sorts) → AreSorted takes (K.path asker.old) (K.turns asker.old) (K.decisions asker.old) (K.sorts asker.old)
        → HasSort (K.sorts asker.old) NumberSort a.symbol.0 → HasSort (K.sorts asker.old) NumberSort b.symbol.0 → AreSorted takes (K.path asker.new) (K.turns asker.new) (K.decisions asker.new) (K.sorts asker.new)) }
    ensures stopped_sorted { OnErr result ((takes : Evidence → List Sorts) → AreSorted takes (K.path asker.old) (K.turns asker.old) (K.decisions asker.old) (K.sorts asker.old)
        → HasSort (K.sorts asker.old) NumberSort a.symbol.0 → HasSort (K.sorts asker.old) NumberSort b.symbol.0 → AreSorted takes (K.path asker.new) (K.turns asker.new) (K.decisions asker.new) (K.sorts asker.new)) }
    ensures back { OnOk result (MayAsk (K.path asker.new) (AtMost b.symbol a.symbol (a.plus -ℤ b.plus))) }
    ensures same_sorts { K.sorts asker.new ≡ K.sorts asker.old }
    ensures full { IfErr result (λ fault. OnFull fault (MayBeFull (K.path asker.new) (K.sorts asker.new))) }
{
    if a.symbol == b.symbol {
        return Ok(a.plus <= b.plus);
    }
    question(Literal::AtMost(a.symbol, b.symbol, b.plus - a.plus), asker)
}

/// Whether two references are the same. Nothing is asked of one symbol twice.
pub fn ask_same<K: Asker>(a: Symbol, b: Symbol, asker: &mut K) -> Result<bool, AskFault>
    requires may { MayAsk (K.path asker.old) (Same a b) }
    ensures asks { OnOk result (Asks K.path K.turns K.decisions K.stands K.ended K.sorts asker.old asker.new) }
    ensures says { IfOk result (λ told. Under K.path K.turns asker.new (λ e. IsTrue told ↔ (number_of e.values a.0 ≡ number_of e.values b.0))) }
    ensures tells { OnOk result (Rests K.path K.turns K.decisions asker.old asker.new (λ e. int_same (number_of e.values a.0) (number_of e.values b.0))) }
    ensures stops { OnErr result (Goes K.path K.turns K.decisions K.stands K.ended asker.old asker.new) }
    ensures stopped { OnErr result (Stays K.path K.turns K.decisions asker.old asker.new) }
    ensures sorted { OnOk result ((takes : Evidence → List Sorts) → AreSorted takes (K.path asker.old) (K.turns asker.old) (K.decisions asker.old) (K.sorts asker.old)
        → HasSort (K.sorts asker.old) ReferenceSort a.0 → HasSort (K.sorts asker.old) ReferenceSort b.0 → AreSorted takes (K.path asker.new) (K.turns asker.new) (K.decisions asker.new) (K.sorts asker.new)) }
    ensures stopped_sorted { OnErr result ((takes : Evidence → List Sorts) → AreSorted takes (K.path asker.old) (K.turns asker.old) (K.decisions asker.old) (K.sorts asker.old)
        → HasSort (K.sorts asker.old) ReferenceSort a.0 → HasSort (K.sorts asker.old) ReferenceSort b.0 → AreSorted takes (K.path asker.new) (K.turns asker.new) (K.decisions asker.new) (K.sorts asker.new)) }
    ensures same_sorts { K.sorts asker.new ≡ K.sorts asker.old }
    ensures full { IfErr result (λ fault. OnFull fault (MayBeFull (K.path asker.new) (K.sorts asker.new))) }
{
    if a == b {
        return Ok(true);
    }
    question(Literal::Same(a, b), asker)
}

/// Whether a truth value is true: it is from 1 on. Nothing is asked of symbol 0, which is false.
pub fn ask_truth<K: Asker>(truth: Symbol, asker: &mut K) -> Result<bool, AskFault>
    requires may { MayAsk (K.path asker.old) (truth_test truth) }
    ensures asks { OnOk result (Asks K.path K.turns K.decisions K.stands K.ended K.sorts asker.old asker.new) }
    ensures says { IfOk result (λ told. Under K.path K.turns asker.new (λ e. IsTrue told ↔ (pos 1 ≤ℤ number_of e.values truth.0))) }
    ensures tells { OnOk result (Rests K.path K.turns K.decisions asker.old asker.new (λ e. int_le (pos 1) (number_of e.values truth.0))) }
    ensures stops { OnErr result (Goes K.path K.turns K.decisions K.stands K.ended asker.old asker.new) }
    ensures stopped { OnErr result (Stays K.path K.turns K.decisions asker.old asker.new) }
    ensures sorted { OnOk result ((takes : Evidence → List Sorts) → AreSorted takes (K.path asker.old) (K.turns asker.old) (K.decisions asker.old) (K.sorts asker.old)
        → HasSort (K.sorts asker.old) TruthSort truth.0 → AreSorted takes (K.path asker.new) (K.turns asker.new) (K.decisions asker.new) (K.sorts asker.new)) }
    ensures stopped_sorted { OnErr result ((takes : Evidence → List Sorts) → AreSorted takes (K.path asker.old) (K.turns asker.old) (K.decisions asker.old) (K.sorts asker.old)
        → HasSort (K.sorts asker.old) TruthSort truth.0 → AreSorted takes (K.path asker.new) (K.turns asker.new) (K.decisions asker.new) (K.sorts asker.new)) }
    ensures same_sorts { K.sorts asker.new ≡ K.sorts asker.old }
    ensures full { IfErr result (λ fault. OnFull fault (MayBeFull (K.path asker.new) (K.sorts asker.new))) }
{
    if truth.0 == 0 {
        return Ok(false);
    }
    question(Literal::AtMost(Symbol::ZERO, truth, -1), asker)
}

/// How two numbers compare. Nothing is asked where both have one symbol; else whether the first is at most the second, and where
/// it is, whether the second is at most the first.
#[tactic(auto, using(crate::proofs::Orders::greater, crate::proofs::Orders::equal, crate::proofs::Orders::less, crate::proofs::Orders::at_most_same, crate::proofs::Orders::at_least_same))]
pub fn ask_order<K: Asker>(a: Term, b: Term, asker: &mut K) -> Result<Ordering, AskFault>
    requires first { IsWithin (2 ^ 98) a.plus }
    requires second { IsWithin (2 ^ 98) b.plus }
    requires may { MayAsk (K.path asker.old) (AtMost a.symbol b.symbol (b.plus -ℤ a.plus)) }
    ensures asks { OnOk result (Asks K.path K.turns K.decisions K.stands K.ended K.sorts asker.old asker.new) }
    ensures says { IfOk result (λ order. Under K.path K.turns asker.new (λ e. order ≡ int_cmp (term_value e.values a) (term_value e.values b))) }
    ensures tells { OnOk result (Rests K.path K.turns K.decisions asker.old asker.new (λ e. int_cmp (term_value e.values a) (term_value e.values b))) }
    ensures stops { OnErr result (Goes K.path K.turns K.decisions K.stands K.ended asker.old asker.new) }
    ensures stopped { OnErr result (Rests K.path K.turns K.decisions asker.old asker.new (λ e. int_cmp (term_value e.values a) (term_value e.values b))) }
    ensures sorted { OnOk result ((takes : Evidence → List Sorts) → AreSorted takes (K.path asker.old) (K.turns asker.old) (K.decisions asker.old) (K.sorts asker.old)
        → HasSort (K.sorts asker.old) NumberSort a.symbol.0 → HasSort (K.sorts asker.old) NumberSort b.symbol.0 → AreSorted takes (K.path asker.new) (K.turns asker.new) (K.decisions asker.new) (K.sorts asker.new)) }
    ensures stopped_sorted { OnErr result ((takes : Evidence → List Sorts) → AreSorted takes (K.path asker.old) (K.turns asker.old) (K.decisions asker.old) (K.sorts asker.old)
        → HasSort (K.sorts asker.old) NumberSort a.symbol.0 → HasSort (K.sorts asker.old) NumberSort b.symbol.0 → AreSorted takes (K.path asker.new) (K.turns asker.new) (K.decisions asker.new) (K.sorts asker.new)) }
    ensures same_sorts { K.sorts asker.new ≡ K.sorts asker.old }
    ensures full { IfErr result (λ fault. OnFull fault (MayBeFull (K.path asker.new) (K.sorts asker.new))) }
{
    if a.symbol == b.symbol {
        return Ok(a.plus.cmp(&b.plus));
    }
    if !ask_at_most(a, b, asker)? {
        return Ok(Ordering::Greater);
    }
    if ask_at_most(b, a, asker)? {
        return Ok(Ordering::Equal);
    }
    Ok(Ordering::Less)
}

/// Whether two numbers are equal, by how they compare.
#[tactic(auto, using(crate::proofs::Orders::equal_says))]
pub fn ask_equal<K: Asker>(a: Term, b: Term, asker: &mut K) -> Result<bool, AskFault>
    requires first { IsWithin (2 ^ 98) a.plus }
    requires second { IsWithin (2 ^ 98) b.plus }
    requires may { MayAsk (K.path asker.old) (AtMost a.symbol b.symbol (b.plus -ℤ a.plus)) }
    ensures asks { OnOk result (Asks K.path K.turns K.decisions K.stands K.ended K.sorts asker.old asker.new) }
    ensures says { IfOk result (λ told. Under K.path K.turns asker.new (λ e. IsTrue told ↔ (term_value e.values a ≡ term_value e.values b))) }
    ensures tells { OnOk result (Rests K.path K.turns K.decisions asker.old asker.new (λ e. int_cmp (term_value e.values a) (term_value e.values b))) }
    ensures stops { OnErr result (Goes K.path K.turns K.decisions K.stands K.ended asker.old asker.new) }
    ensures stopped { OnErr result (Rests K.path K.turns K.decisions asker.old asker.new (λ e. int_cmp (term_value e.values a) (term_value e.values b))) }
    ensures sorted { OnOk result ((takes : Evidence → List Sorts) → AreSorted takes (K.path asker.old) (K.turns asker.old) (K.decisions asker.old) (K.sorts asker.old)
        → HasSort (K.sorts asker.old) NumberSort a.symbol.0 → HasSort (K.sorts asker.old) NumberSort b.symbol.0 → AreSorted takes (K.path asker.new) (K.turns asker.new) (K.decisions asker.new) (K.sorts asker.new)) }
    ensures stopped_sorted { OnErr result ((takes : Evidence → List Sorts) → AreSorted takes (K.path asker.old) (K.turns asker.old) (K.decisions asker.old) (K.sorts asker.old)
        → HasSort (K.sorts asker.old) NumberSort a.symbol.0 → HasSort (K.sorts asker.old) NumberSort b.symbol.0 → AreSorted takes (K.path asker.new) (K.turns asker.new) (K.decisions asker.new) (K.sorts asker.new)) }
    ensures same_sorts { K.sorts asker.new ≡ K.sorts asker.old }
    ensures full { IfErr result (λ fault. OnFull fault (MayBeFull (K.path asker.new) (K.sorts asker.new))) }
{
    let order = ask_order(a, b, asker)?;
    Ok(order == Ordering::Equal)
}

/// The next turn, below 3. It fails for want of memory alone.
pub fn take_turn<K: Asker>(asker: &mut K) -> Result<u32, AskFault>
    ensures below { IfOk result (λ n. n < 3) }
    ensures goes { OnOk result (Goes K.path K.turns K.decisions K.stands K.ended asker.old asker.new) }
    ensures says { IfOk result (λ n. Under K.path K.turns asker.new (λ e. n ≡ e.turns (length (K.turns asker.old)))) }
    ensures tells { OnOk result (Rests K.path K.turns K.decisions asker.old asker.new (λ e. e.turns (length (K.turns asker.old)))) }
    ensures stops { OnErr result (Goes K.path K.turns K.decisions K.stands K.ended asker.old asker.new) }
    ensures stopped { OnErr result (Stays K.path K.turns K.decisions asker.old asker.new) }
    ensures turns { IfOk result (λ n. K.turns asker.new ≡ K.turns asker.old ++ n ∷ []) }
    ensures path { K.path asker.new ≡ K.path asker.old }
    ensures sorted { OnOk result ((takes : Evidence → List Sorts) → AreSorted takes (K.path asker.old) (K.turns asker.old) (K.decisions asker.old) (K.sorts asker.old)
        → AreSorted takes (K.path asker.new) (K.turns asker.new) (K.decisions asker.new) (K.sorts asker.new)) }
    ensures stopped_sorted { OnErr result ((takes : Evidence → List Sorts) → AreSorted takes (K.path asker.old) (K.turns asker.old) (K.decisions asker.old) (K.sorts asker.old)
        → AreSorted takes (K.path asker.new) (K.turns asker.new) (K.decisions asker.new) (K.sorts asker.new)) }
    ensures same_sorts { K.sorts asker.new ≡ K.sorts asker.old }
    ensures fault { IfErr result (λ fault. fault ≡ NoMemoryFault) }
{
    asker.turn()
}

/// A new symbol of this sort. `Full` comes only where the asker may answer it.
#[tactic(auto, using(crate::proofs::AskingLemmas::on_symbols))]
pub fn make_symbol<K: Asker>(sort: Sort, asker: &mut K) -> Result<Symbol, AskFault>
    ensures symbol { IfOk result (λ symbol. symbol.0 ≡ length (K.sorts asker.old) + 1) }
    ensures goes { OnOk result (Goes K.path K.turns K.decisions K.stands K.ended asker.old asker.new) }
    ensures tells { OnOk result (Stays K.path K.turns K.decisions asker.old asker.new) }
    ensures stops { OnErr result (Goes K.path K.turns K.decisions K.stands K.ended asker.old asker.new) }
    ensures stopped { OnErr result (Stays K.path K.turns K.decisions asker.old asker.new) }
    ensures made { OnOk result (K.sorts asker.new ≡ K.sorts asker.old ++ sort ∷ []) }
    ensures symbols { OnOk result (length (K.sorts asker.new) ≡ length (K.sorts asker.old) + 1) }
    ensures sorted { OnOk result ((takes : Evidence → List Sorts) → AreSorted takes (K.path asker.old) (K.turns asker.old) (K.decisions asker.old) (K.sorts asker.old)
        → Under K.path K.turns asker.old (λ e. HasTurns e → Tracks (K.sorts asker.old ++ sort ∷ []) (takes e) e.values) → AreSorted takes (K.path asker.new) (K.turns asker.new) (K.decisions asker.new) (K.sorts asker.new)) }
    ensures stopped_sorted { OnErr result ((takes : Evidence → List Sorts) → AreSorted takes (K.path asker.old) (K.turns asker.old) (K.decisions asker.old) (K.sorts asker.old)
        → AreSorted takes (K.path asker.new) (K.turns asker.new) (K.decisions asker.new) (K.sorts asker.new)) }
    ensures same_sorts { OnErr result (K.sorts asker.new ≡ K.sorts asker.old) }
    ensures path { K.path asker.new ≡ K.path asker.old }
    ensures turns { K.turns asker.new ≡ K.turns asker.old }
    ensures full { IfErr result (λ fault. OnFull fault (MayBeFull (K.path asker.new) (K.sorts asker.new))) }
{
    asker.fresh(sort)
}
