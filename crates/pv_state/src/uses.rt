//! Uses of tabled operations: equal uses have one value, and each is held against those before it.

ghost use Rattle.std.specs.Prelude.{◌≡◌, IfOk, IfErr, OnOk, OnErr, ◌||◌, ◌&&◌, [], ◌∷◌, ◌++◌, drop};
ghost use Rattle.pv_values.specs.Heaps.{same_number};
ghost use Rattle.pv_picks.specs.Lazy.Patterns.{order_of};
ghost use Rattle.pv_picks.specs.Lazy.Runs.{value_used, is_same_use};
ghost use Rattle.pv_linear.specs.declared.asker.AskFault.TheVariants.{NoMemory as NoMemoryFault};
ghost use Rattle.pv_linear.specs.Values.{Values, term_value, number_of};
ghost use Rattle.pv_linear.specs.Evidence.{Evidence, Under, MayBeFull, OnFull};
ghost use Rattle.pv_linear.specs.Asking.{Asks, Goes, Rests};
ghost use Rattle.pv_state.specs.Parts.{StaysSorted, IsSorted};
ghost use Rattle.pv_state.specs.Values.{IsTerm};
ghost use Rattle.pv_state.specs.Uses.{IsUse, AreUses, IsFoundUse, use_at, uses_at, shown_at, crossed, both_same, value_of_symbol};

use pv_linear::{AskFault, Asker, Symbol, Term, ask_equal};
use pv_picks::plain::Operation;

/// A use of a tabled operation, and the symbol of its value.
#[derive(Clone, Copy, Debug, PartialEq, Eq, Drop)]
pub struct TabledUse {
    pub operation: Operation,
    pub left: Term,
    pub right: Term,
    pub value: Symbol,
}

/// Whether two numbers are the same.
#[tactic(auto, using(crate::proofs::Orders::may_compare, crate::proofs::Orders::equal_told, crate::proofs::Orders::order_cmp))]
pub(crate) fn is_alike<K: Asker>(a: Term, b: Term, asker: &mut K) -> Result<bool, AskFault>
    requires first { IsTerm (K.sorts asker.old) a }
    requires second { IsTerm (K.sorts asker.old) b }
    requires ready { IsSorted K.path K.turns K.decisions K.sorts asker.old }
    ensures asks { OnOk result (Asks K.path K.turns K.decisions K.stands K.ended K.sorts asker.old asker.new) }
    ensures says { IfOk result (λ told. Under K.path K.turns asker.new (λ e. told ≡ same_number (term_value e.values a) (term_value e.values b))) }
    ensures tells { OnOk result (Rests K.path K.turns K.decisions asker.old asker.new (λ e. order_of (term_value e.values a) (term_value e.values b))) }
    ensures stops { OnErr result (Goes K.path K.turns K.decisions K.stands K.ended asker.old asker.new) }
    ensures stopped { OnErr result (Rests K.path K.turns K.decisions asker.old asker.new (λ e. order_of (term_value e.values a) (term_value e.values b))) }
    ensures sorted { OnOk result (StaysSorted K.path K.turns K.decisions K.sorts asker.old asker.new) }
    ensures still { OnOk result (IsSorted K.path K.turns K.decisions K.sorts asker.new) }
    ensures stopped_sorted { OnErr result (StaysSorted K.path K.turns K.decisions K.sorts asker.old asker.new) }
    ensures same_sorts { K.sorts asker.new ≡ K.sorts asker.old }
    ensures full { IfErr result (λ fault. OnFull fault (MayBeFull (K.path asker.new) (K.sorts asker.new))) }
{
    let told = ask_equal(a, b, asker)?;
    Ok(told)
}

/// Whether the first is the third and the second the fourth.
#[tactic(auto, using(crate::proofs::Orders::term_stays))]
fn are_alike<K: Asker>(a: Term, b: Term, l: Term, r: Term, asker: &mut K) -> Result<bool, AskFault>
    requires a { IsTerm (K.sorts asker.old) a }
    requires b { IsTerm (K.sorts asker.old) b }
    requires l { IsTerm (K.sorts asker.old) l }
    requires r { IsTerm (K.sorts asker.old) r }
    requires ready { IsSorted K.path K.turns K.decisions K.sorts asker.old }
    ensures asks { OnOk result (Asks K.path K.turns K.decisions K.stands K.ended K.sorts asker.old asker.new) }
    ensures says { IfOk result (λ told. Under K.path K.turns asker.new (λ e. told ≡ both_same (term_value e.values a) (term_value e.values b) (term_value e.values l) (term_value e.values r))) }
    ensures tells { OnOk result (Rests K.path K.turns K.decisions asker.old asker.new (λ e. order_of (term_value e.values a) (term_value e.values l) ∷ order_of (term_value e.values b) (term_value e.values r) ∷ [])) }
    ensures stops { OnErr result (Goes K.path K.turns K.decisions K.stands K.ended asker.old asker.new) }
    ensures stopped { OnErr result (Rests K.path K.turns K.decisions asker.old asker.new (λ e. order_of (term_value e.values a) (term_value e.values l) ∷ order_of (term_value e.values b) (term_value e.values r) ∷ [])) }
    ensures sorted { OnOk result (StaysSorted K.path K.turns K.decisions K.sorts asker.old asker.new) }
    ensures still { OnOk result (IsSorted K.path K.turns K.decisions K.sorts asker.new) }
    ensures stopped_sorted { OnErr result (StaysSorted K.path K.turns K.decisions K.sorts asker.old asker.new) }
    ensures same_sorts { K.sorts asker.new ≡ K.sorts asker.old }
    ensures full { IfErr result (λ fault. OnFull fault (MayBeFull (K.path asker.new) (K.sorts asker.new))) }
{
    let first = is_alike(a, l, asker)?;
    if !first {
        return Ok(false);
    }
    let second = is_alike(b, r, asker)?;
    Ok(second)
}

/// The same, or crosswise.
#[tactic(auto, using(crate::proofs::Orders::term_stays))]
fn have_same_arguments<K: Asker>(
    a: Term,
    b: Term,
    l: Term,
    r: Term,
    crosswise: bool,
    asker: &mut K,
) -> Result<bool, AskFault>
    requires a { IsTerm (K.sorts asker.old) a }
    requires b { IsTerm (K.sorts asker.old) b }
    requires l { IsTerm (K.sorts asker.old) l }
    requires r { IsTerm (K.sorts asker.old) r }
    requires ready { IsSorted K.path K.turns K.decisions K.sorts asker.old }
    ensures asks { OnOk result (Asks K.path K.turns K.decisions K.stands K.ended K.sorts asker.old asker.new) }
    ensures says { IfOk result (λ told. Under K.path K.turns asker.new (λ e. told ≡ (both_same (term_value e.values a) (term_value e.values b) (term_value e.values l) (term_value e.values r) || (crosswise && both_same (term_value e.values a) (term_value e.values b) (term_value e.values r) (term_value e.values l))))) }
    ensures tells { OnOk result (Rests K.path K.turns K.decisions asker.old asker.new (λ e. crossed (term_value e.values a) (term_value e.values b) (term_value e.values l) (term_value e.values r))) }
    ensures stops { OnErr result (Goes K.path K.turns K.decisions K.stands K.ended asker.old asker.new) }
    ensures stopped { OnErr result (Rests K.path K.turns K.decisions asker.old asker.new (λ e. crossed (term_value e.values a) (term_value e.values b) (term_value e.values l) (term_value e.values r))) }
    ensures sorted { OnOk result (StaysSorted K.path K.turns K.decisions K.sorts asker.old asker.new) }
    ensures still { OnOk result (IsSorted K.path K.turns K.decisions K.sorts asker.new) }
    ensures stopped_sorted { OnErr result (StaysSorted K.path K.turns K.decisions K.sorts asker.old asker.new) }
    ensures same_sorts { K.sorts asker.new ≡ K.sorts asker.old }
    ensures full { IfErr result (λ fault. OnFull fault (MayBeFull (K.path asker.new) (K.sorts asker.new))) }
{
    let straight = are_alike(a, b, l, r, asker)?;
    if straight {
        return Ok(true);
    }
    if !crosswise {
        return Ok(false);
    }
    let other = are_alike(a, b, r, l, asker)?;
    Ok(other)
}

/// Whether a use is the one with these arguments.
#[tactic(auto, using(crate::proofs::Orders::orders_same))]
fn is_same<K: Asker>(
    u: TabledUse,
    operation: Operation,
    a: Term,
    b: Term,
    asker: &mut K,
) -> Result<bool, AskFault>
    requires a { IsTerm (K.sorts asker.old) a }
    requires b { IsTerm (K.sorts asker.old) b }
    requires u { IsUse (K.sorts asker.old) u }
    requires ready { IsSorted K.path K.turns K.decisions K.sorts asker.old }
    ensures asks { OnOk result (Asks K.path K.turns K.decisions K.stands K.ended K.sorts asker.old asker.new) }
    ensures says { IfOk result (λ told. Under K.path K.turns asker.new (λ e. told ≡ is_same_use (use_at e.values operation a b) (use_at e.values u.operation u.left u.right))) }
    ensures tells { OnOk result (Rests K.path K.turns K.decisions asker.old asker.new (λ e. shown_at e.values operation a b (u ∷ []))) }
    ensures stops { OnErr result (Goes K.path K.turns K.decisions K.stands K.ended asker.old asker.new) }
    ensures stopped { OnErr result (Rests K.path K.turns K.decisions asker.old asker.new (λ e. shown_at e.values operation a b (u ∷ []))) }
    ensures sorted { OnOk result (StaysSorted K.path K.turns K.decisions K.sorts asker.old asker.new) }
    ensures still { OnOk result (IsSorted K.path K.turns K.decisions K.sorts asker.new) }
    ensures stopped_sorted { OnErr result (StaysSorted K.path K.turns K.decisions K.sorts asker.old asker.new) }
    ensures same_sorts { K.sorts asker.new ≡ K.sorts asker.old }
    ensures full { IfErr result (λ fault. OnFull fault (MayBeFull (K.path asker.new) (K.sorts asker.new))) }
{
    match operation {
        Operation::Plus => match u.operation {
            Operation::Plus => {
                let told = have_same_arguments(a, b, u.left, u.right, true, asker)?;
                Ok(told)
            }
            Operation::Minus => Ok(false),
            Operation::Times => Ok(false),
        },
        Operation::Minus => match u.operation {
            Operation::Plus => Ok(false),
            Operation::Minus => {
                let told = have_same_arguments(a, b, u.left, u.right, false, asker)?;
                Ok(told)
            }
            Operation::Times => Ok(false),
        },
        Operation::Times => match u.operation {
            Operation::Plus => Ok(false),
            Operation::Minus => Ok(false),
            Operation::Times => {
                let told = have_same_arguments(a, b, u.left, u.right, true, asker)?;
                Ok(told)
            }
        },
    }
}

/// The symbol of the first use that is the same.
#[tactic(auto, using(crate::proofs::Orders::shown_first, crate::proofs::Orders::shown_rest, crate::proofs::Orders::term_stays, crate::proofs::Orders::use_of, crate::proofs::Orders::value_of_use, crate::proofs::Orders::uses_stay))]
pub(crate) fn find<K: Asker>(
    uses: &[TabledUse],
    operation: Operation,
    a: Term,
    b: Term,
    asker: &mut K,
) -> Result<Option<Symbol>, AskFault>
    requires a { IsTerm (K.sorts asker.old) a }
    requires b { IsTerm (K.sorts asker.old) b }
    requires uses { AreUses (K.sorts asker.old) uses.now }
    requires ready { IsSorted K.path K.turns K.decisions K.sorts asker.old }
    ensures asks { OnOk result (Asks K.path K.turns K.decisions K.stands K.ended K.sorts asker.old asker.new) }
    ensures says { IfOk result (λ found. Under K.path K.turns asker.new (λ e. value_of_symbol e.values found ≡ value_used (uses_at e.values uses.now) (use_at e.values operation a b))) }
    ensures tells { OnOk result (Rests K.path K.turns K.decisions asker.old asker.new (λ e. shown_at e.values operation a b uses.now)) }
    ensures stops { OnErr result (Goes K.path K.turns K.decisions K.stands K.ended asker.old asker.new) }
    ensures stopped { OnErr result (Rests K.path K.turns K.decisions asker.old asker.new (λ e. shown_at e.values operation a b uses.now)) }
    ensures sorted { OnOk result (StaysSorted K.path K.turns K.decisions K.sorts asker.old asker.new) }
    ensures still { OnOk result (IsSorted K.path K.turns K.decisions K.sorts asker.new) }
    ensures stopped_sorted { OnErr result (StaysSorted K.path K.turns K.decisions K.sorts asker.old asker.new) }
    ensures found { IfOk result (λ found. IsFoundUse (K.sorts asker.old) found) }
    ensures same_sorts { K.sorts asker.new ≡ K.sorts asker.old }
    ensures full { IfErr result (λ fault. OnFull fault (MayBeFull (K.path asker.new) (K.sorts asker.new))) }
{
    for u in uses {
        let same = is_same(*u, operation, a, b, asker)?;
        if same {
            return Ok(Some(u.value));
        }
    }
    Ok(None)
}
