//! The values of operations.

ghost use Rattle.std.specs.Prelude.{◌≡◌, IfOk, IfErr, OnOk, OnErr, pos, length};
ghost use Rattle.pv_values.specs.declared.value.Value.TheVariants as value;
ghost use Rattle.pv_linear.specs.declared.Sort.TheVariants.{Number as NumberSort};
ghost use Rattle.pv_linear.specs.Sorts.{HasSort};
ghost use Rattle.pv_linear.specs.Values.{term_value};
ghost use Rattle.pv_linear.specs.Evidence.{Evidence, MayBeFull, OnFull};
ghost use Rattle.pv_state.specs.Parts.{IsSorted, Does, Halts};
ghost use Rattle.pv_state.specs.Values.{IsTerm};
ghost use Rattle.pv_state.specs.States.{AreStores, went_at};
ghost use Rattle.pv_state.specs.Runs.{begun, run_use, run_new_use};

use crate::scene::{Stores, SymbolScene};
use crate::uses::{TabledUse, find};
use pv_linear::{AskFault, Asker, Sort, Term, make_symbol};
use pv_picks::plain::Operation;

/// A new symbol for the value of a use that there was none of.
fn new_use<K: Asker>(
    operation: Operation,
    a: Term,
    b: Term,
    own: &SymbolScene,
    stores: &mut Stores,
    asker: &mut K,
) -> Result<Term, AskFault>
    requires a { IsTerm (K.sorts asker.old) a }
    requires b { IsTerm (K.sorts asker.old) b }
    requires stores { AreStores (K.sorts asker.old) stores.old }
    ensures does { IfOk result (λ t. Does K.path K.turns K.decisions K.stands K.ended K.sorts asker.old asker.new (begun (run_new_use operation a b) own.now stores.old (length (K.sorts asker.old)) (length (K.turns asker.old))) (λ e. went_at e own.now stores.new (value.Number (term_value e.values t)) (length (K.sorts asker.new)) (length (K.turns asker.new)))) }
    ensures halts { OnErr result (Halts K.path K.turns K.decisions K.stands K.ended K.sorts asker.old asker.new (begun (run_new_use operation a b) own.now stores.old (length (K.sorts asker.old)) (length (K.turns asker.old)))) }
    ensures made { IfOk result (λ t. HasSort (K.sorts asker.new) NumberSort t.symbol.0) }
    ensures stores { OnOk result (AreStores (K.sorts asker.new) stores.new) }
    ensures size { IfOk result (λ t. t.plus ≡ pos 0) }
    ensures full { IfErr result (λ fault. OnFull fault (MayBeFull (K.path asker.new) (K.sorts asker.new))) }
{
    let value = make_symbol(Sort::Number, asker)?;
    stores.uses.push(TabledUse {
        operation,
        left: a,
        right: b,
        value,
    })?;
    Ok(Term {
        symbol: value,
        plus: 0,
    })
}

/// The value of a use of a tabled operation: that of the first use that is the same, or a new one.
pub(crate) fn value_of_use<K: Asker>(
    operation: Operation,
    a: Term,
    b: Term,
    own: &SymbolScene,
    stores: &mut Stores,
    asker: &mut K,
) -> Result<Term, AskFault>
    requires a { IsTerm (K.sorts asker.old) a }
    requires b { IsTerm (K.sorts asker.old) b }
    requires stores { AreStores (K.sorts asker.old) stores.old }
    requires ready { IsSorted K.path K.turns K.decisions K.sorts asker.old }
    ensures does { IfOk result (λ t. Does K.path K.turns K.decisions K.stands K.ended K.sorts asker.old asker.new (begun (run_use operation a b) own.now stores.old (length (K.sorts asker.old)) (length (K.turns asker.old))) (λ e. went_at e own.now stores.new (value.Number (term_value e.values t)) (length (K.sorts asker.new)) (length (K.turns asker.new)))) }
    ensures halts { OnErr result (Halts K.path K.turns K.decisions K.stands K.ended K.sorts asker.old asker.new (begun (run_use operation a b) own.now stores.old (length (K.sorts asker.old)) (length (K.turns asker.old)))) }
    ensures made { IfOk result (λ t. HasSort (K.sorts asker.new) NumberSort t.symbol.0) }
    ensures stores { OnOk result (AreStores (K.sorts asker.new) stores.new) }
    ensures size { IfOk result (λ t. t.plus ≡ pos 0) }
    ensures full { IfErr result (λ fault. OnFull fault (MayBeFull (K.path asker.new) (K.sorts asker.new))) }
{
    match find(&stores.uses, operation, a, b, asker)? {
        Some(symbol) => Ok(Term { symbol, plus: 0 }),
        None => {
            let value = new_use(operation, a, b, own, stores, asker)?;
            Ok(value)
        }
    }
}
