//! The value of an expression on symbols.

ghost use Rattle.std.specs.Prelude.{◌≡◌, IfOk, IfErr, OnOk, OnErr, pos, length};
ghost use Rattle.pv_values.specs.declared.value.Value.TheVariants as value;
ghost use Rattle.pv_linear.specs.Evidence.{Evidence, MayBeFull, OnFull};
ghost use Rattle.pv_linear.specs.Values.{Values, term_value};
ghost use Rattle.pv_linear.specs.declared.asker.AskFault.TheVariants.{NoMemory as NoMemoryFault};
ghost use Rattle.pv_picks.specs.Formulas.Values.{number_in, truth_in};
ghost use Rattle.pv_state.specs.Parts.{Does, Halts, Ready};
ghost use Rattle.pv_state.specs.Values.{IsMade, IsMadeTruth, IsTerm, value_at, truth_at};
ghost use Rattle.pv_state.specs.States.{IsMadeScene, AreStores, went_at};
ghost use Rattle.pv_state.specs.Runs.{IsMadeOperand, operand_at, begun, run_value, run_not, run_compute, run_compare, run_equal, run_and, run_or, run_implies};

use crate::operands::{
    Operand, Reading, compare_operands, compute, constant, decide, same_operands,
};
use crate::scene::{Stores, SymbolScene, lookup};
use crate::values::SymbolValue;
use pv_base::Span;
use pv_linear::{AskFault, Asker};
use pv_picks::plain::{Comparison, Expression, Manner, Operation};

/// The value of an expression, or the difference that it is.
#[cycle(operand)]
pub(crate) fn operand<K: Asker>(
    reading: Reading,
    scene: &SymbolScene,
    own: &SymbolScene,
    x: &Expression,
    stores: &mut Stores,
    asker: &mut K,
) -> Result<Operand, AskFault>
    requires scene { IsMadeScene (K.sorts asker.old) scene.now }
    requires stores { AreStores (K.sorts asker.old) stores.old }
    requires ready { Ready K.path K.turns K.decisions K.sorts asker.old (begun (run_value reading scene.now x.now) own.now stores.old (length (K.sorts asker.old)) (length (K.turns asker.old))) }
    ensures does { IfOk result (λ v. Does K.path K.turns K.decisions K.stands K.ended K.sorts asker.old asker.new (begun (run_value reading scene.now x.now) own.now stores.old (length (K.sorts asker.old)) (length (K.turns asker.old))) (λ e. went_at e own.now stores.new (operand_at e.values v) (length (K.sorts asker.new)) (length (K.turns asker.new)))) }
    ensures halts { OnErr result (Halts K.path K.turns K.decisions K.stands K.ended K.sorts asker.old asker.new (begun (run_value reading scene.now x.now) own.now stores.old (length (K.sorts asker.old)) (length (K.turns asker.old)))) }
    ensures made { IfOk result (λ v. IsMadeOperand (K.sorts asker.new) v) }
    ensures stores { OnOk result (AreStores (K.sorts asker.new) stores.new) }
    ensures full { IfErr result (λ fault. OnFull fault (MayBeFull (K.path asker.new) (K.sorts asker.new))) }
{
    match x {
        Expression::Constant(value) => constant(*value),
        Expression::This => Ok(Operand::One(SymbolValue::reference(scene.this))),
        Expression::Result => Ok(Operand::One(scene.result)),
        Expression::Variable(name) => Ok(Operand::One(lookup(&scene.locals, *name))),
        Expression::Field(_, _, _, _)
        | Expression::Element(_, _, _, _)
        | Expression::Length(_, _, _) => Err(AskFault::NoMemory),
        Expression::Not(a) => opposite(reading, scene, own, a.get(), stores, asker),
        Expression::Compute(manner, operation, a, b, span) => computed(
            reading,
            scene,
            own,
            *manner,
            *operation,
            a.get(),
            b.get(),
            *span,
            stores,
            asker,
        ),
        Expression::Compare(order, a, b) => compared(
            reading,
            scene,
            own,
            *order,
            a.get(),
            b.get(),
            stores,
            asker,
        ),
        Expression::Equal(same, a, b) => equal(
            reading,
            scene,
            own,
            *same,
            a.get(),
            b.get(),
            stores,
            asker,
        ),
        Expression::And(a, b) => both(reading, scene, own, a.get(), b.get(), stores, asker),
        Expression::Or(a, b) => either(reading, scene, own, a.get(), b.get(), stores, asker),
        Expression::Implies(a, b) => implied(reading, scene, own, a.get(), b.get(), stores, asker),
        Expression::Old(a) => operand(reading.of_old(), scene, own, a.get(), stores, asker),
    }
}

/// The opposite of a truth value.
#[cycle(operand)]
fn opposite<K: Asker>(
    reading: Reading,
    scene: &SymbolScene,
    own: &SymbolScene,
    a: &Expression,
    stores: &mut Stores,
    asker: &mut K,
) -> Result<Operand, AskFault>
    requires scene { IsMadeScene (K.sorts asker.old) scene.now }
    requires stores { AreStores (K.sorts asker.old) stores.old }
    requires ready { Ready K.path K.turns K.decisions K.sorts asker.old (begun (run_not reading scene.now a.now) own.now stores.old (length (K.sorts asker.old)) (length (K.turns asker.old))) }
    ensures does { IfOk result (λ v. Does K.path K.turns K.decisions K.stands K.ended K.sorts asker.old asker.new (begun (run_not reading scene.now a.now) own.now stores.old (length (K.sorts asker.old)) (length (K.turns asker.old))) (λ e. went_at e own.now stores.new (operand_at e.values v) (length (K.sorts asker.new)) (length (K.turns asker.new)))) }
    ensures halts { OnErr result (Halts K.path K.turns K.decisions K.stands K.ended K.sorts asker.old asker.new (begun (run_not reading scene.now a.now) own.now stores.old (length (K.sorts asker.old)) (length (K.turns asker.old)))) }
    ensures made { IfOk result (λ v. IsMadeOperand (K.sorts asker.new) v) }
    ensures stores { OnOk result (AreStores (K.sorts asker.new) stores.new) }
    ensures full { IfErr result (λ fault. OnFull fault (MayBeFull (K.path asker.new) (K.sorts asker.new))) }
{
    let v = operand(reading, scene, own, a, stores, asker)?;
    Ok(v.opposite())
}

/// What an operation gives.
#[cycle(operand)]
fn computed<K: Asker>(
    reading: Reading,
    scene: &SymbolScene,
    own: &SymbolScene,
    manner: Manner,
    operation: Operation,
    a: &Expression,
    b: &Expression,
    span: Span,
    stores: &mut Stores,
    asker: &mut K,
) -> Result<Operand, AskFault>
    requires scene { IsMadeScene (K.sorts asker.old) scene.now }
    requires stores { AreStores (K.sorts asker.old) stores.old }
    requires ready { Ready K.path K.turns K.decisions K.sorts asker.old (begun (run_compute reading scene.now manner operation a.now b.now span) own.now stores.old (length (K.sorts asker.old)) (length (K.turns asker.old))) }
    ensures does { IfOk result (λ v. Does K.path K.turns K.decisions K.stands K.ended K.sorts asker.old asker.new (begun (run_compute reading scene.now manner operation a.now b.now span) own.now stores.old (length (K.sorts asker.old)) (length (K.turns asker.old))) (λ e. went_at e own.now stores.new (operand_at e.values v) (length (K.sorts asker.new)) (length (K.turns asker.new)))) }
    ensures halts { OnErr result (Halts K.path K.turns K.decisions K.stands K.ended K.sorts asker.old asker.new (begun (run_compute reading scene.now manner operation a.now b.now span) own.now stores.old (length (K.sorts asker.old)) (length (K.turns asker.old)))) }
    ensures made { IfOk result (λ v. IsMadeOperand (K.sorts asker.new) v) }
    ensures stores { OnOk result (AreStores (K.sorts asker.new) stores.new) }
    ensures full { IfErr result (λ fault. OnFull fault (MayBeFull (K.path asker.new) (K.sorts asker.new))) }
{
    let v = operand(reading, scene, own, a, stores, asker)?;
    let w = operand(reading, scene, own, b, stores, asker)?;
    compute(manner, operation, v, w, span, own, stores, asker)
}

/// Whether a comparison holds.
#[cycle(operand)]
fn compared<K: Asker>(
    reading: Reading,
    scene: &SymbolScene,
    own: &SymbolScene,
    order: Comparison,
    a: &Expression,
    b: &Expression,
    stores: &mut Stores,
    asker: &mut K,
) -> Result<Operand, AskFault>
    requires scene { IsMadeScene (K.sorts asker.old) scene.now }
    requires stores { AreStores (K.sorts asker.old) stores.old }
    requires ready { Ready K.path K.turns K.decisions K.sorts asker.old (begun (run_compare reading scene.now order a.now b.now) own.now stores.old (length (K.sorts asker.old)) (length (K.turns asker.old))) }
    ensures does { IfOk result (λ v. Does K.path K.turns K.decisions K.stands K.ended K.sorts asker.old asker.new (begun (run_compare reading scene.now order a.now b.now) own.now stores.old (length (K.sorts asker.old)) (length (K.turns asker.old))) (λ e. went_at e own.now stores.new (operand_at e.values v) (length (K.sorts asker.new)) (length (K.turns asker.new)))) }
    ensures halts { OnErr result (Halts K.path K.turns K.decisions K.stands K.ended K.sorts asker.old asker.new (begun (run_compare reading scene.now order a.now b.now) own.now stores.old (length (K.sorts asker.old)) (length (K.turns asker.old)))) }
    ensures made { IfOk result (λ v. IsMadeOperand (K.sorts asker.new) v) }
    ensures stores { OnOk result (AreStores (K.sorts asker.new) stores.new) }
    ensures full { IfErr result (λ fault. OnFull fault (MayBeFull (K.path asker.new) (K.sorts asker.new))) }
{
    let v = operand(reading, scene, own, a, stores, asker)?;
    let w = operand(reading, scene, own, b, stores, asker)?;
    let told = compare_operands(order, v, w, asker)?;
    Ok(Operand::One(SymbolValue::known(told)))
}

/// Whether two values are the same, or differ.
#[cycle(operand)]
fn equal<K: Asker>(
    reading: Reading,
    scene: &SymbolScene,
    own: &SymbolScene,
    same: bool,
    a: &Expression,
    b: &Expression,
    stores: &mut Stores,
    asker: &mut K,
) -> Result<Operand, AskFault>
    requires scene { IsMadeScene (K.sorts asker.old) scene.now }
    requires stores { AreStores (K.sorts asker.old) stores.old }
    requires ready { Ready K.path K.turns K.decisions K.sorts asker.old (begun (run_equal reading scene.now same a.now b.now) own.now stores.old (length (K.sorts asker.old)) (length (K.turns asker.old))) }
    ensures does { IfOk result (λ v. Does K.path K.turns K.decisions K.stands K.ended K.sorts asker.old asker.new (begun (run_equal reading scene.now same a.now b.now) own.now stores.old (length (K.sorts asker.old)) (length (K.turns asker.old))) (λ e. went_at e own.now stores.new (operand_at e.values v) (length (K.sorts asker.new)) (length (K.turns asker.new)))) }
    ensures halts { OnErr result (Halts K.path K.turns K.decisions K.stands K.ended K.sorts asker.old asker.new (begun (run_equal reading scene.now same a.now b.now) own.now stores.old (length (K.sorts asker.old)) (length (K.turns asker.old)))) }
    ensures made { IfOk result (λ v. IsMadeOperand (K.sorts asker.new) v) }
    ensures stores { OnOk result (AreStores (K.sorts asker.new) stores.new) }
    ensures full { IfErr result (λ fault. OnFull fault (MayBeFull (K.path asker.new) (K.sorts asker.new))) }
{
    let v = operand(reading, scene, own, a, stores, asker)?;
    let w = operand(reading, scene, own, b, stores, asker)?;
    let told = same_operands(v, w, asker)?;
    Ok(Operand::One(SymbolValue::known(told == same)))
}

/// `a && b`.
#[cycle(operand)]
fn both<K: Asker>(
    reading: Reading,
    scene: &SymbolScene,
    own: &SymbolScene,
    a: &Expression,
    b: &Expression,
    stores: &mut Stores,
    asker: &mut K,
) -> Result<Operand, AskFault>
    requires scene { IsMadeScene (K.sorts asker.old) scene.now }
    requires stores { AreStores (K.sorts asker.old) stores.old }
    requires ready { Ready K.path K.turns K.decisions K.sorts asker.old (begun (run_and reading scene.now a.now b.now) own.now stores.old (length (K.sorts asker.old)) (length (K.turns asker.old))) }
    ensures does { IfOk result (λ v. Does K.path K.turns K.decisions K.stands K.ended K.sorts asker.old asker.new (begun (run_and reading scene.now a.now b.now) own.now stores.old (length (K.sorts asker.old)) (length (K.turns asker.old))) (λ e. went_at e own.now stores.new (operand_at e.values v) (length (K.sorts asker.new)) (length (K.turns asker.new)))) }
    ensures halts { OnErr result (Halts K.path K.turns K.decisions K.stands K.ended K.sorts asker.old asker.new (begun (run_and reading scene.now a.now b.now) own.now stores.old (length (K.sorts asker.old)) (length (K.turns asker.old)))) }
    ensures made { IfOk result (λ v. IsMadeOperand (K.sorts asker.new) v) }
    ensures stores { OnOk result (AreStores (K.sorts asker.new) stores.new) }
    ensures full { IfErr result (λ fault. OnFull fault (MayBeFull (K.path asker.new) (K.sorts asker.new))) }
{
    let v = operand(reading, scene, own, a, stores, asker)?;
    let told = decide(v, asker)?;
    if told {
        operand(reading, scene, own, b, stores, asker)
    } else {
        Ok(Operand::One(SymbolValue::known(false)))
    }
}

/// `a || b`.
#[cycle(operand)]
fn either<K: Asker>(
    reading: Reading,
    scene: &SymbolScene,
    own: &SymbolScene,
    a: &Expression,
    b: &Expression,
    stores: &mut Stores,
    asker: &mut K,
) -> Result<Operand, AskFault>
    requires scene { IsMadeScene (K.sorts asker.old) scene.now }
    requires stores { AreStores (K.sorts asker.old) stores.old }
    requires ready { Ready K.path K.turns K.decisions K.sorts asker.old (begun (run_or reading scene.now a.now b.now) own.now stores.old (length (K.sorts asker.old)) (length (K.turns asker.old))) }
    ensures does { IfOk result (λ v. Does K.path K.turns K.decisions K.stands K.ended K.sorts asker.old asker.new (begun (run_or reading scene.now a.now b.now) own.now stores.old (length (K.sorts asker.old)) (length (K.turns asker.old))) (λ e. went_at e own.now stores.new (operand_at e.values v) (length (K.sorts asker.new)) (length (K.turns asker.new)))) }
    ensures halts { OnErr result (Halts K.path K.turns K.decisions K.stands K.ended K.sorts asker.old asker.new (begun (run_or reading scene.now a.now b.now) own.now stores.old (length (K.sorts asker.old)) (length (K.turns asker.old)))) }
    ensures made { IfOk result (λ v. IsMadeOperand (K.sorts asker.new) v) }
    ensures stores { OnOk result (AreStores (K.sorts asker.new) stores.new) }
    ensures full { IfErr result (λ fault. OnFull fault (MayBeFull (K.path asker.new) (K.sorts asker.new))) }
{
    let v = operand(reading, scene, own, a, stores, asker)?;
    let told = decide(v, asker)?;
    if !told {
        operand(reading, scene, own, b, stores, asker)
    } else {
        Ok(Operand::One(SymbolValue::known(true)))
    }
}

/// `a ==> b`.
#[cycle(operand)]
fn implied<K: Asker>(
    reading: Reading,
    scene: &SymbolScene,
    own: &SymbolScene,
    a: &Expression,
    b: &Expression,
    stores: &mut Stores,
    asker: &mut K,
) -> Result<Operand, AskFault>
    requires scene { IsMadeScene (K.sorts asker.old) scene.now }
    requires stores { AreStores (K.sorts asker.old) stores.old }
    requires ready { Ready K.path K.turns K.decisions K.sorts asker.old (begun (run_implies reading scene.now a.now b.now) own.now stores.old (length (K.sorts asker.old)) (length (K.turns asker.old))) }
    ensures does { IfOk result (λ v. Does K.path K.turns K.decisions K.stands K.ended K.sorts asker.old asker.new (begun (run_implies reading scene.now a.now b.now) own.now stores.old (length (K.sorts asker.old)) (length (K.turns asker.old))) (λ e. went_at e own.now stores.new (operand_at e.values v) (length (K.sorts asker.new)) (length (K.turns asker.new)))) }
    ensures halts { OnErr result (Halts K.path K.turns K.decisions K.stands K.ended K.sorts asker.old asker.new (begun (run_implies reading scene.now a.now b.now) own.now stores.old (length (K.sorts asker.old)) (length (K.turns asker.old)))) }
    ensures made { IfOk result (λ v. IsMadeOperand (K.sorts asker.new) v) }
    ensures stores { OnOk result (AreStores (K.sorts asker.new) stores.new) }
    ensures full { IfErr result (λ fault. OnFull fault (MayBeFull (K.path asker.new) (K.sorts asker.new))) }
{
    let v = operand(reading, scene, own, a, stores, asker)?;
    let told = decide(v, asker)?;
    if told {
        operand(reading, scene, own, b, stores, asker)
    } else {
        Ok(Operand::One(SymbolValue::known(true)))
    }
}
