//! Formulas that are inhaled and exhaled on symbols.

ghost use Rattle.std.specs.Prelude.{◌≡◌, IfOk, IfErr, OnOk, OnErr, Option, length};
ghost use Rattle.pv_linear.specs.Evidence.{Evidence, MayBeFull, OnFull};
ghost use Rattle.pv_picks.specs.Judge.Exhaling.{span_or as span_from};
ghost use Rattle.pv_state.specs.Parts.{Does, Halts, Ready};
ghost use Rattle.pv_state.specs.States.{IsMadeScene, AreStores};
ghost use Rattle.pv_state.specs.Runs.{begun, came_at, run_taken, run_given, take, give, fact_of, star_of, when_of};

use crate::eval::operand;
use crate::operands::{Reading, decide};
use crate::scene::{Stores, SymbolScene};
use pv_base::Span;
use pv_linear::{AskFault, Asker};
use pv_picks::Check;
use pv_picks::plain::{Expression, Formula};

/// How a part of a run came out that has no value: it goes on, or the run has ended.
#[derive(Clone, Copy, Debug, PartialEq, Eq, Drop)]
pub enum Outcome {
    Goes,
    Blocked,
    Failed(Check, Span),
}

/// The span of a failure: that of the statement where one is given, and else that of the conjunct.
fn span_or(statement: Option<Span>, conjunct: Span) -> Span
    ensures span { result ≡ span_from statement conjunct }
{
    match statement {
        Some(span) => span,
        None => conjunct,
    }
}

/// A formula is inhaled, from left to right.
#[cycle(inhale)]
pub fn inhale<K: Asker>(
    scene: &SymbolScene,
    own: &SymbolScene,
    x: &Formula,
    stores: &mut Stores,
    asker: &mut K,
) -> Result<Outcome, AskFault>
    requires scene { IsMadeScene (K.sorts asker.old) scene.now }
    requires stores { AreStores (K.sorts asker.old) stores.old }
    requires ready { Ready K.path K.turns K.decisions K.sorts asker.old (begun (run_taken scene.now x.now) own.now stores.old (length (K.sorts asker.old)) (length (K.turns asker.old))) }
    ensures does { IfOk result (λ out. Does K.path K.turns K.decisions K.stands K.ended K.sorts asker.old asker.new (begun (run_taken scene.now x.now) own.now stores.old (length (K.sorts asker.old)) (length (K.turns asker.old))) (λ e. came_at e own.now stores.new out (length (K.sorts asker.new)) (length (K.turns asker.new)))) }
    ensures halts { OnErr result (Halts K.path K.turns K.decisions K.stands K.ended K.sorts asker.old asker.new (begun (run_taken scene.now x.now) own.now stores.old (length (K.sorts asker.old)) (length (K.turns asker.old)))) }
    ensures stores { OnOk result (AreStores (K.sorts asker.new) stores.new) }
    ensures full { IfErr result (λ fault. OnFull fault (MayBeFull (K.path asker.new) (K.sorts asker.new))) }
{
    match x {
        Formula::Fact(e, span) => inhale_fact(scene, own, e, *span, stores, asker),
        Formula::Star(a, b) => inhale_both(scene, own, a.get(), b.get(), stores, asker),
        Formula::When(e, body, span) => inhale_when(
            scene,
            own,
            e,
            body.get(),
            *span,
            stores,
            asker,
        ),
        Formula::FieldPermission(_, _, _, _, _, _)
        | Formula::ElementPermission(_, _, _, _, _)
        | Formula::Holds(_, _, _, _)
        | Formula::Instance(_, _, _, _, _)
        | Formula::Each(_, _, _, _, _) => Err(AskFault::NoMemory),
    }
}

/// A pure condition.

fn inhale_fact<K: Asker>(
    scene: &SymbolScene,
    own: &SymbolScene,
    x: &Expression,
    span: Span,
    stores: &mut Stores,
    asker: &mut K,
) -> Result<Outcome, AskFault>
    requires scene { IsMadeScene (K.sorts asker.old) scene.now }
    requires stores { AreStores (K.sorts asker.old) stores.old }
    requires ready { Ready K.path K.turns K.decisions K.sorts asker.old (begun (take scene.now (fact_of x.now span)) own.now stores.old (length (K.sorts asker.old)) (length (K.turns asker.old))) }
    ensures does { IfOk result (λ out. Does K.path K.turns K.decisions K.stands K.ended K.sorts asker.old asker.new (begun (take scene.now (fact_of x.now span)) own.now stores.old (length (K.sorts asker.old)) (length (K.turns asker.old))) (λ e. came_at e own.now stores.new out (length (K.sorts asker.new)) (length (K.turns asker.new)))) }
    ensures halts { OnErr result (Halts K.path K.turns K.decisions K.stands K.ended K.sorts asker.old asker.new (begun (take scene.now (fact_of x.now span)) own.now stores.old (length (K.sorts asker.old)) (length (K.turns asker.old)))) }
    ensures stores { OnOk result (AreStores (K.sorts asker.new) stores.new) }
    ensures full { IfErr result (λ fault. OnFull fault (MayBeFull (K.path asker.new) (K.sorts asker.new))) }
{
    let v = operand(Reading::Inhaled, scene, own, x, stores, asker)?;
    let told = decide(v, asker)?;
    if told {
        return Ok(Outcome::Goes);
    }
    Ok(Outcome::Blocked)
}

/// One formula, and then another.
#[cycle(inhale)]
fn inhale_both<K: Asker>(
    scene: &SymbolScene,
    own: &SymbolScene,
    a: &Formula,
    b: &Formula,
    stores: &mut Stores,
    asker: &mut K,
) -> Result<Outcome, AskFault>
    requires scene { IsMadeScene (K.sorts asker.old) scene.now }
    requires stores { AreStores (K.sorts asker.old) stores.old }
    requires ready { Ready K.path K.turns K.decisions K.sorts asker.old (begun (take scene.now (star_of a.now b.now)) own.now stores.old (length (K.sorts asker.old)) (length (K.turns asker.old))) }
    ensures does { IfOk result (λ out. Does K.path K.turns K.decisions K.stands K.ended K.sorts asker.old asker.new (begun (take scene.now (star_of a.now b.now)) own.now stores.old (length (K.sorts asker.old)) (length (K.turns asker.old))) (λ e. came_at e own.now stores.new out (length (K.sorts asker.new)) (length (K.turns asker.new)))) }
    ensures halts { OnErr result (Halts K.path K.turns K.decisions K.stands K.ended K.sorts asker.old asker.new (begun (take scene.now (star_of a.now b.now)) own.now stores.old (length (K.sorts asker.old)) (length (K.turns asker.old)))) }
    ensures stores { OnOk result (AreStores (K.sorts asker.new) stores.new) }
    ensures full { IfErr result (λ fault. OnFull fault (MayBeFull (K.path asker.new) (K.sorts asker.new))) }
{
    let first = inhale(scene, own, a, stores, asker)?;
    match first {
        Outcome::Goes => inhale(scene, own, b, stores, asker),
        Outcome::Blocked => Ok(Outcome::Blocked),
        Outcome::Failed(check, span) => Ok(Outcome::Failed(check, span)),
    }
}

/// A formula under a condition.
#[cycle(inhale)]
fn inhale_when<K: Asker>(
    scene: &SymbolScene,
    own: &SymbolScene,
    x: &Expression,
    body: &Formula,
    span: Span,
    stores: &mut Stores,
    asker: &mut K,
) -> Result<Outcome, AskFault>
    requires scene { IsMadeScene (K.sorts asker.old) scene.now }
    requires stores { AreStores (K.sorts asker.old) stores.old }
    requires ready { Ready K.path K.turns K.decisions K.sorts asker.old (begun (take scene.now (when_of x.now body.now span)) own.now stores.old (length (K.sorts asker.old)) (length (K.turns asker.old))) }
    ensures does { IfOk result (λ out. Does K.path K.turns K.decisions K.stands K.ended K.sorts asker.old asker.new (begun (take scene.now (when_of x.now body.now span)) own.now stores.old (length (K.sorts asker.old)) (length (K.turns asker.old))) (λ e. came_at e own.now stores.new out (length (K.sorts asker.new)) (length (K.turns asker.new)))) }
    ensures halts { OnErr result (Halts K.path K.turns K.decisions K.stands K.ended K.sorts asker.old asker.new (begun (take scene.now (when_of x.now body.now span)) own.now stores.old (length (K.sorts asker.old)) (length (K.turns asker.old)))) }
    ensures stores { OnOk result (AreStores (K.sorts asker.new) stores.new) }
    ensures full { IfErr result (λ fault. OnFull fault (MayBeFull (K.path asker.new) (K.sorts asker.new))) }
{
    let v = operand(Reading::Inhaled, scene, own, x, stores, asker)?;
    let told = decide(v, asker)?;
    if !told {
        return Ok(Outcome::Goes);
    }
    inhale(scene, own, body, stores, asker)
}

/// A formula is exhaled, from left to right. What isn't there fails, with the span of the statement where one is given, and else with its own.
#[cycle(exhale)]
pub fn exhale<K: Asker>(
    scene: &SymbolScene,
    own: &SymbolScene,
    check: Check,
    statement: Option<Span>,
    x: &Formula,
    stores: &mut Stores,
    asker: &mut K,
) -> Result<Outcome, AskFault>
    requires scene { IsMadeScene (K.sorts asker.old) scene.now }
    requires stores { AreStores (K.sorts asker.old) stores.old }
    requires ready { Ready K.path K.turns K.decisions K.sorts asker.old (begun (run_given scene.now check statement x.now) own.now stores.old (length (K.sorts asker.old)) (length (K.turns asker.old))) }
    ensures does { IfOk result (λ out. Does K.path K.turns K.decisions K.stands K.ended K.sorts asker.old asker.new (begun (run_given scene.now check statement x.now) own.now stores.old (length (K.sorts asker.old)) (length (K.turns asker.old))) (λ e. came_at e own.now stores.new out (length (K.sorts asker.new)) (length (K.turns asker.new)))) }
    ensures halts { OnErr result (Halts K.path K.turns K.decisions K.stands K.ended K.sorts asker.old asker.new (begun (run_given scene.now check statement x.now) own.now stores.old (length (K.sorts asker.old)) (length (K.turns asker.old)))) }
    ensures stores { OnOk result (AreStores (K.sorts asker.new) stores.new) }
    ensures full { IfErr result (λ fault. OnFull fault (MayBeFull (K.path asker.new) (K.sorts asker.new))) }
{
    match x {
        Formula::Fact(e, span) => exhale_fact(
            scene, own, check, statement, e, *span, stores, asker,
        ),
        Formula::Star(a, b) => exhale_both(
            scene,
            own,
            check,
            statement,
            a.get(),
            b.get(),
            stores,
            asker,
        ),
        Formula::When(e, body, span) => exhale_when(
            scene,
            own,
            check,
            statement,
            e,
            body.get(),
            *span,
            stores,
            asker,
        ),
        Formula::FieldPermission(_, _, _, _, _, _)
        | Formula::ElementPermission(_, _, _, _, _)
        | Formula::Holds(_, _, _, _)
        | Formula::Instance(_, _, _, _, _)
        | Formula::Each(_, _, _, _, _) => Err(AskFault::NoMemory),
    }
}

/// A pure condition.

fn exhale_fact<K: Asker>(
    scene: &SymbolScene,
    own: &SymbolScene,
    check: Check,
    statement: Option<Span>,
    x: &Expression,
    span: Span,
    stores: &mut Stores,
    asker: &mut K,
) -> Result<Outcome, AskFault>
    requires scene { IsMadeScene (K.sorts asker.old) scene.now }
    requires stores { AreStores (K.sorts asker.old) stores.old }
    requires ready { Ready K.path K.turns K.decisions K.sorts asker.old (begun (give scene.now check statement (fact_of x.now span)) own.now stores.old (length (K.sorts asker.old)) (length (K.turns asker.old))) }
    ensures does { IfOk result (λ out. Does K.path K.turns K.decisions K.stands K.ended K.sorts asker.old asker.new (begun (give scene.now check statement (fact_of x.now span)) own.now stores.old (length (K.sorts asker.old)) (length (K.turns asker.old))) (λ e. came_at e own.now stores.new out (length (K.sorts asker.new)) (length (K.turns asker.new)))) }
    ensures halts { OnErr result (Halts K.path K.turns K.decisions K.stands K.ended K.sorts asker.old asker.new (begun (give scene.now check statement (fact_of x.now span)) own.now stores.old (length (K.sorts asker.old)) (length (K.turns asker.old)))) }
    ensures stores { OnOk result (AreStores (K.sorts asker.new) stores.new) }
    ensures full { IfErr result (λ fault. OnFull fault (MayBeFull (K.path asker.new) (K.sorts asker.new))) }
{
    let v = operand(Reading::Exhaled, scene, own, x, stores, asker)?;
    let told = decide(v, asker)?;
    if told {
        return Ok(Outcome::Goes);
    }
    Ok(Outcome::Failed(check, span_or(statement, span)))
}

/// One formula, and then another.
#[cycle(exhale)]
fn exhale_both<K: Asker>(
    scene: &SymbolScene,
    own: &SymbolScene,
    check: Check,
    statement: Option<Span>,
    a: &Formula,
    b: &Formula,
    stores: &mut Stores,
    asker: &mut K,
) -> Result<Outcome, AskFault>
    requires scene { IsMadeScene (K.sorts asker.old) scene.now }
    requires stores { AreStores (K.sorts asker.old) stores.old }
    requires ready { Ready K.path K.turns K.decisions K.sorts asker.old (begun (give scene.now check statement (star_of a.now b.now)) own.now stores.old (length (K.sorts asker.old)) (length (K.turns asker.old))) }
    ensures does { IfOk result (λ out. Does K.path K.turns K.decisions K.stands K.ended K.sorts asker.old asker.new (begun (give scene.now check statement (star_of a.now b.now)) own.now stores.old (length (K.sorts asker.old)) (length (K.turns asker.old))) (λ e. came_at e own.now stores.new out (length (K.sorts asker.new)) (length (K.turns asker.new)))) }
    ensures halts { OnErr result (Halts K.path K.turns K.decisions K.stands K.ended K.sorts asker.old asker.new (begun (give scene.now check statement (star_of a.now b.now)) own.now stores.old (length (K.sorts asker.old)) (length (K.turns asker.old)))) }
    ensures stores { OnOk result (AreStores (K.sorts asker.new) stores.new) }
    ensures full { IfErr result (λ fault. OnFull fault (MayBeFull (K.path asker.new) (K.sorts asker.new))) }
{
    let first = exhale(scene, own, check, statement, a, stores, asker)?;
    match first {
        Outcome::Goes => exhale(scene, own, check, statement, b, stores, asker),
        Outcome::Blocked => Ok(Outcome::Blocked),
        Outcome::Failed(check, span) => Ok(Outcome::Failed(check, span)),
    }
}

/// A formula under a condition.
#[cycle(exhale)]
fn exhale_when<K: Asker>(
    scene: &SymbolScene,
    own: &SymbolScene,
    check: Check,
    statement: Option<Span>,
    x: &Expression,
    body: &Formula,
    span: Span,
    stores: &mut Stores,
    asker: &mut K,
) -> Result<Outcome, AskFault>
    requires scene { IsMadeScene (K.sorts asker.old) scene.now }
    requires stores { AreStores (K.sorts asker.old) stores.old }
    requires ready { Ready K.path K.turns K.decisions K.sorts asker.old (begun (give scene.now check statement (when_of x.now body.now span)) own.now stores.old (length (K.sorts asker.old)) (length (K.turns asker.old))) }
    ensures does { IfOk result (λ out. Does K.path K.turns K.decisions K.stands K.ended K.sorts asker.old asker.new (begun (give scene.now check statement (when_of x.now body.now span)) own.now stores.old (length (K.sorts asker.old)) (length (K.turns asker.old))) (λ e. came_at e own.now stores.new out (length (K.sorts asker.new)) (length (K.turns asker.new)))) }
    ensures halts { OnErr result (Halts K.path K.turns K.decisions K.stands K.ended K.sorts asker.old asker.new (begun (give scene.now check statement (when_of x.now body.now span)) own.now stores.old (length (K.sorts asker.old)) (length (K.turns asker.old)))) }
    ensures stores { OnOk result (AreStores (K.sorts asker.new) stores.new) }
    ensures full { IfErr result (λ fault. OnFull fault (MayBeFull (K.path asker.new) (K.sorts asker.new))) }
{
    let v = operand(Reading::Exhaled, scene, own, x, stores, asker)?;
    let told = decide(v, asker)?;
    if !told {
        return Ok(Outcome::Goes);
    }
    exhale(scene, own, check, statement, body, stores, asker)
}
