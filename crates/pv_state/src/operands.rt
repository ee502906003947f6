//! Operands: values, and differences of two numbers that stand in a comparison.

ghost use Rattle.std.specs.Prelude.{◌≡◌, [], ◌∷◌, IsTrue, not, ◌+ℤ◌, ◌-ℤ◌, IfOk, IfErr, OnOk, OnErr, pos, length, List};
ghost use Rattle.pv_values.specs.declared.value.Value.TheVariants as value;
ghost use Rattle.pv_values.specs.Sames.{same_value};
ghost use Rattle.pv_linear.specs.declared.Sort.{Sort as Sorts};
ghost use Rattle.pv_linear.specs.declared.asker.AskFault.TheVariants.{NoMemory as NoMemoryFault};
ghost use Rattle.pv_linear.specs.Values.{Values, term_value};
ghost use Rattle.pv_linear.specs.Evidence.{Evidence, Under, MayBeFull, OnFull};
ghost use Rattle.pv_linear.specs.Asking.{Asks, Goes};
ghost use Rattle.pv_linear.specs.Keeping.{AreUp};
ghost use Rattle.pv_picks.specs.Plain.Trees.{comparison_of, operation_of};
ghost use Rattle.pv_picks.specs.Formulas.Values.{number_in, truth_in, arithmetic, comparison};
ghost use Rattle.pv_picks.specs.Lazy.Parts.{of_old};
ghost use Rattle.pv_picks.specs.Lazy.Patterns.{Is, Ordered, order_of, shown_of};
ghost use Rattle.pv_state.specs.Parts.{StaysSorted, IsSorted, TellsShown, StopsShown, Does, Halts};
ghost use Rattle.pv_state.specs.Values.{IsMade, IsMadeTruth, IsTerm, value_at, truth_at};
ghost use Rattle.pv_state.specs.States.{AreStores, went_at};
ghost use Rattle.pv_state.specs.Runs.{IsMadeOperand, operand_at, reading_at, begun, run_operation};

use crate::operations::value_of_use;
use crate::questions::{are_same, are_same_numbers, compare, is_true};
use crate::scene::{Stores, SymbolScene};
use crate::values::{SymbolTruth, SymbolValue, term};
use pv_base::Span;
use pv_linear::{AskFault, Asker, Symbol, Term};
use pv_picks::plain::{Comparison, Manner, Operation};
use pv_values::Value;

/// A value; or the difference of two numbers, which is compared without a symbol of its own.
#[derive(Clone, Copy, Drop)]
pub enum Operand {
    One(SymbolValue),
    Difference(Term, Term),
}

/// From where an expression reads: as that of a statement does, as that of a formula that is inhaled, or of one that is exhaled.
#[derive(Clone, Copy, Drop)]
pub enum Reading {
    Body,
    Inhaled,
    Exhaled,
}

impl Reading {
    /// How what stands in `\old` is read there.
    pub fn of_old(self) -> Reading
        ensures old { reading_at result ≡ of_old (reading_at self) }
    {
        match self {
            Reading::Body => Reading::Body,
            Reading::Inhaled | Reading::Exhaled => Reading::Exhaled,
        }
    }
}

impl Operand {
    /// The truth value that it is, and false where it is none.
    pub fn truth(self) -> SymbolTruth
        ensures value { (v : Values) → truth_at v result ≡ truth_in (operand_at v self) }
        ensures made { (made : List Sorts) → IsMadeOperand made self → IsMadeTruth made result }
    {
        match self {
            Operand::One(value) => value.truth(),
            Operand::Difference(_, _) => SymbolTruth::Known(false),
        }
    }

    /// The opposite of the truth value that it is.
    #[tactic(auto, unfolding(crate::specs::Values::value_at, crate::specs::Values::IsMade))]
    pub fn opposite(self) -> Operand
        ensures value { (v : Values) → operand_at v result ≡ value.Truth (not (truth_in (operand_at v self))) }
        ensures made { (made : List Sorts) → IsMadeOperand made self → IsMadeOperand made result }
    {
        Operand::One(SymbolValue::Truth(self.truth().opposite()))
    }

    /// Whether it is a number.
    #[tactic(auto, unfolding(crate::specs::Values::value_at))]
    fn is_number(self) -> bool
        ensures number { IsTrue result → (v : Values) → operand_at v self ≡ value.Number (number_in (operand_at v self)) }
    {
        match self {
            Operand::One(SymbolValue::Number(_)) | Operand::Difference(_, _) => true,
            Operand::One(SymbolValue::Truth(_)) | Operand::One(SymbolValue::Reference(_)) => false,
        }
    }

    /// The number that it is, and 0 where it is none. A difference that stands in no comparison is refused: the static rules make
    /// a value of each.
    pub fn number(self) -> Result<Term, AskFault>
        ensures value { IfOk result (λ t. (v : Values) → term_value v t ≡ number_in (operand_at v self)) }
        ensures made { IfOk result (λ t. (made : List Sorts) → IsMadeOperand made self → IsTerm made t) }
        ensures fault { IfErr result (λ fault. fault ≡ NoMemoryFault) }
    {
        match self {
            Operand::One(value) => Ok(value.number()),
            Operand::Difference(_, _) => Err(AskFault::NoMemory),
        }
    }
}

/// The value of a number that is known.
#[tactic(auto, using(crate::proofs::Sums::constant_at, crate::proofs::Sums::constant_made))]
fn number_value(number: i128) -> Result<SymbolValue, AskFault>
    ensures value { IfOk result (λ x. (v : Values) → value_at v x ≡ value.Number number) }
    ensures made { IfOk result (λ x. (made : List Sorts) → IsMade made x) }
    ensures fault { IfErr result (λ fault. fault ≡ NoMemoryFault) }
{
    let t = term(Symbol::ZERO, number)?;
    Ok(SymbolValue::Number(t))
}

/// The value of null.
#[tactic(auto, unfolding(crate::specs::Values::value_at, crate::specs::Values::IsMade, pv_linear::specs::Sorts::HasSort, pv_linear::specs::Values::number_of))]
fn null_value(number: u128) -> Result<SymbolValue, AskFault>
    ensures value { IfOk result (λ x. (v : Values) → value_at v x ≡ value.Reference number) }
    ensures made { IfOk result (λ x. (made : List Sorts) → IsMade made x) }
    ensures fault { IfErr result (λ fault. fault ≡ NoMemoryFault) }
{
    if number != 0 {
        return Err(AskFault::NoMemory);
    }
    Ok(SymbolValue::Reference(Symbol::ZERO))
}

/// A constant. A number farther from zero than 2^98 and a reference other than null are refused: no program has one.
pub fn constant(value: Value) -> Result<Operand, AskFault>
    ensures value { IfOk result (λ x. (v : Values) → operand_at v x ≡ value) }
    ensures made { IfOk result (λ x. (made : List Sorts) → IsMadeOperand made x) }
    ensures fault { IfErr result (λ fault. fault ≡ NoMemoryFault) }
{
    match value {
        Value::Number(number) => {
            let value = number_value(number)?;
            Ok(Operand::One(value))
        }
        Value::Truth(truth) => Ok(Operand::One(SymbolValue::known(truth))),
        Value::Reference(number) => {
            let value = null_value(number)?;
            Ok(Operand::One(value))
        }
    }
}

/// Two numbers that differ by as much as two operands do. Two differences aren't compared: a literal stands beside each.
#[tactic(auto, using(crate::proofs::Sums::shifted_right, crate::proofs::Sums::shifted_left))]
fn sides(a: Operand, b: Operand) -> Result<(Term, Term), AskFault>
    ensures value { IfOk result (λ p. (v : Values) → number_in (operand_at v a) -ℤ number_in (operand_at v b) ≡ term_value v p.0 -ℤ term_value v p.1) }
    ensures first { IfOk result (λ p. (made : List Sorts) → IsMadeOperand made a → IsMadeOperand made b → IsTerm made p.0) }
    ensures second { IfOk result (λ p. (made : List Sorts) → IsMadeOperand made a → IsMadeOperand made b → IsTerm made p.1) }
    ensures fault { IfErr result (λ fault. fault ≡ NoMemoryFault) }
{
    match a {
        Operand::One(x) => match b {
            Operand::One(y) => Ok((x.number(), y.number())),
            Operand::Difference(l, r) => {
                let t = shifted(r, x.number())?;
                Ok((t, l))
            }
        },
        Operand::Difference(l, r) => match b {
            Operand::One(y) => {
                let t = shifted(r, y.number())?;
                Ok((l, t))
            }
            Operand::Difference(_, _) => Err(AskFault::NoMemory),
        },
    }
}

/// The sum of two numbers of which the second is known. Another is refused.
#[tactic(auto, using(crate::proofs::Sums::sum_known, crate::proofs::Sums::sum_term))]
fn shifted(a: Term, known: Term) -> Result<Term, AskFault>
    ensures value { IfOk result (λ t. (v : Values) → term_value v t ≡ term_value v a +ℤ term_value v known) }
    ensures made { IfOk result (λ t. (made : List Sorts) → IsTerm made a → IsTerm made t) }
    ensures fault { IfErr result (λ fault. fault ≡ NoMemoryFault) }
{
    if known.symbol.0 != 0 {
        return Err(AskFault::NoMemory);
    }
    let plus = sum(a.plus, known.plus)?;
    let t = term(a.symbol, plus)?;
    Ok(t)
}

/// The difference of two numbers of which the second is known. Another is refused.
fn lowered(a: Term, known: Term) -> Result<Term, AskFault>
    ensures value { IfOk result (λ t. (v : Values) → term_value v t ≡ term_value v a -ℤ term_value v known) }
    ensures made { IfOk result (λ t. (made : List Sorts) → IsTerm made a → IsTerm made t) }
    ensures fault { IfErr result (λ fault. fault ≡ NoMemoryFault) }
{
    if known.symbol.0 != 0 {
        return Err(AskFault::NoMemory);
    }
    let opposite = negated(known.plus)?;
    let plus = sum(a.plus, opposite)?;
    let t = term(a.symbol, plus)?;
    Ok(t)
}

/// The opposite of a number. That of -2^127 is refused.
fn negated(a: i128) -> Result<i128, AskFault>
    ensures opposite { IfOk result (λ z. z ≡ pos 0 -ℤ a) }
    ensures fault { IfErr result (λ fault. fault ≡ NoMemoryFault) }
{
    match 0i128.checked_sub(a) {
        Some(opposite) => Ok(opposite),
        None => Err(AskFault::NoMemory),
    }
}

/// The sum of two numbers. One outside of 128 bits is refused.
fn sum(a: i128, b: i128) -> Result<i128, AskFault>
    ensures sum { IfOk result (λ z. z ≡ a +ℤ b) }
    ensures fault { IfErr result (λ fault. fault ≡ NoMemoryFault) }
{
    match a.checked_add(b) {
        Some(sum) => Ok(sum),
        None => Err(AskFault::NoMemory),
    }
}

/// Whether a comparison of two operands holds: one question.
pub(crate) fn compare_operands<K: Asker>(
    order: Comparison,
    a: Operand,
    b: Operand,
    asker: &mut K,
) -> Result<bool, AskFault>
    requires first { IsMadeOperand (K.sorts asker.old) a }
    requires second { IsMadeOperand (K.sorts asker.old) b }
    requires ready { IsSorted K.path K.turns K.decisions K.sorts asker.old }
    ensures asks { OnOk result (Asks K.path K.turns K.decisions K.stands K.ended K.sorts asker.old asker.new) }
    ensures says { IfOk result (λ told. Under K.path K.turns asker.new (λ e. told ≡ comparison (comparison_of order) (number_in (operand_at e.values a)) (number_in (operand_at e.values b)))) }
    ensures tells { OnOk result (TellsShown K.path K.turns K.decisions K.sorts asker.old asker.new (λ e. Ordered (order_of (number_in (operand_at e.values a)) (number_in (operand_at e.values b))) ∷ [])) }
    ensures sorted { OnOk result (StaysSorted K.path K.turns K.decisions K.sorts asker.old asker.new) }
    ensures stops { OnErr result (Goes K.path K.turns K.decisions K.stands K.ended asker.old asker.new) }
    ensures stopped { OnErr result (StopsShown K.path K.turns K.decisions K.sorts asker.old asker.new (λ e. Ordered (order_of (number_in (operand_at e.values a)) (number_in (operand_at e.values b))) ∷ [])) }
    ensures stopped_sorted { OnErr result (StaysSorted K.path K.turns K.decisions K.sorts asker.old asker.new) }
    ensures same_sorts { K.sorts asker.new ≡ K.sorts asker.old }
    ensures full { IfErr result (λ fault. OnFull fault (MayBeFull (K.path asker.new) (K.sorts asker.new))) }
{
    let (l, r) = sides(a, b)?;
    let told = compare(order, l, r, asker)?;
    Ok(told)
}

/// Whether an operand is true. One that is no truth value isn't.
pub(crate) fn decide<K: Asker>(a: Operand, asker: &mut K) -> Result<bool, AskFault>
    requires made { IsMadeOperand (K.sorts asker.old) a }
    requires ready { IsSorted K.path K.turns K.decisions K.sorts asker.old }
    ensures asks { OnOk result (Asks K.path K.turns K.decisions K.stands K.ended K.sorts asker.old asker.new) }
    ensures says { IfOk result (λ told. Under K.path K.turns asker.new (λ e. told ≡ truth_in (operand_at e.values a))) }
    ensures tells { OnOk result (TellsShown K.path K.turns K.decisions K.sorts asker.old asker.new (λ e. Is (truth_in (operand_at e.values a)) ∷ [])) }
    ensures sorted { OnOk result (StaysSorted K.path K.turns K.decisions K.sorts asker.old asker.new) }
    ensures stops { OnErr result (Goes K.path K.turns K.decisions K.stands K.ended asker.old asker.new) }
    ensures stopped { OnErr result (StopsShown K.path K.turns K.decisions K.sorts asker.old asker.new (λ e. Is (truth_in (operand_at e.values a)) ∷ [])) }
    ensures stopped_sorted { OnErr result (StaysSorted K.path K.turns K.decisions K.sorts asker.old asker.new) }
    ensures same_sorts { K.sorts asker.new ≡ K.sorts asker.old }
    ensures full { IfErr result (λ fault. OnFull fault (MayBeFull (K.path asker.new) (K.sorts asker.new))) }
{
    let told = is_true(a.truth(), asker)?;
    Ok(told)
}

/// Whether two operands that are numbers are the same. Others are refused.
fn are_same_sides<K: Asker>(a: Operand, b: Operand, asker: &mut K) -> Result<bool, AskFault>
    requires first { IsMadeOperand (K.sorts asker.old) a }
    requires second { IsMadeOperand (K.sorts asker.old) b }
    requires ready { IsSorted K.path K.turns K.decisions K.sorts asker.old }
    ensures asks { OnOk result (Asks K.path K.turns K.decisions K.stands K.ended K.sorts asker.old asker.new) }
    ensures says { IfOk result (λ told. Under K.path K.turns asker.new (λ e. told ≡ same_value (operand_at e.values a) (operand_at e.values b))) }
    ensures tells { OnOk result (TellsShown K.path K.turns K.decisions K.sorts asker.old asker.new (λ e. shown_of (operand_at e.values a) (operand_at e.values b))) }
    ensures sorted { OnOk result (StaysSorted K.path K.turns K.decisions K.sorts asker.old asker.new) }
    ensures stops { OnErr result (Goes K.path K.turns K.decisions K.stands K.ended asker.old asker.new) }
    ensures stopped { OnErr result (StopsShown K.path K.turns K.decisions K.sorts asker.old asker.new (λ e. shown_of (operand_at e.values a) (operand_at e.values b))) }
    ensures stopped_sorted { OnErr result (StaysSorted K.path K.turns K.decisions K.sorts asker.old asker.new) }
    ensures same_sorts { K.sorts asker.new ≡ K.sorts asker.old }
    ensures full { IfErr result (λ fault. OnFull fault (MayBeFull (K.path asker.new) (K.sorts asker.new))) }
{
    if !a.is_number() || !b.is_number() {
        return Err(AskFault::NoMemory);
    }
    let (l, r) = sides(a, b)?;
    let told = are_same_numbers(l, r, asker)?;
    Ok(told)
}

/// Whether two operands are the same.
pub(crate) fn same_operands<K: Asker>(
    a: Operand,
    b: Operand,
    asker: &mut K,
) -> Result<bool, AskFault>
    requires first { IsMadeOperand (K.sorts asker.old) a }
    requires second { IsMadeOperand (K.sorts asker.old) b }
    requires ready { IsSorted K.path K.turns K.decisions K.sorts asker.old }
    ensures asks { OnOk result (Asks K.path K.turns K.decisions K.stands K.ended K.sorts asker.old asker.new) }
    ensures says { IfOk result (λ told. Under K.path K.turns asker.new (λ e. AreUp (K.sorts asker.new) e.values → told ≡ same_value (operand_at e.values a) (operand_at e.values b))) }
    ensures tells { OnOk result (TellsShown K.path K.turns K.decisions K.sorts asker.old asker.new (λ e. shown_of (operand_at e.values a) (operand_at e.values b))) }
    ensures sorted { OnOk result (StaysSorted K.path K.turns K.decisions K.sorts asker.old asker.new) }
    ensures stops { OnErr result (Goes K.path K.turns K.decisions K.stands K.ended asker.old asker.new) }
    ensures stopped { OnErr result (StopsShown K.path K.turns K.decisions K.sorts asker.old asker.new (λ e. shown_of (operand_at e.values a) (operand_at e.values b))) }
    ensures stopped_sorted { OnErr result (StaysSorted K.path K.turns K.decisions K.sorts asker.old asker.new) }
    ensures same_sorts { K.sorts asker.new ≡ K.sorts asker.old }
    ensures full { IfErr result (λ fault. OnFull fault (MayBeFull (K.path asker.new) (K.sorts asker.new))) }
{
    match a {
        Operand::One(x) => match b {
            Operand::One(y) => {
                let told = are_same(x, y, asker)?;
                Ok(told)
            }
            Operand::Difference(_, _) => {
                let told = are_same_sides(a, b, asker)?;
                Ok(told)
            }
        },
        Operand::Difference(_, _) => {
            let told = are_same_sides(a, b, asker)?;
            Ok(told)
        }
    }
}

/// What an operation that is worked out gives. One of two numbers that aren't known is refused: the static rules have a literal
/// stand beside `+` and behind `-`, or the difference is compared.
#[tactic(auto, unfolding(crate::specs::Values::value_at, crate::specs::Values::IsMade))]
fn plain(operation: Operation, a: Term, b: Term) -> Result<Operand, AskFault>
    ensures value { IfOk result (λ x. (v : Values) → operand_at v x ≡ value.Number (arithmetic (operation_of operation) (term_value v a) (term_value v b))) }
    ensures made { IfOk result (λ x. (made : List Sorts) → IsTerm made a → IsTerm made b → IsMadeOperand made x) }
    ensures fault { IfErr result (λ fault. fault ≡ NoMemoryFault) }
{
    match operation {
        Operation::Plus => {
            let sum = plain_sum(a, b)?;
            Ok(Operand::One(SymbolValue::Number(sum)))
        }
        Operation::Minus => {
            if b.symbol.0 != 0 {
                return Ok(Operand::Difference(a, b));
            }
            let difference = lowered(a, b)?;
            Ok(Operand::One(SymbolValue::Number(difference)))
        }
        Operation::Times => Err(AskFault::NoMemory),
    }
}

/// The sum of two numbers of which one is known.
#[tactic(auto, using(crate::proofs::Sums::plus_turned))]
fn plain_sum(a: Term, b: Term) -> Result<Term, AskFault>
    ensures value { IfOk result (λ t. (v : Values) → term_value v t ≡ term_value v a +ℤ term_value v b) }
    ensures made { IfOk result (λ t. (made : List Sorts) → IsTerm made a → IsTerm made b → IsTerm made t) }
    ensures fault { IfErr result (λ fault. fault ≡ NoMemoryFault) }
{
    if b.symbol.0 == 0 {
        let sum = shifted(a, b)?;
        return Ok(sum);
    }
    let sum = shifted(b, a)?;
    Ok(sum)
}

/// What an operation gives.
pub(crate) fn compute<K: Asker>(
    manner: Manner,
    operation: Operation,
    a: Operand,
    b: Operand,
    span: Span,
    own: &SymbolScene,
    stores: &mut Stores,
    asker: &mut K,
) -> Result<Operand, AskFault>
    requires a { IsMadeOperand (K.sorts asker.old) a }
    requires b { IsMadeOperand (K.sorts asker.old) b }
    requires stores { AreStores (K.sorts asker.old) stores.old }
    requires ready { IsSorted K.path K.turns K.decisions K.sorts asker.old }
    ensures does { IfOk result (λ x. Does K.path K.turns K.decisions K.stands K.ended K.sorts asker.old asker.new (begun (run_operation manner operation a b span) own.now stores.old (length (K.sorts asker.old)) (length (K.turns asker.old))) (λ e. went_at e own.now stores.new (operand_at e.values x) (length (K.sorts asker.new)) (length (K.turns asker.new)))) }
    ensures halts { OnErr result (Halts K.path K.turns K.decisions K.stands K.ended K.sorts asker.old asker.new (begun (run_operation manner operation a b span) own.now stores.old (length (K.sorts asker.old)) (length (K.turns asker.old)))) }
    ensures made { IfOk result (λ x. IsMadeOperand (K.sorts asker.new) x) }
    ensures stores { OnOk result (AreStores (K.sorts asker.new) stores.new) }
    ensures full { IfErr result (λ fault. OnFull fault (MayBeFull (K.path asker.new) (K.sorts asker.new))) }
{
    let l = a.number()?;
    let r = b.number()?;
    match manner {
        Manner::Plain => {
            let x = plain(operation, l, r)?;
            Ok(x)
        }
        Manner::Tabled => {
            let t = value_of_use(operation, l, r, own, stores, asker)?;
            Ok(Operand::One(SymbolValue::Number(t)))
        }
    }
}
