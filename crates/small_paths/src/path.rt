//! The path and its open sides.

ghost use Rattle.pv_diff.specs.Limits.{too_many};
ghost use Rattle.std.specs.Prelude.{◌≡◌, ◌∷◌, [], ◌++◌, ◌≤◌, ◌<◌, ◌^◌, IfOk, IfNone, IfSome, OnOk, IsTrue, ◌↔◌, false, length, ◌⊎◌};
ghost use Rattle.pv_linear.specs.Values.{Values, values_of};
ghost use Rattle.pv_linear.specs.Sorting.{AreSortsApart};
ghost use Rattle.pv_linear.specs.Literal.{IsBounded, Holds, Meets, opposite, bound_of_all};
ghost use Rattle.small_paths.specs.Asking.{Asks, Under};
ghost use Rattle.small_paths.specs.Parts.{On, Off, literal_in, Agrees, Stands, literal_of, literals_of, decision_bound, decisions_bound, open_side, open_sides};

use crate::asker::Asker;
use crate::{Decision, Difference};
use pv_base::NoMemory;
use pv_diff::{Solved, satisfy};
use pv_linear::{Assignment, Literal};
use std::alloc::Global;

/// A path through the cases of a run.
#[derive(Drop)]
pub struct Path {
    alloc: Global,
    pub decisions: Vec<Decision>,
    ghost bounded: { decisions_bound decisions.items ≤ 2 ^ 100 },
}

/// How the search goes on.
#[derive(Clone, Copy, Debug, PartialEq, Eq, Drop)]
pub enum Next {
    /// Another path is to be walked.
    More,
    /// No side is open.
    Done,
}

/// So many undecided questions may stand on one path; one more counts as want of memory.
const MOST_DECISIONS: usize = 1048574;

fn literal_of(d: &Difference) -> Literal
    ensures { result ≡ literal_of d.now }
{
    Literal::AtMost(d.x, d.y, d.bound)
}

/// The other answer to the question.
fn opposite_of(d: &Difference) -> Difference
    requires { IsBounded (2 ^ 126) (literal_of d.now) }
    ensures { literal_of result ≡ opposite (literal_of d.now) }
{
    Difference {
        x: d.y,
        y: d.x,
        bound: -d.bound - 1,
    }
}

/// What was answered.
fn answered(d: &Decision) -> Difference
    ensures { literal_of result ≡ literal_in d.now }
{
    match d {
        Decision::Open(q) => *q,
        Decision::Closed(q) => *q,
    }
}

fn is_same(a: &Difference, b: &Difference) -> bool
    ensures { IsTrue result ↔ (literal_of a.now ≡ literal_of b.now) }
{
    a.x.0 == b.x.0 && a.y.0 == b.y.0 && a.bound == b.bound
}

/// The literals of the decisions, and one more.
fn literals_with(
    alloc: Global,
    decisions: &[Decision],
    last: &Difference,
) -> Result<Vec<Literal>, NoMemory>
    ensures { IfOk result (λ literals. literals.items ≡ literals_of decisions.now ++ literal_of last.now ∷ []) }
{
    let mut literals = literals_in(alloc, decisions)?;
    literals.push(literal_of(last))?;
    Ok(literals)
}

fn literals_in(alloc: Global, decisions: &[Decision]) -> Result<Vec<Literal>, NoMemory>
    ensures { IfOk result (λ literals. literals.items ≡ literals_of decisions.now) }
{
    let mut literals = Vec::new(alloc);
    for d in decisions {
        literals.push(literal_of(&answered(d)))?;
    }
    Ok(literals)
}

/// Whether some values meet the literals.
fn can_be_met(alloc: Global, literals: &[Literal]) -> Result<bool, NoMemory>
    requires sorts { AreSortsApart literals.now }
    requires few { length literals.now < too_many }
    requires bounds { bound_of_all literals.now ≤ 2 ^ 100 }
    ensures { IfOk result (λ told. told ≡ false → (v : Values) → Meets v literals.now → ⊥) }
{
    match satisfy(alloc, literals)? {
        Solved::Yes(_) => Ok(true),
        Solved::No(_) => Ok(false),
    }
}

/// Values that meet the literals, if there are any.
fn values_for(alloc: Global, literals: &[Literal]) -> Result<Option<Assignment>, NoMemory>
    requires sorts { AreSortsApart literals.now }
    requires few { length literals.now < too_many }
    requires bounds { bound_of_all literals.now ≤ 2 ^ 100 }
    ensures some { IfOk result (λ found. IfSome found (λ numbers. Meets (values_of numbers) literals.now)) }
    ensures none { IfOk result (λ found. IfNone found ((v : Values) → Meets v literals.now → ⊥)) }
{
    match satisfy(alloc, literals)? {
        Solved::Yes(numbers) => Ok(Some(numbers)),
        Solved::No(_) => Ok(None),
    }
}

/// The answer that the decisions have themselves.
fn known(decisions: &[Decision], question: &Difference) -> Option<bool>
    requires { IsBounded (2 ^ 126) (literal_of question.now) }
    ensures { IfSome result (λ told. (v : Values) → Agrees v decisions.now → IsTrue told ↔ Holds v (literal_of question.now)) }
{
    let other = opposite_of(question);
    for d in decisions {
        let answer = answered(d);
        if is_same(&answer, question) {
            return Some(true);
        }
        if is_same(&answer, &other) {
            return Some(false);
        }
    }
    None
}

impl Path {
    /// Nothing is decided, and everything stands.
    pub fn new(alloc: Global) -> Self
        ensures stands { (v : Values) → Stands v result.decisions.items }
    {
        Path {
            alloc,
            decisions: Vec::new(alloc),
        }
    }

    /// Whether some values follow the path on which the difference holds.
    fn is_possible(&self, question: &Difference) -> Result<bool, NoMemory>
        requires { IsBounded (2 ^ 100) (literal_of question.now) }
        ensures { IfOk result (λ told. told ≡ false → (v : Values) → Agrees v self.now.decisions.items → Holds v (literal_of question.now) → ⊥) }
    {
        if self.decisions.len() > MOST_DECISIONS {
            return Err(NoMemory);
        }
        let literals = literals_with(self.alloc, &self.decisions, question)?;
        let told = can_be_met(self.alloc, &literals)?;
        Ok(told)
    }

    /// One more decision, whose other side is open.
    fn decide(&mut self, question: Difference) -> Result<(), NoMemory>
        requires bound { IsBounded (2 ^ 100) (literal_of question) }
        requires opposite { IsBounded (2 ^ 100) (opposite (literal_of question)) }
        ensures agrees { OnOk result ((v : Values) → Agrees v self.new.decisions.items → Agrees v self.old.decisions.items) }
        ensures holds { OnOk result ((v : Values) → Agrees v self.new.decisions.items → Holds v (literal_of question)) }
        ensures stands { OnOk result ((v : Values) → Stands v self.old.decisions.items → Stands v self.new.decisions.items) }
    {
        self.decisions.push(Decision::Open(question))?;
        Ok(())
    }

    /// Values that follow the path, if there are any.
    pub fn witness(&self) -> Result<Option<Assignment>, NoMemory>
        ensures some { IfOk result (λ found. IfSome found (λ numbers. Agrees (values_of numbers) self.now.decisions.items)) }
        ensures none { IfOk result (λ found. IfNone found ((v : Values) → Agrees v self.now.decisions.items → ⊥)) }
    {
        if self.decisions.len() > MOST_DECISIONS {
            return Err(NoMemory);
        }
        let literals = literals_in(self.alloc, &self.decisions)?;
        let found = values_for(self.alloc, &literals)?;
        match found {
            Some(numbers) => Ok(Some(numbers)),
            None => Ok(None),
        }
    }

    /// Ends the path and goes to the next one: the last decision with an open side is turned over, those before it stay.
    /// Each call takes an open side away, so that the search goes on only while there are some.
    pub fn next_path(&mut self) -> Next
        ensures more { result ≡ Next.More → (v : Values) → Stands v self.old.decisions.items → Agrees v self.old.decisions.items ⊎ Stands v self.new.decisions.items }
        ensures done { result ≡ Next.Done → (v : Values) → Stands v self.old.decisions.items → Agrees v self.old.decisions.items }
        ensures fewer { result ≡ Next.More → open_sides self.new.decisions.items < open_sides self.old.decisions.items }
    {
        turn_over_last(&mut self.decisions)
    }
}

/// The other side of a decision, where it is open.
fn turned_over(d: Decision) -> Option<Decision>
    requires { decision_bound d ≤ 2 ^ 100 }
    ensures none { IfNone result ((v : Values) → Off v d → ⊥) }
    ensures some { IfSome result (λ other. (v : Values) → Off v d → On v other) }
    ensures bound { IfSome result (λ other. decision_bound other ≤ decision_bound d) }
    ensures open { IfSome result (λ other. open_side other < open_side d) }
{
    match d {
        Decision::Open(question) => Some(Decision::Closed(opposite_of(&question))),
        Decision::Closed(_) => None,
    }
}

/// Turns over the last decision that has an open side, and drops those after it.
fn turn_over_last(decisions: &mut Vec<Decision>) -> Next
    requires { decisions_bound decisions.old.items ≤ 2 ^ 100 }
    ensures more { result ≡ Next.More → (v : Values) → Stands v decisions.old.items → Agrees v decisions.old.items ⊎ Stands v decisions.new.items }
    ensures done { result ≡ Next.Done → (v : Values) → Stands v decisions.old.items → Agrees v decisions.old.items }
    ensures fewer { result ≡ Next.More → open_sides decisions.new.items < open_sides decisions.old.items }
    ensures bound { decisions_bound decisions.new.items ≤ 2 ^ 100 }
{
    while let Some(last) = decisions.pop() {
        if let Some(other) = turned_over(last) {
            match decisions.push(other) {
                Ok(()) => return Next::More,
                Err(_) => unreachable!(),
            }
        }
    }
    Next::Done
}

impl Asker for Path {
    ghost use Rattle.small_paths.specs.Parts.{Agrees, Stands};

    ghost follows = { λ p v. Agrees v p.decisions.items };

    ghost stands = { λ p v. Stands v p.decisions.items };

    fn ask(&mut self, question: Difference) -> Result<bool, NoMemory> {
        if let Some(told) = known(&self.decisions, &question) {
            return Ok(told);
        }
        if !self.is_possible(&question)? {
            return Ok(false);
        }
        if !self.is_possible(&opposite_of(&question))? {
            return Ok(true);
        }
        self.decide(question)?;
        Ok(true)
    }
}
