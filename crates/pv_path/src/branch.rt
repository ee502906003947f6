//! Decisions, and what is open of them.

ghost use Rattle.std.specs.Prelude.{◌≡◌, ◌<◌, ◌+◌, ◌≤◌, ◌^◌, IfNone, IfSome, IfOk, OnOk, length, take, [], ◌∷◌, ◌++◌, slice_get, Some, None};
ghost use Rattle.pv_path.specs.Branches.{turn_number, turned_over, branch_literals, branch_turns, AllClosed, IsNextSide};
ghost use Rattle.pv_path.specs.Standing.{span_of};

use pv_base::NoMemory;
use pv_linear::Literal;
use std::alloc::Global;

/// One of the three turns. A path takes them in this order.
#[derive(Clone, Copy, PartialEq, Eq, Debug, Drop)]
pub enum Turn {
    First,
    Second,
    Third,
}

/// A decision. `Open`: a literal that was undecided when it was asked, and whose opposite is still to be walked. `Closed`: one
/// whose opposite was walked. `Turned`: a turn; the later ones are still to be walked.
#[derive(Clone, Copy, Debug, Drop)]
pub enum Branch {
    Open(Literal),
    Closed(Literal),
    Turned(Turn),
}

/// Where a path is turned over, and the decision that stands there then.
#[derive(Clone, Copy, Debug, Drop)]
pub struct Side {
    pub place: usize,
    pub other: Branch,
}

impl Turn {
    /// The number of the turn: 0, 1 or 2.
    pub fn number(self) -> u32
        ensures number { result ≡ turn_number self }
        ensures below { result < 3 }
    {
        match self {
            Turn::First => 0,
            Turn::Second => 1,
            Turn::Third => 2,
        }
    }
}

impl Branch {
    /// The decision on its next side, where it has an open one.
    pub fn turned_over(self) -> Option<Branch>
        requires { span_of (branch_literals (self ∷ [])) ≤ 2 ^ 100 }
        ensures { result ≡ turned_over self }
    {
        match self {
            Branch::Open(literal) => Some(Branch::Closed(literal.opposite())),
            Branch::Turned(Turn::First) => Some(Branch::Turned(Turn::Second)),
            Branch::Turned(Turn::Second) => Some(Branch::Turned(Turn::Third)),
            Branch::Closed(_) | Branch::Turned(Turn::Third) => None,
        }
    }
}

/// The turn with this number among the decisions, counted from 0, if there are so many.
pub fn turn_at(branches: &[Branch], at: usize) -> Option<Turn>
    ensures none { IfNone result (slice_get (branch_turns branches.now) at ≡ None) }
    ensures some { IfSome result (λ turn. slice_get (branch_turns branches.now) at ≡ Some (turn_number turn)) }
{
    let mut before = at;
    for branch in branches {
        if let Branch::Turned(turn) = branch {
            if before == 0 {
                return Some(*turn);
            }
            before -= 1;
        }
    }
    None
}

/// One more turn, where the decision is one.
fn add_turn(turns: &mut Vec<u32>, branch: Branch) -> Result<(), NoMemory>
    ensures { OnOk result (turns.new.items ≡ turns.old.items ++ branch_turns (branch ∷ [])) }
{
    match branch {
        Branch::Open(_) | Branch::Closed(_) => Ok(()),
        Branch::Turned(turn) => {
            turns.push(turn.number())?;
            Ok(())
        }
    }
}

/// The turns among the decisions, by their numbers.
pub fn turns_of(alloc: Global, branches: &[Branch]) -> Result<Vec<u32>, NoMemory>
    ensures { IfOk result (λ turns. turns.items ≡ branch_turns branches.now) }
{
    let mut turns = Vec::new(alloc);
    for branch in branches {
        add_turn(&mut turns, *branch)?;
    }
    Ok(turns)
}

/// How many literals there are among the decisions.
pub fn count_literals(branches: &[Branch]) -> usize
    ensures { result ≡ length (branch_literals branches.now) }
{
    let mut count: usize = 0;
    for branch in branches {
        match branch {
            Branch::Open(_) | Branch::Closed(_) => count += 1,
            Branch::Turned(_) => {}
        }
    }
    count
}

/// The last decision that has an open side, on its next side: none exactly where no side is open.
pub fn next_side(branches: &[Branch]) -> Option<Side>
    requires { span_of (branch_literals branches.now) ≤ 2 ^ 100 }
    ensures none { IfNone result (AllClosed branches.now) }
    ensures some { IfSome result (λ side. IsNextSide branches.now side.place side.other) }
{
    for place in (0..branches.len()).rev() {
        if let Some(other) = branches[place].turned_over() {
            return Some(Side { place, other });
        }
    }
    None
}

/// Puts a member at a place, and drops what stands behind it.
pub fn put_last<T: Copy + Drop>(items: &mut Vec<T>, place: usize, item: T)
    requires { place < length items.old.items }
    ensures { items.new.items ≡ take place items.old.items ++ item ∷ [] }
{
    items.truncate(place + 1);
    items[place] = item;
}

/// Leaves the first literals, and behind them that of the decision, if it has one.
pub fn put_literal(literals: &mut Vec<Literal>, count: usize, last: Branch)
    requires { count + length (branch_literals (last ∷ [])) ≤ length literals.old.items }
    ensures { literals.new.items ≡ take count literals.old.items ++ branch_literals (last ∷ []) }
{
    match last {
        Branch::Open(literal) | Branch::Closed(literal) => put_last(literals, count, literal),
        Branch::Turned(_) => literals.truncate(count),
    }
}
