//! Laws of accesses, `assert`, `fold` and the heads of loops: in a world that is accounted for such a step isn't wrong, and keeps
//! the account. Each law is a function that proves its clause and answers nothing.
#![tactic(auto)]

ghost use Rattle.account_accesses.specs.Statements.{ReachedWorldsSupport, ReadKeeps, WriteKeeps, LengthKeeps, AssertKeeps, FoldKeeps, LoopEntryKeeps, LoopKeepKeeps, NoRace};

/// Each world that a verified program reaches supports the laws of labels: it is well typed, its heap has no negative length, each
/// frame has just the values that its tasks take, and in each such heap predicates can be taken in.
pub fn reached_worlds_support()
    ensures { ReachedWorldsSupport }
{}

/// A read isn't wrong, and keeps the account.
pub fn read_keeps()
    ensures { ReadKeeps }
{}

/// A write isn't wrong, and keeps the account.
pub fn write_keeps()
    ensures { WriteKeeps }
{}

/// The length of an array isn't wrong, and keeps the account.
pub fn length_keeps()
    ensures { LengthKeeps }
{}

/// An `assert` isn't wrong, and keeps the account.
pub fn assert_keeps()
    ensures { AssertKeeps }
{}

/// A `fold` isn't wrong, and keeps the account.
pub fn fold_keeps()
    ensures { FoldKeeps }
{}

/// Where a loop begins, its invariant is met, and the account is kept.
pub fn loop_entry_keeps()
    ensures { LoopEntryKeeps }
{}

/// Where a loop goes back to its head, its invariant is met, and the account is kept.
pub fn loop_keep_keeps()
    ensures { LoopKeepKeeps }
{}

/// No two threads of a world that is accounted for race.
pub fn no_race()
    ensures { NoRace }
{}
