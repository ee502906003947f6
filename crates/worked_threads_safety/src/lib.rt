//! Witnesses that soundness speaks of threads, blocks, messages and recursive predicates: small worked programs on which no evidence makes
//! the judge fail, and two that aren't safe, on which some does. Each function proves its clauses and answers nothing.
#![tactic(auto)]

ghost use Rattle.worked_threads_safety.specs.Verified.{DividedIsVerified, HandedIsVerified, ListIsVerified, PostedIsVerified, RelayIsVerified};
ghost use Rattle.worked_threads_safety.specs.Verified.{DividedPasses, HandedPasses, ListPasses, PostedPasses, RelayPasses};
ghost use Rattle.worked_threads_safety.specs.Runs.{FieldIsDivided, FieldIsRelayed, FieldIsSent, ListIsGoneThrough, LockIsHandedOn};
ghost use Rattle.worked_threads_safety.specs.Wrong.{MembersRace, MembersAreNotSafe, MembersAreNotVerified};
ghost use Rattle.worked_threads_safety.specs.Wrong.{OverwrittenDisagrees, OverwrittenIsNotVerified};

/// An object whose lock goes from one thread to another: no evidence makes the judge fail; the program is well formed, so no
/// interleaving goes wrong, from whichever start; and it has a start. In a run from it the forked thread waits until the main
/// thread gives the lock, and both come to their ends.
pub fn a_lock_is_handed_on()
    ensures verified { HandedIsVerified }
    ensures passes { HandedPasses }
    ensures runs { LockIsHandedOn }
{}

/// A par block whose first member hands a field to the second one at a barrier: no evidence makes the judge fail, no interleaving
/// goes wrong, and a run from a start comes to its end.
pub fn a_field_is_relayed()
    ensures verified { RelayIsVerified }
    ensures passes { RelayPasses }
    ensures runs { FieldIsRelayed }
{}

/// A counted loop whose first member sends a field to the second one: no evidence makes the judge fail, no interleaving goes wrong,
/// the loop that is run freely ends in the heap of its ordered run, and a run from a start comes to its end.
pub fn a_field_is_sent()
    ensures verified { PostedIsVerified }
    ensures passes { PostedPasses }
    ensures runs { FieldIsSent }
{}

/// A par block whose members read one field, with half of it each, and a write behind it: no evidence makes the judge fail, no
/// interleaving goes wrong, and a run from a start comes to its end.
pub fn a_field_is_divided()
    ensures verified { DividedIsVerified }
    ensures passes { DividedPasses }
    ensures runs { FieldIsDivided }
{}

/// A list that is gone through by a recursive predicate and a recursive method: no evidence makes the judge fail, no run goes wrong,
/// and one from a start counts both nodes up and comes to its end.
pub fn a_list_is_gone_through()
    ensures verified { ListIsVerified }
    ensures passes { ListPasses }
    ensures runs { ListIsGoneThrough }
{}

/// Two members of a par block come to stand before writes of one field, so the program isn't safe. It is well formed; so by soundness
/// some evidence makes the judge fail.
pub fn racing_members_are_not_verified()
    ensures race { MembersRace }
    ensures wrong { MembersAreNotSafe }
    ensures refused { MembersAreNotVerified }
{}

/// A counted loop whose members write one field, each another value, doesn't end alike freely and in order. The program is well
/// formed; so by loop agreement some evidence makes the judge fail.
pub fn overwriting_members_are_not_verified()
    ensures disagree { OverwrittenDisagrees }
    ensures refused { OverwrittenIsNotVerified }
{}
