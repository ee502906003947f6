//! Labels of threads and locks in the proof of soundness: in a world that is accounted for, a step at which a lock or a thread
//! changes isn't wrong, and leads to a world that is. Each law is a function that proves its clause and answers nothing.
#![tactic(auto)]

ghost use Rattle.account_threads.specs.Statements.{UnlocksKeep, LocksKeep, CommitsKeep, ForksKeep, JoinsKeep, RunEndsKeep, InvariantsAreTakenIn, RunsAreBare};

/// In an accounted world an unlock isn't wrong: what the lock invariant asks for goes from the thread to the lock.
pub fn unlocks_keep_the_account()
    ensures { UnlocksKeep }
{}

/// In an accounted world a lock isn't wrong: it waits, or what the free lock guards goes to the thread.
pub fn locks_keep_the_account()
    ensures { LocksKeep }
{}

/// In an accounted world a commit isn't wrong: what the lock invariant asks for goes from the thread to the lock.
pub fn commits_keep_the_account()
    ensures { CommitsKeep }
{}

/// In an accounted world a fork isn't wrong: what the precondition of `run` asks for goes to a new thread.
pub fn forks_keep_the_account()
    ensures { ForksKeep }
{}

/// In an accounted world a join isn't wrong: it waits, or what the ended `run` left goes to the thread.
pub fn joins_keep_the_account()
    ensures { JoinsKeep }
{}

/// In an accounted world the end of a `run` isn't wrong: what its postcondition asks for stays for the thread that joins.
pub fn ends_of_runs_keep_the_account()
    ensures { RunEndsKeep }
{}

/// The lock invariants of a program that is verified throughout can be taken in where nothing is held.
pub fn invariants_are_taken_in()
    ensures { InvariantsAreTakenIn }
{}

/// In a program that is verified throughout each `run` is bare, and its contract speaks of its object alone.
pub fn runs_are_bare()
    ensures { RunsAreBare }
{}
