//! Laws of the steps of blocks in an accounted world: sending and receiving, barriers, and the beginning and the end of members. Each
//! is a function that proves its clause and answers nothing.
#![tactic(auto)]

ghost use Rattle.account_blocks.specs.Statements.{SendsKeep, ReceivesKeep, ArrivalsKeep, EndsKeep, ClosesKeep, LeavesKeep};

/// A member that stands at a send isn't wrong there, and the world after the step is accounted for: what the message's formula asks for
/// lies at the receiver.
pub fn sends_keep_the_account()
    ensures { SendsKeep }
{}

/// A member that stands at a receive waits, or isn't wrong and takes what lies for it, and the world after the step is accounted for.
pub fn receives_keep_the_account()
    ensures { ReceivesKeep }
{}

/// A member that arrives at a barrier isn't wrong there, and the world after the step is accounted for: it has left what the barrier
/// asks of it.
pub fn arrivals_keep_the_account()
    ensures { ArrivalsKeep }
{}

/// A member that stands at the end of its body isn't wrong there, and the world after it has ended is accounted for: it has left what
/// the postcondition of its block asks of it.
pub fn ends_of_members_keep_the_account()
    ensures { EndsKeep }
{}

/// A thread that waits for the members of a block waits, or isn't wrong and goes on with what all members left, and the world after the
/// step is accounted for.
pub fn closes_keep_the_account()
    ensures { ClosesKeep }
{}

/// A member that stands where it leaves a barrier waits for the others, or isn't wrong and all members go on, and the world after the
/// step is accounted for: what all left for the barrier suffices for what it gives to each.
pub fn leaves_keep_the_account()
    ensures { LeavesKeep }
{}
