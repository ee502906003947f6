//! The law of the opening of a par block or counted loop in an accounted world. It is a function that proves its clause and answers
//! nothing.
#![tactic(auto)]

ghost use Rattle.account_opening.specs.Statements.{OpeningsKeep};

/// A thread that stands at the opening of a block isn't wrong there, and the world after the step is accounted for: what the
/// precondition of all positions asks for is dealt to the members, and the thread waits for them.
pub fn openings_keep_the_account()
    ensures { OpeningsKeep }
{}
