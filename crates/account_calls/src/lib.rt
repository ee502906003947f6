//! Calls, returns and what is new, in the account of the proof of soundness: each law is a function that proves its clause and
//! answers nothing.
#![tactic(auto)]

ghost use Rattle.account_calls.specs.Statements.{CallsKeep, ReturnsKeep, EntryEndsKeep, NewObjectsKeep, NewArraysKeep, StartsAreAccounted};

/// In an accounted world a call isn't wrong: its precondition is met, and the world after it is accounted for.
pub fn calls_keep_the_account()
    ensures { CallsKeep }
{}

/// In an accounted world a return to a caller isn't wrong: the postcondition is met, and the world after it is accounted for.
pub fn returns_keep_the_account()
    ensures { ReturnsKeep }
{}

/// In an accounted world the end of the method in which a run began isn't wrong, and the world after it is accounted for.
pub fn ends_of_entries_keep_the_account()
    ensures { EntryEndsKeep }
{}

/// In an accounted world a new object isn't wrong, and the world after it is accounted for: the thread owns its fields and its tokens.
pub fn new_objects_keep_the_account()
    ensures { NewObjectsKeep }
{}

/// In an accounted world a new array isn't wrong: its length isn't negative, and the world after it is accounted for.
pub fn new_arrays_keep_the_account()
    ensures { NewArraysKeep }
{}

/// The first world of a start of a verified program is accounted for.
pub fn starts_are_accounted_for()
    ensures { StartsAreAccounted }
{}
