//! What the judge comes to on worked programs: each function proves its clause by computing, and answers nothing.
#![tactic(auto)]

ghost use Rattle.worked_judgements.specs.Cases.{Counting, Writing, Aliasing, Invariants, Shifting, Copying, Adding, Reading, Keeping, Folding, Filling, Showing, Testing};
ghost use Rattle.worked_judgements.specs.Marks.{Marks};
ghost use Rattle.worked_judgements.specs.OldLengths.{OldLengths};
ghost use Rattle.worked_judgements.specs.Patterns.{Parting, PartingUses};
ghost use Rattle.worked_judgements.specs.Undeclared.{Undeclared};

/// A field that is counted on, and the same by two where one is promised.
pub fn counting()
    ensures { Counting }
{}

/// A write with half a permission.
pub fn writing()
    ensures { Writing }
{}

/// Two parameters that may be one object.
pub fn aliasing()
    ensures { Aliasing }
{}

/// Lock invariants.
pub fn invariants()
    ensures { Invariants }
{}

/// Members that hand elements on at a barrier.
pub fn shifting()
    ensures { Shifting }
{}

/// A counted loop with a message.
pub fn copying()
    ensures { Copying }
{}

/// Sums whose values come from a table.
pub fn adding()
    ensures { Adding }
{}

/// A fact on every element of a range.
pub fn reading()
    ensures { Reading }
{}

/// A loop whose invariant keeps too little for the call in it, or enough.
pub fn keeping()
    ensures { Keeping }
{}

/// A predicate that is unfolded and folded.
pub fn folding()
    ensures { Folding }
{}

/// Elements that members write, and a range that is split.
pub fn filling()
    ensures { Filling }
{}

/// Patterns of evidence on two parameters that may be one object.
pub fn showing()
    ensures { Showing }
{}

/// A fact that is tested at named positions.
pub fn testing()
    ensures { Testing }
{}

/// Evidence on whose patterns the order of bounds, a repeated use and the truth of a test tell apart what they decide.
pub fn parting()
    ensures { Parting }
{}

/// Evidence on whose patterns the order of a use's arguments, a new array and the ends of one event tell apart what they decide.
pub fn parting_uses()
    ensures { PartingUses }
{}

/// A postcondition that speaks of the old length of a new array: no evidence makes the judge fail, and the return goes.
pub fn old_lengths()
    ensures { OldLengths }
{}

/// What is looked at around a mark.
pub fn marks()
    ensures { Marks }
{}

/// What isn't declared fails.
pub fn undeclared()
    ensures { Undeclared }
{}
