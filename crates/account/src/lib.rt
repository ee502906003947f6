//! The account of the proof of soundness: in a world of the machine, who owns what, and for each frame a run of the judge that never
//! fails over what is left of it. Each law is a function that proves its clause and answers nothing.
#![tactic(auto)]

ghost use Rattle.account.specs.Statements.{LocalWorkKeepsRuns, CallsBegin, PredicatesAreTaken};
ghost use Rattle.account.specs.Grounds.{FormulasAreGood, HeapsFit, PredicatesAreTakenIn};

/// Local work keeps the run of a frame, with no more than it had.
pub fn local_work_keeps_runs()
    ensures { LocalWorkKeepsRuns }
{}

/// Where the judge never fails on the unit of a method, a call whose precondition is owned has a run.
pub fn calls_begin()
    ensures { CallsBegin }
{}

/// Where the judge never fails on the predicates of a program, the body of each can be taken in where nothing is held.
pub fn predicates_are_taken()
    ensures { PredicatesAreTaken }
{}

/// A well typed formula is one of which the laws of formulas speak.
pub fn well_typed_formulas_are_good()
    ensures { FormulasAreGood }
{}

/// The heap of each world that a well typed program reaches fits: its values are typed, nothing stands beyond its count, and no
/// length is negative.
pub fn reached_heaps_fit()
    ensures { HeapsFit }
{}

/// The predicates of a program that is verified throughout can be taken in where nothing is held.
pub fn predicates_are_taken_in()
    ensures { PredicatesAreTakenIn }
{}
