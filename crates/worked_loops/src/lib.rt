//! Laws of counted loops, tried on worked programs: each is a function that proves its clauses and answers nothing.
#![tactic(auto)]

ghost use Rattle.pv_picks.specs.Machine.Safety.{IsSafe};
ghost use Rattle.worked_programs.specs.CoreThreads.{copying};
ghost use Rattle.worked_runs.specs.Overwriting as overwriting;
ghost use Rattle.machine_loops.specs.Calm.{HasQuietLoops};

/// The loops of both programs are quiet.
pub fn worked_loops_are_quiet()
    ensures first { HasQuietLoops copying }
    ensures second { HasQuietLoops overwriting.program }
{}

/// A program whose loop ends otherwise in another order isn't safe.
pub fn members_that_overwrite_are_not_safe()
    ensures { IsSafe overwriting.program → ⊥ }
{}
