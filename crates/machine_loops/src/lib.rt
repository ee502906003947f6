//! Laws of counted loops: each is a function that proves its clause and answers nothing.
#![tactic(auto)]

ghost use Rattle.std.specs.Prelude.{◌≡◌, true};
ghost use Rattle.pv_picks.specs.Plain.Core.{Program};
ghost use Rattle.pv_picks.specs.Machine.Frames.{Frame, settled};
ghost use Rattle.pv_picks.specs.Machine.Worlds.{World};
ghost use Rattle.pv_picks.specs.Machine.Safety.{IsReached, IsSafe};
ghost use Rattle.pv_picks.specs.Machine.LoopRuns.{AgreesOnLoops};
ghost use Rattle.core_names.specs.Carrying.{InWorld};
ghost use Rattle.machine_loops.specs.Quiet.{are_quiet};
ghost use Rattle.machine_loops.specs.Calm.{IsCalmFrame, HasQuietLoops};
ghost use Rattle.pv_ast.specs.declared.Program.{Program as Tree};
ghost use Rattle.pv_ast.specs.Rules.Programs.{KeepsRules};
ghost use Rattle.pv_ast.specs.Rules.WellFormed.{IsWellFormed};
ghost use Rattle.pv_picks.specs.Elaborating.Programs.{core_of};
ghost use Rattle.pv_picks.specs.Verdicts.Theorems.{IsVerified, SoundOverAllInterleavings, LoopsAgree, IsPassed};
ghost use Rattle.machine_loops.specs.Calm.{HasQuietLoops};

/// Local work keeps quiet tasks quiet.
pub fn work_keeps_quiet()
    ensures { (f : Frame) → are_quiet f.tasks ≡ true → are_quiet (settled f).tasks ≡ true }
{}

/// In each world that a program reaches whose counted loops have quiet bodies, so have those in what is left of each frame.
pub fn loops_stay_quiet()
    ensures { (p : Program) → HasQuietLoops p → (w : World) → IsReached p w → InWorld IsCalmFrame w }
{}

/// A safe program agrees on its counted loops, where their bodies are quiet: run freely, a loop ends, if it ends, in the heap of its
/// ordered run, and that run ends.
pub fn safe_programs_agree_on_loops()
    ensures { (p : Program) → HasQuietLoops p → IsSafe p → AgreesOnLoops p }
{}

/// In what a program becomes that keeps the static rules, the body of each counted loop has no allocation, call, fork, join, lock, unlock,
/// commit, par block, counted loop and barrier.
pub fn rules_keep_loops_quiet()
    ensures { (p : Tree) → KeepsRules p → HasQuietLoops (core_of p) }
{}

/// Loops agree as soon as verified programs are safe.
pub fn loops_agree_by_soundness()
    ensures { SoundOverAllInterleavings → LoopsAgree }
{}

/// A verified program is passed as soon as verified programs are safe.
pub fn verified_programs_pass_by_soundness()
    ensures { SoundOverAllInterleavings → (p : Tree) → IsWellFormed p → IsVerified p → IsPassed p }
{}
