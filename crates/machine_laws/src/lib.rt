//! Laws of the machine that stand by themselves: each is a function that proves its clause and answers nothing.
#![tactic(auto)]

ghost use Rattle.std.specs.Prelude.{◌≡◌, ◌≤◌, ℕ, false, true, List, Option, IsSome};
ghost use Rattle.pv_base.specs.declared.Name.{Name};
ghost use Rattle.pv_values.specs.Heaps.{Things};
ghost use Rattle.pv_values.specs.Typing.{Kind, IsWellTyped};
ghost use Rattle.pv_picks.specs.Plain.Core.{Program};
ghost use Rattle.pv_picks.specs.Formulas.Heaps.{heap_of};
ghost use Rattle.pv_picks.specs.Machine.Starts.{field_kind};
ghost use Rattle.pv_picks.specs.Machine.Frames.{Frame, after_work, settled};
ghost use Rattle.pv_picks.specs.Machine.Measures.{size_of_tasks};
ghost use Rattle.pv_picks.specs.Machine.Worlds.{Mode, Ordered, World, has_ended, next};
ghost use Rattle.pv_picks.specs.Machine.Steps.{Result, act};
ghost use Rattle.pv_picks.specs.Machine.Safety.{Event, IsReached, may_step, happens, run_events};
ghost use Rattle.pv_picks.specs.Machine.LoopRuns.{StandsAtLoop, IsLoopRun};
ghost use Rattle.machine_laws.specs.Growth.{Grows};
ghost use Rattle.machine_laws.specs.Rest.{is_at_rest};
ghost use Rattle.machine_laws.specs.Shapes.{AreAlike};
ghost use Rattle.machine_laws.specs.Standing.{AreStanding};
ghost use Rattle.machine_laws.specs.HeapSteps.{IsHeapStep};
ghost use Rattle.machine_laws.specs.Lengths.{HasItsElements};
ghost use Rattle.pv_values.specs.declared.value.Value.{Value};
ghost use Rattle.pv_picks.specs.Typing.Heaps.{HasKindOf, IsTypedHeap, KeepsKinds};
ghost use Rattle.machine_laws.specs.Closing.{WorkClosesNothing};
ghost use Rattle.machine_laws.specs.Members.{BlocksHaveMembers};
ghost use Rattle.std.specs.Prelude.{◌≡◌, ℕ};
ghost use Rattle.pv_picks.specs.Formulas.Heaps.{Heap};
ghost use Rattle.pv_picks.specs.Machine.Frames.{Frame, after_work};
ghost use Rattle.pv_picks.specs.Machine.Starts.{Start, IsStart, field_kind, first_world};
ghost use Rattle.pv_picks.specs.Machine.Safety.{IsReached};
ghost use Rattle.pv_picks.specs.Machine.Worlds.{Mode, World, next};
ghost use Rattle.pv_picks.specs.Typing.Blocks.{ProgramFits};
ghost use Rattle.pv_picks.specs.Typing.Heaps.{IsTypedHeap, KeepsKinds};
ghost use Rattle.pv_picks.specs.Typing.Expressions.{Home};
ghost use Rattle.pv_picks.specs.Typing.Frames.{FrameFits};
ghost use Rattle.pv_picks.specs.Typing.Worlds.{WorldFits};
ghost use Rattle.machine_laws.specs.Counting.{program};
ghost use Rattle.machine_laws.specs.Fresh.{BeyondIsFresh};

/// Local work goes on up to a step, a call that isn't over, or the end of the body.
pub fn work_ends_at_a_step()
    ensures { (f : Frame) → is_at_rest (settled f) ≡ true }
{}

/// More pieces of work than the tasks are large make no difference.
pub fn more_work_changes_nothing()
    ensures { (n : ℕ) (f : Frame) → size_of_tasks f.tasks ≤ n → after_work n f ≡ settled f }
{}

/// The mode of an event says into which world it leads, and nothing of whether the thread goes, waits or is wrong.
pub fn modes_are_alike()
    ensures { (p : Program) (w : World) (m n : Mode) (i : ℕ) → AreAlike (act p w m i) (act p w n i) }
{}

/// An event of a thread that waits or has ended leaves the world as it is.
pub fn who_waits_changes_nothing()
    ensures { (p : Program) (w : World) (event : Event) → may_step p w event.thread ≡ false → happens p event w ≡ w }
{}

/// Events take back no thread and its role, no block but its messages, no object and its class, no array and its length.
pub fn events_take_nothing_back()
    ensures { (p : Program) (events : List Event) (w : World) → Grows w (run_events p events w) }
{}

/// The ordered run of a loop is one: where two of them end, they end in one world.
pub fn the_ordered_run_is_one()
    ensures { (p : Program) (w : World) (i : ℕ) (one other : World) → StandsAtLoop w i → IsLoopRun p w i Ordered one → IsLoopRun p w i Ordered other → one ≡ other }
{}

/// In a reached world the innermost frame of each thread has no local work left, and each other frame waits for the one above it.
pub fn reached_threads_stand()
    ensures { (p : Program) (w : World) → IsReached p w → AreStanding w }
{}

/// In a reached world a thread that hasn't ended has a next label.
pub fn who_has_not_ended_has_a_label()
    ensures { (p : Program) (w : World) → IsReached p w → (j : ℕ) → has_ended w j ≡ false → IsSome (next (w.threads j)) }
{}

/// A step that goes changes the heap as its label says; what it reads or writes is there, and an array whose length it takes.
pub fn labels_say_what_becomes_of_the_heap()
    ensures { (p : Program) (w v : World) (mode : Mode) (i : ℕ) → act p w mode i ≡ Result.Went v → IsHeapStep p (next (w.threads i)) w.heap v.heap }
{}

/// A list of objects and arrays is well typed exactly if the heap that it stands for is.
pub fn lists_are_typed_as_their_heaps()
    ensures { (kinds : Name → Name → Option Kind) (things : Things)
        → (IsWellTyped kinds things → IsTypedHeap kinds (heap_of things)) × (IsTypedHeap kinds (heap_of things) → IsWellTyped kinds things) }
{}

/// A step keeps the heap well typed, where what it writes has the kind of its location and a new array is one of whole numbers or of truth
/// values.
pub fn steps_keep_heaps_well_typed()
    ensures { (p : Program) (w v : World) (mode : Mode) (i : ℕ) → IsTypedHeap (field_kind p) w.heap → KeepsKinds (field_kind p) w.heap (next (w.threads i))
        → act p w mode i ≡ Result.Went v → IsTypedHeap (field_kind p) v.heap }
{}

/// A value keeps its kind over a step that keeps to the kinds.
pub fn steps_keep_kinds()
    ensures { (p : Program) (w v : World) (mode : Mode) (i : ℕ) → IsTypedHeap (field_kind p) w.heap → KeepsKinds (field_kind p) w.heap (next (w.threads i))
        → act p w mode i ≡ Result.Went v → (kind : Option Kind) (value : Value) → HasKindOf w.heap kind value → HasKindOf v.heap kind value }
{}

/// In a reached heap no length is negative, and each array has elements at the indices from 0 to below its length and nowhere else.
pub fn reached_heaps_have_their_elements()
    ensures { (p : Program) (w : World) → IsReached p w → HasItsElements w.heap }
{}

/// No task that a statement or an expression is taken apart into closes a block, and local work makes none that does.
pub fn work_closes_no_block()
    ensures { WorkClosesNothing }
{}

/// In a reached world the threads of an opened block's numbers are its members, each with its position; and each member is one of those of
/// a block that was opened.
pub fn blocks_have_their_members()
    ensures { (p : Program) (w : World) → IsReached p w → BlocksHaveMembers w }
{}

/// Local work keeps a well typed frame well typed.
pub fn local_work_keeps_frames_typed()
    ensures { (h : Home) (heap : Heap) (n : ℕ) (f : Frame) → FrameFits h heap f → FrameFits h heap (after_work n f) }
{}

/// In a well typed world what a thread writes next has the kind of its location, and the next new array is one of whole numbers or of truth
/// values.
pub fn labels_of_typed_worlds_keep_kinds()
    ensures { (p : Program) (w : World) → WorldFits p w → (i : ℕ) → KeepsKinds (field_kind p) w.heap (next (w.threads i)) }
{}

/// In a well typed program a step of a well typed world leads to a well typed world.
pub fn steps_keep_worlds_typed()
    ensures { (p : Program) → ProgramFits p → (w v : World) (mode : Mode) (i : ℕ) → WorldFits p w → act p w mode i ≡ Result.Went v → WorldFits p v }
{}

/// A well typed program starts in well typed worlds.
pub fn starts_are_typed()
    ensures { (p : Program) → ProgramFits p → (s : Start) → IsStart p s → WorldFits p (first_world s) }
{}

/// In a well typed program each reached world is well typed: its heap, and the frames of all its threads.
pub fn reached_worlds_are_well_typed()
    ensures { (p : Program) → ProgramFits p → (w : World) → IsReached p w → WorldFits p w }
{}

/// In a well typed program the heap of each reached world is well typed: every step writes values of the kinds of their places.
pub fn reached_heaps_are_well_typed()
    ensures { (p : Program) → ProgramFits p → (w : World) → IsReached p w → IsTypedHeap (field_kind p) w.heap }
{}

/// In each world that a well typed program reaches, nothing was done with the numbers beyond the heap's count: they are idle, uncommitted and
/// unlocked, and no thread runs the `run` of one. So a new object is.
pub fn numbers_beyond_the_count_are_fresh()
    ensures { (p : Program) → ProgramFits p → (w : World) → IsReached p w → BeyondIsFresh w }
{}

/// There is a well typed program, with a declaration, a write and a call.
pub fn a_program_is_well_typed()
    ensures { ProgramFits program }
{}
