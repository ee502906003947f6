//! What the machine does with worked programs: some are the plain trees of texts, some are written as plain trees by hand. Each
//! function proves its clause by computing, and answers nothing.
#![tactic(auto)]

ghost use Rattle.std.specs.Prelude.{◌≡◌, ◌^◌, pos, false, true, None, Some};
ghost use Rattle.pv_values.specs.declared.value.Value.TheVariants as value;
ghost use Rattle.pv_picks.specs.declared.check.Check.TheVariants as check;
ghost use Rattle.pv_picks.specs.Machine.Worlds.{Free, Ordered, ThreadState, has_ended, next};
ghost use Rattle.pv_picks.specs.Machine.Labels.{Label};
ghost use Rattle.pv_values.specs.declared.value.Location.TheVariants.{Cell};
ghost use Rattle.pv_picks.specs.Machine.Steps.{Result, act};
ghost use Rattle.pv_picks.specs.Machine.Starts.{IsStart, first_world};
ghost use Rattle.pv_picks.specs.Machine.LoopRuns.{StandsAtLoop, IsLoopRun, AgreesOnLoops};
ghost use Rattle.pv_picks.specs.Machine.Safety.{Race, IsSafe, may_step};
ghost use Rattle.worked_runs.specs.Schedules.{all_ended, first_able, values_at};
ghost use Rattle.worked_runs.specs.Barriers as barriers;
ghost use Rattle.worked_runs.specs.Distant as distant;
ghost use Rattle.worked_runs.specs.Faults as faults;
ghost use Rattle.worked_runs.specs.Formulas as formulas;
ghost use Rattle.worked_runs.specs.Handing as handing;
ghost use Rattle.worked_runs.specs.Overwriting as overwriting;
ghost use Rattle.worked_runs.specs.Refused as refused;
ghost use Rattle.worked_runs.specs.Swapping as swapping;
ghost use Rattle.worked_programs.specs.CoreObjects.{writers};
ghost use Rattle.worked_runs.specs.Runs.{WritersRace, WorkersFill, MembersCopy, OrderedMembersWait, LoopsEndAlike, LocksOnce, GrowsOn};
ghost use Rattle.worked_runs.specs.Fitting.{ProgramsFit};

/// Where the members of a loop write one element, its end depends on their order: the program doesn't agree on its loops.
pub fn members_that_overwrite_disagree()
    ensures { AgreesOnLoops overwriting.program → ⊥ }
{}

/// Who has arrived at a barrier waits for the other members, and all leave it in one step; then each reads what the other wrote.
pub fn members_leave_a_barrier_together()
    ensures waits { act swapping.program swapping.one_arrived.world Free 1 ≡ Result.Waits }
    ensures first_label { next (swapping.both_arrived.world.threads 1) ≡ Some Label.Leave }
    ensures second_label { next (swapping.both_arrived.world.threads 2) ≡ Some Label.Leave }
    ensures first_leaves { next (swapping.both_left.world.threads 1) ≡ Some (Label.Read (Cell 2 (pos 1))) }
    ensures second_leaves { next (swapping.both_left.world.threads 2) ≡ Some (Label.Read (Cell 2 (pos 0))) }
    ensures steps { swapping.ran.steps ≡ 14 }
    ensures ended { all_ended swapping.ran.world ≡ true }
    ensures values { values_at swapping.ran.world swapping.elements_at_end ≡ swapping.expected }
{}

/// Each way in which a step is wrong has its check and its place, and what is right goes on.
pub fn steps_are_wrong_by_their_checks()
    ensures accesses { faults.found faults.accesses ≡ faults.wanted faults.accesses }
    ensures checks { faults.found faults.checks ≡ faults.wanted faults.checks }
    ensures actions { faults.found faults.actions ≡ faults.wanted faults.actions }
    ensures blocks { faults.found faults.blocks ≡ faults.wanted faults.blocks }
    ensures undeclared { faults.found faults.undeclared ≡ faults.wanted faults.undeclared }
{}

/// Who unlocks must hold the lock: another thread's hold is not enough.
pub fn another_thread_does_not_unlock()
    ensures held { handing.held_by_another.world.holder 1 ≡ Some 0 }
    ensures wrong { act handing.unlocks handing.held_by_another.world Free 1 ≡ Result.Wrong check.NotHeld handing.at_statement }
{}

/// An object whose thread has ended is forked again only once it was joined.
pub fn an_ended_thread_is_not_forked()
    ensures ended { handing.ended_alone.world.state 1 ≡ ThreadState.Ended }
    ensures wrong { act handing.forks handing.ended_alone.world Free 0 ≡ Result.Wrong check.NotIdle handing.at_statement }
{}

/// A message goes to the member at its distance, who waits for it; where nobody is at the distance, nothing is sent or waited for.
pub fn messages_go_to_their_distance()
    ensures third_waits { act distant.program distant.second_ended.world Free 3 ≡ Result.Waits }
    ensures second_ended { has_ended distant.second_ended.world 2 ≡ true }
    ensures second_sent_nothing { (distant.second_ended.world.blocks 0).sent distant.s (pos 1) ≡ false }
    ensures first_sent { (distant.first_sent.world.blocks 0).sent distant.s (pos 0) ≡ true }
    ensures third_may { may_step distant.program distant.first_sent.world 3 ≡ true }
    ensures steps { distant.ran.steps ≡ 12 }
    ensures ended { all_ended distant.ran.world ≡ true }
{}

/// Members that stand at different barriers of one block wait for each other for ever, and no step is wrong.
pub fn members_at_different_barriers_wait()
    ensures steps { barriers.apart_ran.steps ≡ 3 }
    ensures first_stands { next (barriers.apart_ran.world.threads 1) ≡ Some Label.Leave }
    ensures second_stands { next (barriers.apart_ran.world.threads 2) ≡ Some Label.Leave }
    ensures first_waits { act (barriers.program barriers.apart) barriers.apart_ran.world Free 1 ≡ Result.Waits }
    ensures second_waits { act (barriers.program barriers.apart) barriers.apart_ran.world Free 2 ≡ Result.Waits }
    ensures stuck { first_able (barriers.program barriers.apart) barriers.apart_ran.world ≡ None }
{}

/// At a barrier of a block within a block its own members meet, and nobody else is waited for.
pub fn members_of_a_nested_block_meet_alone()
    ensures one_waits { act (barriers.program barriers.nested) barriers.one_each.world Free 3 ≡ Result.Waits }
    ensures other_waits { act (barriers.program barriers.nested) barriers.one_each.world Free 5 ≡ Result.Waits }
    ensures left { next (barriers.first_left.world.threads 4) ≡ Some Label.End }
    ensures still_waits { act (barriers.program barriers.nested) barriers.first_left.world Free 5 ≡ Result.Waits }
    ensures ended { all_ended barriers.nested_ran.world ≡ true }
{}

/// Guards, shifts and single positions of quantifiers, and the first conjunct of a formula that isn't met.
pub fn formulas_are_met_in_heaps()
    ensures { formulas.found ≡ formulas.wanted }
{}

/// Amounts of one location add up, by whatever names it is reached.
pub fn amounts_add_up_at_locations()
    ensures { formulas.asked ≡ formulas.expected }
{}

/// A run starts with two arrays, and none where both parameters name one array and ask for more than there is, or where the
/// precondition isn't met.
pub fn some_starts_are_refused()
    ensures two { IsStart refused.program refused.of_two_arrays }
    ensures shared { IsStart refused.program refused.of_one_array → ⊥ }
    ensures unmet { IsStart refused.program refused.of_another_number → ⊥ }
{}

/// Two forks and a read of each writer's own field are four steps; then both stand before a write to one field.
pub fn writers_race()
    ensures { WritersRace }
{}

/// So the program isn't safe.
pub fn two_writers_are_not_safe()
    ensures { IsSafe writers → ⊥ }
{}

/// Two workers fill the halves of an array in 29 steps, and both are joined.
pub fn workers_fill_an_array()
    ensures { WorkersFill }
{}

/// Members of a counted loop send to the next one: 15 steps, where the second one goes first and then waits for its message.
pub fn members_copy_and_send()
    ensures { MembersCopy }
{}

/// In the ordered run the second member waits until the first one has ended, and the end is the same.
pub fn members_of_an_ordered_loop_wait()
    ensures { OrderedMembersWait }
{}

/// The members of this loop, run alone, end with the same arrays freely and in order.
pub fn a_loop_ends_alike_in_both_modes()
    ensures { LoopsEndAlike }
{}

/// A thread that takes a lock again waits for itself: three steps are taken, and no thread may step.
pub fn a_lock_is_not_taken_twice()
    ensures { LocksOnce }
{}

/// A number that doubles in each turn of a loop is 2 to the power of the turns.
pub fn numbers_grow_without_bound()
    ensures { GrowsOn }
{}

/// These programs are well typed as plain trees.
pub fn programs_fit()
    ensures { ProgramsFit }
{}
