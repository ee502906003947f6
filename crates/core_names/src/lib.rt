//! Laws of plain trees: what those of programs that keep the static rules are like, and what holds in the worlds that they reach. Each
//! is a function that proves its clause and answers nothing.
#![tactic(auto)]

ghost use Rattle.pv_ast.specs.declared.Program.{Program};
ghost use Rattle.pv_ast.specs.Rules.Programs.{KeepsRules};
ghost use Rattle.pv_picks.specs.Elaborating.Programs.{core_of};
ghost use Rattle.pv_picks.specs.Verdicts.Theorems.{IsVerified};
ghost use Rattle.pv_picks.specs.Judge.UnitRuns.{Task};
ghost use Rattle.core_trees.specs.Naming.{NamesDiffer, HasUnit, HasSafeUnit, PartsAreUnits};
ghost use Rattle.core_names.specs.Assigning.{KeepsNames};
ghost use Rattle.std.specs.Prelude.{◌≡◌};
ghost use Rattle.pv_picks.specs.Formulas.Evaluation.{Scene};
ghost use Rattle.pv_picks.specs.Formulas.Meeting.{Sight};
ghost use Rattle.core_names.specs.Present.{OldIsKept, MeetsAlike};
ghost use Rattle.core_names.specs.Carrying.{InWorld};
ghost use Rattle.core_names.specs.Fixed.{KeepsHead};
ghost use Rattle.core_names.specs.Closing.{ClosesFirst};
ghost use Rattle.core_names.specs.Stacks.{StacksFit};
ghost use Rattle.core_trees.specs.Opening.{KeepsMessages, OpensOnly};
ghost use Rattle.pv_picks.specs.Plain.Core as core;
ghost use Rattle.pv_picks.specs.Machine.Safety.{IsReached};
ghost use Rattle.pv_picks.specs.Machine.Worlds.{World};

/// In what a program becomes that keeps the static rules, the names of classes differ, and in each class those of its fields, predicates
/// and methods; and a class has at most one `run`, which has no parameters and no result.
pub fn names_differ()
    ensures { (p : Program) → KeepsRules p → NamesDiffer (core_of p) }
{}

/// What a name leads to in what a program becomes is a unit of the program: each method, `run`, predicate and lock invariant.
pub fn parts_are_units()
    ensures { (p : Program) → PartsAreUnits p }
{}

/// Where no evidence makes the judge fail on any unit of a program, none does on a part that is a unit.
pub fn verified_parts_never_fail()
    ensures { (p : Program) (task : Task) → IsVerified p → HasUnit p task → HasSafeUnit p task }
{}

/// In what a program becomes that keeps the static rules, no method assigns its parameters, and no body of a par block or counted loop
/// what is in scope outside, nor its own variable. And the list of each `while` has, once, each variable in scope that its body assigns.
pub fn fixed_names_are_never_assigned()
    ensures { (p : Program) → KeepsRules p → KeepsNames (core_of p) }
{}

/// In each world that such a program reaches, the contract of each frame's body speaks of what doesn't change: the parameters of its
/// method, and for a member all that is in scope at the head of its body, have the values that the frame began with. And the members of
/// a block began with the same variables, each with its position as that of the block.
pub fn contracts_speak_of_fixed_names()
    ensures { (p : Program) → KeepsRules p → (w : World) → IsReached (core_of p) w → InWorld (KeepsHead (core_of p)) w }
{}

/// In what a program becomes each method that keeps no old state needs none: `\old` stands in no formula of its contract and its body.
pub fn old_states_are_kept()
    ensures { (p : Program) → OldIsKept (core_of p) }
{}

/// A formula that speaks of the present state alone is met in a heap, or isn't, whatever the old heap is.
pub fn the_present_ignores_the_old_state()
    ensures { (one two : Sight) (scene : Scene) → one.now ≡ two.now → MeetsAlike one two scene }
{}

/// In each world that a program reaches, a frame closes a block at its next step or never: the end of a block that it opened comes
/// before all else that it has left to do.
pub fn blocks_are_closed_first()
    ensures { (p : core.Program) (w : World) → IsReached p w → InWorld ClosesFirst w }
{}

/// In each world that a plain program reaches, each frame has just the intermediate values that what is left of its body takes: none
/// where a statement begins, and so at the head of a loop, at a barrier, a message and an assert.
pub fn stacks_fit()
    ensures { (p : core.Program) (w : World) → IsReached p w → StacksFit w }
{}

/// In each world that such a program reaches, at the opening of a counted loop each message that its body receives is one that it sends;
/// and in the body of a par block stands no message.
pub fn blocks_are_opened_with_their_messages()
    ensures { (p : Program) → KeepsRules p → (w : World) → IsReached (core_of p) w → OpensOnly KeepsMessages w }
{}
