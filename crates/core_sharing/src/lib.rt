//! Laws of contracts that members keep: each is a function that proves its clause and answers nothing.
#![tactic(auto)]

ghost use Rattle.pv_ast.specs.declared.Program.{Program};
ghost use Rattle.pv_ast.specs.Rules.WellFormed.{IsWellFormed};
ghost use Rattle.pv_picks.specs.Elaborating.Programs.{core_of};
ghost use Rattle.core_sharing.specs.Sharing.{FormsAgree};
ghost use Rattle.core_sharing.specs.Forms.{FormsCorrespond};
ghost use Rattle.core_sharing.specs.Places.{HasPlaces};
ghost use Rattle.core_sharing.specs.Waiting.{KeepsBarriers};
ghost use Rattle.core_names.specs.Carrying.{InWorld};
ghost use Rattle.pv_picks.specs.Machine.Safety.{IsReached};
ghost use Rattle.pv_picks.specs.Machine.Worlds.{World};
ghost use Rattle.core_sharing.specs.Exhaled.{ExhalesAlike, FormsAreExhaledAlike, FormsFailAlike};
ghost use Rattle.core_sharing.specs.Elements.{ItemsHaveElements};
ghost use Rattle.core_sharing.specs.Renumbering.{StartsAlike};
ghost use Rattle.core_sharing.specs.Inhaled.{InhalesAgain, InhalesAlike, FormsAreInhaledAlike, FormsEndAlike};

/// In what a well formed program becomes, both forms of each contract of a par block, a counted loop and a barrier are made alike,
/// part by part: a condition like a repeated one, the permission of an element like that at each position, a formula under a
/// condition like an item behind guards, a formula at one position like the same there. And each barrier stands in a par block.
pub fn both_forms_of_a_contract_correspond()
    ensures { (p : Program) → IsWellFormed p → FormsCorrespond (core_of p) }
{}

/// In what a well formed program becomes, both forms of each contract of a par block, a counted loop and a barrier say the same: in
/// any heaps, and any scene where the variable of the block is a position, the formula at it and the items at it have the same first
/// conjunct that isn't met, and ask for the same units at each location. And each barrier stands in a par block.
pub fn both_forms_of_a_contract_agree()
    ensures { (p : Program) → IsWellFormed p → FormsAgree (core_of p) }
{}

/// At a position the exhale of a formula and that of items that are made like it, over that position alone, follow each other. Whatever
/// end the formula's comes to on some picks, and then what comes next, the items' comes to on some picks, with the same state but for
/// the lengths that it knows. Whatever end the items' comes to, the formula's comes to, or it fails. So no evidence makes the one fail
/// where none makes the other fail, and both give up the same.
pub fn what_is_made_alike_is_exhaled_alike()
    ensures { ExhalesAlike }
{}

/// In what a well formed program becomes, both forms of each contract that members keep are exhaled alike at each position, where the
/// terms that fix the position are read as whole numbers.
pub fn both_forms_of_a_contract_are_exhaled_alike()
    ensures { (p : Program) → IsWellFormed p → FormsAreExhaledAlike (core_of p) }
{}

/// So on some picks the exhale of the one form fails exactly if on some picks that of the other does; and where the formula's fails or
/// goes on, the items' fails so or goes on, on some picks.
pub fn both_forms_of_a_contract_fail_alike()
    ensures { (p : Program) → IsWellFormed p → FormsFailAlike (core_of p) }
{}

/// In what a well formed program becomes, what the items of a contract that members keep say of elements they say of numbers or truth
/// values.
pub fn items_speak_of_numbers_and_truth_values()
    ensures { (p : Program) → IsWellFormed p → ItemsHaveElements (core_of p) }
{}

/// Before they take their first picks, runs are alike.
pub fn runs_start_alike()
    ensures { StartsAlike }
{}

/// From states that are alike, with other picks for ranges, the inhale of a formula whose positions stand only where they are read
/// follows itself: whatever end it comes to on some picks, and then what comes next, it comes to from the other state on some picks.
pub fn a_formula_is_inhaled_alike_from_states_that_are_alike()
    ensures { InhalesAgain }
{}

/// At a position the inhale of a formula and that of items that are made like it, over that position alone, follow each other, from
/// states that are alike, and with whatever comes next, where elements are numbers or truth values. Where the formula's writes a pick
/// into an element, the items' takes a pick for a range, and the other way round.
pub fn what_is_made_alike_is_inhaled_alike()
    ensures { InhalesAlike }
{}

/// In what a well formed program becomes, both forms of each contract that members keep are inhaled alike at each position, where
/// the terms that fix the position are read as whole numbers.
pub fn both_forms_of_a_contract_are_inhaled_alike()
    ensures { (p : Program) → IsWellFormed p → FormsAreInhaledAlike (core_of p) }
{}

/// So from states that are alike, and know the same lengths, the inhales of both forms come to the same ends: the one can fail exactly
/// as the other can, with the same check at the same place, and can go on exactly if the other can.
pub fn inhales_of_both_forms_of_a_contract_end_alike()
    ensures { (p : Program) → IsWellFormed p → FormsEndAlike (core_of p) }
{}

/// In what a program becomes, each barrier has as its place the way to it through its method, so two barriers of a method at one place
/// are one barrier, with one contract.
pub fn barriers_are_told_apart_by_their_places()
    ensures { (p : Program) → HasPlaces (core_of p) }
{}

/// In each world that such a program reaches, the barriers that a frame has still to come to stand in the body of its method, where at
/// one place there is one. So frames of one method that stand at one place stand at one barrier.
pub fn frames_come_to_barriers_of_their_methods()
    ensures { (p : Program) (w : World) → IsReached (core_of p) w → InWorld KeepsBarriers w }
{}
