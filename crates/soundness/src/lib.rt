//! Soundness over all interleavings: in each world that a well formed program reaches, on none of whose units the judge fails, somebody owns
//! whatever anybody touches. Each law is a function that proves its clause and answers nothing.
#![tactic(auto)]

ghost use Rattle.pv_picks.specs.Verdicts.Theorems.{SoundOverAllInterleavings, LoopsAgree};
ghost use Rattle.soundness.specs.Soundness.{StepsKeepTheAccount, ReachedWorldsAreAccounted, GoodVerdictsAreSound, WhatGoesWrongIsNotVerified};
ghost use Rattle.soundness.specs.OpeningLaws.{OpeningsStand};
ghost use Rattle.soundness.specs.WorldLaws.{MembersStandInTheirBodies, LabelsAreReceivedOnce, BothFormsStayAlike, PlacesTellBarriers};
ghost use Rattle.account.specs.Grounds.{ProgramsAreVerifiedThroughout};

/// In a reached world that is accounted for, of a verified program, no step is wrong, and the world after each is accounted for.
pub fn steps_keep_the_account()
    ensures { StepsKeepTheAccount }
{}

/// Each world that a verified program reaches is accounted for.
pub fn reached_worlds_are_accounted_for()
    ensures { ReachedWorldsAreAccounted }
{}

/// Soundness: where no evidence makes the judge fail on any unit of a well formed program, no interleaving of it goes wrong.
pub fn verified_programs_are_safe()
    ensures { SoundOverAllInterleavings }
{}

/// Loop agreement: then each counted loop that is run freely ends, if it ends, in the heap of its ordered run.
pub fn verified_programs_agree_on_loops()
    ensures { LoopsAgree }
{}

/// A well formed program whose verdicts are all Pass or Empty, each with its ground, is safe and agrees on its loops.
pub fn good_verdicts_are_sound()
    ensures { GoodVerdictsAreSound }
{}

/// Where some interleaving of a well formed program goes wrong, the program isn't verified.
pub fn what_goes_wrong_is_not_verified()
    ensures { WhatGoesWrongIsNotVerified }
{}

/// A thread that stands at a barrier or a message is a member of a block, and stands in its own body, not in that of a call.
pub fn members_stand_in_their_bodies()
    ensures { MembersStandInTheirBodies }
{}

/// A member that receives a message receives none with its label again.
pub fn labels_are_received_once()
    ensures { LabelsAreReceivedOnce }
{}

/// Both forms of each contract that members keep are made alike, for the variable of their block: that of a block that a thread opens, that
/// of each block that was opened, and that of a barrier at which a member arrives.
pub fn both_forms_stay_alike()
    ensures { BothFormsStayAlike }
{}

/// Members of one block that leave barriers at one place leave one barrier, each in its own body.
pub fn places_tell_barriers()
    ensures { PlacesTellBarriers }
{}

/// A thread that stands at the opening of a par block or counted loop does so as the account asks: both forms of the block's contract are
/// made alike, its body receives what it sends, and the body of a par block has no message.
pub fn openings_stand_as_the_account_asks()
    ensures { OpeningsStand }
{}

/// What a well formed program becomes is verified throughout where no evidence makes the judge fail on any of its units.
pub fn verified_programs_are_verified_throughout()
    ensures { ProgramsAreVerifiedThroughout }
{}
