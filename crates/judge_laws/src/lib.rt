//! Laws of what programs mean: each is a function that proves its clause and answers nothing.
#![tactic(auto)]

ghost use Rattle.judge_laws.specs.Judging.{JudgesAsLazy, JudgesAsDrawn, BlocksWithoutPattern};
ghost use Rattle.judge_laws.specs.Drawing.{RunsAsDrawn, DrawnRunsAsLazy, RemembersPicks};
ghost use Rattle.judge_laws.specs.Ending.{EndsUnfitAtNegative};
ghost use Rattle.judge_laws.specs.Entering.{EntersAsDrawn, DrawnEntersAsLazy, EntersAsLazy};
ghost use Rattle.judge_laws.specs.Making.{TellsUses, MakesEvidence};
ghost use Rattle.judge_laws.specs.Numbers.{UpWhereFit, TakesValues, KeepsTurnsBelow, RemembersEachOnce};
ghost use Rattle.judge_laws.specs.OneGo.{StepsInOneGo, RunsInOneGo};
ghost use Rattle.judge_laws.specs.Parts.{RunsByParts};
ghost use Rattle.judge_laws.specs.Statements.{InhalesDirectly, ExhalesDirectly, WasHeld, ReadsNoTrueTable};

/// Inhaling a formula, and what comes next, is inhaling it in one go, and then what comes next.
pub fn inhales_directly()
    ensures { InhalesDirectly }
{}

/// Exhaling a formula, and what comes next, is exhaling it in one go, and then what comes next.
pub fn exhales_directly()
    ensures { ExhalesDirectly }
{}

/// What is exhaled was held: nothing is there in a greater amount than before.
pub fn was_held()
    ensures { WasHeld }
{}

/// Under a table of true arithmetic the judge ends as under the empty one.
pub fn reads_no_true_table()
    ensures { ReadsNoTrueTable }
{}

/// The lazy run of evidence is the drawn run on the values and turns that it takes.
pub fn runs_as_drawn()
    ensures { RunsAsDrawn }
{}

/// Evidence with the picks of a drawn run, whose maps and table fit what it remembers, has that run.
pub fn drawn_runs_as_lazy()
    ensures { DrawnRunsAsLazy }
{}

/// The judge ends as the lazy run does, or is blocked.
pub fn judges_as_lazy()
    ensures { JudgesAsLazy }
{}

/// On evidence with a pattern the judge ends as the drawn run on its values and turns, or is blocked.
pub fn judges_as_drawn()
    ensures { JudgesAsDrawn }
{}

/// On evidence without a pattern the judge is blocked.
pub fn blocks_without_pattern()
    ensures { BlocksWithoutPattern }
{}

/// What a drawn run remembers of its picks at the end are the picks that it took.
pub fn remembers_picks()
    ensures { RemembersPicks }
{}

/// A drawn run is its parts in one go, each with what comes next: expressions of bodies and of formulas, inhaling and exhaling, and
/// blocks of statements.
pub fn steps_in_one_go()
    ensures { StepsInOneGo }
{}

/// The drawn run of a unit is the run in one go; and that is the run up to the first inhale, and then the rest.
pub fn runs_in_one_go()
    ensures { RunsInOneGo }
{}

/// A drawn run is its parts, each with what comes next: an expression is its parts and their operations, a formula its conjuncts.
pub fn runs_by_parts()
    ensures { RunsByParts }
{}

/// With turns below 3, a drawn run that ends unfit ends just behind a negative number in the place of a reference.
pub fn ends_unfit_at_negative()
    ensures { EndsUnfitAtNegative }
{}

/// Up to the first inhale the lazy run of evidence is the drawn run on the values and turns that it takes.
pub fn enters_as_drawn()
    ensures { EntersAsDrawn }
{}

/// Up to the first inhale evidence with the picks of a drawn run, whose maps and table fit what it remembers, has that run.
pub fn drawn_enters_as_lazy()
    ensures { DrawnEntersAsLazy }
{}

/// Up to the first inhale the judge ends as the lazy run does, or is blocked.
pub fn enters_as_lazy()
    ensures { EntersAsLazy }
{}

/// A drawn run that isn't unfit takes no negative number in the place of a reference.
pub fn up_where_fit()
    ensures { UpWhereFit }
{}

/// A drawn run takes the values in their order, one for each type that it tells.
pub fn takes_values()
    ensures { TakesValues }
{}

/// A drawn run that isn't unfit is the same with other turns in place of those from 3 on.
pub fn keeps_turns_below()
    ensures { KeepsTurnsBelow }
{}

/// A drawn run remembers each use of an operation once, and each element of a range's pick that it reads.
pub fn remembers_each_once()
    ensures { RemembersEachOnce }
{}

/// Uses that differ make a table that is told well and has the value of each of them.
pub fn tells_uses()
    ensures { TellsUses }
{}

/// Evidence that is made of a drawn run has it as its lazy run.
pub fn makes_evidence()
    ensures { MakesEvidence }
{}
