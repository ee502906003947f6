//! Laws of the finite test of facts: each is a function that proves its clause and answers nothing.
#![tactic(auto)]

ghost use Rattle.judge_facts.specs.Carried.{JudgesAsLazyRun, JudgesOnListedNames, JudgesAsItDrew};
ghost use Rattle.judge_facts.specs.Fair.{FairFactsSpread};
ghost use Rattle.judge_facts.specs.Finite.{JudgesWhereFactsSpread};
ghost use Rattle.judge_facts.specs.Reads.{ReadsAtNames, JudgesOnReads};
ghost use Rattle.judge_facts.specs.Without.{JudgesWithoutFacts, EntersWithoutFacts};

/// Where each fact that a lazy run knows at its end spreads from the named positions, the judge ends as the lazy run does.
pub fn judges_where_facts_spread()
    ensures { JudgesWhereFactsSpread }
{}

/// A fair fact spreads.
pub fn fair_facts_spread()
    ensures { FairFactsSpread }
{}

/// On evidence whose maps are carried between names the judge ends as the lazy run does.
pub fn judges_as_lazy_run()
    ensures { JudgesAsLazyRun }
{}

/// On evidence whose maps list names alone the judge ends as the lazy run does.
pub fn judges_on_listed_names()
    ensures { JudgesOnListedNames }
{}

/// On evidence that is made of a drawn run, the judge ends as the drawn run does.
pub fn judges_as_it_drew()
    ensures { JudgesAsItDrew }
{}

/// What a lazy run reads of its picks for ranges it reads at names.
pub fn reads_at_names()
    ensures { ReadsAtNames }
{}

/// On evidence that lists what a drawn run read, and fits what it remembers, the judge ends as the drawn run does.
pub fn judges_on_reads()
    ensures { JudgesOnReads }
{}

/// Where the lazy run comes to know no fact on elements, the judge ends as it does.
pub fn judges_without_facts()
    ensures { JudgesWithoutFacts }
{}

/// The same up to the first inhale.
pub fn enters_without_facts()
    ensures { EntersWithoutFacts }
{}
