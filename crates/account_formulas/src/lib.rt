//! Laws of formulas in a world, on which the proof of soundness stands: each is a function that proves its clause and answers
//! nothing.
#![tactic(auto)]

ghost use Rattle.account_formulas.specs.Statements.{NeverFailsTruly, UnitNeverFails, ExhaleGives, LeftFits, InhaleGains, OwnedStays, OwnedIsMet, OwnedAlike, MetAlike, ItemsDealt, ItemsGathered, OwnsAsItems, OwnsAsFormula, ValuesAreTyped, NumbersAre, LocalWorkIsStill, TypedHeapFits, MetIsOwned};

/// A run that no evidence makes fail never fails where its operations are true arithmetic.
pub fn never_fails_truly()
    ensures { NeverFailsTruly }
{}

/// So does the run of a unit from its beginning.
pub fn unit_never_fails()
    ensures { UnitNeverFails }
{}

/// Where giving up a formula never fails, what was held has room for what the formula owns and what is held after.
pub fn exhale_gives()
    ensures { ExhaleGives }
{}

/// What is left of a state that fits its heap, where a formula was given up, fits it.
pub fn left_fits()
    ensures { LeftFits }
{}

/// Where what a formula owns is joined to what is held, taking it in goes on, and what is then held is no more than both.
pub fn inhale_gains()
    ensures { InhaleGains }
{}

/// What is owned stays owned over a change elsewhere.
pub fn owned_stays()
    ensures { OwnedStays }
{}

/// What is owned is met.
pub fn owned_is_met()
    ensures { OwnedIsMet }
{}

/// What is owned in a scene is owned in each scene that agrees with it on the scope.
pub fn owned_alike()
    ensures { OwnedAlike }
{}

/// A formula without `\old` is met alike in all old states.
pub fn met_alike()
    ensures { MetAlike }
{}

/// What items own at every position is dealt to the positions.
pub fn items_dealt()
    ensures { ItemsDealt }
{}

/// What items own at each position is gathered.
pub fn items_gathered()
    ensures { ItemsGathered }
{}

/// What a formula owns at a position, its items own there.
pub fn owns_as_items()
    ensures { OwnsAsItems }
{}

/// What items own at a position, their formula owns there.
pub fn owns_as_formula()
    ensures { OwnsAsFormula }
{}

/// A well typed expression that has a value has one of its type.
pub fn values_are_typed()
    ensures { ValuesAreTyped }
{}

/// In a scene that fits a heap, a value of whole numbers is one.
pub fn numbers_are()
    ensures { NumbersAre }
{}

/// Local work keeps what a frame began with.
pub fn local_work_is_still()
    ensures { LocalWorkIsStill }
{}

/// A well typed heap whose lengths aren't negative fits.
pub fn typed_heap_fits()
    ensures { TypedHeapFits }
{}

/// Where a plain formula is met, amounts that have what it asks for at each location suffice for it.
pub fn met_is_owned()
    ensures { MetIsOwned }
{}
