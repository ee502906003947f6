//! Worked programs on which no evidence makes the judge fail, so that soundness speaks of them; and one that races, on which some does. Each
//! function proves its clause and answers nothing.
#![tactic(auto)]

ghost use Rattle.worked_safety.specs.Verified.{CounterIsVerified, ChainIsVerified, CounterPasses, WritersAreNotVerified};

/// On a field that is counted on, no evidence makes the judge fail.
pub fn the_counter_is_verified()
    ensures { CounterIsVerified }
{}

/// It is well formed; so by soundness no interleaving of it goes wrong, from whichever start.
pub fn the_counter_passes()
    ensures { CounterPasses }
{}

/// On a predicate that is unfolded and folded, no evidence makes the judge fail.
pub fn folded_predicates_are_verified()
    ensures { ChainIsVerified }
{}

/// Two threads that write one field aren't verified: some evidence makes the judge fail.
pub fn racing_writers_are_not_verified()
    ensures { WritersAreNotVerified }
{}
