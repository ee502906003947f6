//! How worked programs are shown to be well formed, by trees on which the static rules compute, and how runs of their units are shown
//! never to fail. Its lemmas are for the crates above.
#![tactic(auto)]
