//! What programs become where their meaning is told: plain trees in which each name, type and operator is settled. Then the units
//! of a program, and the data of verdicts on them.
#![tactic(auto)]

mod check;
mod evidence;
mod listing;
pub mod plain;
#[cfg(test)]
mod tests;
mod unit;
mod verdict;

pub use check::Check;
pub use evidence::{Entry, Evidence, Pick, Picks, StepMap, StepPair, Table};
pub use listing::units;
pub use unit::{Part, PvUnit, Units};
pub use verdict::{Verdict, Verdicts};
