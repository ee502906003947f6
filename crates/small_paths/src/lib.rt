//! The search over the cases of a symbolic run: a path of answered questions, and the sides that are still to be walked.
//!
//! A question costs a look along the path, and two calls of the solver where the path doesn't have the answer itself.
#![tactic(auto)]

mod asker;
mod path;

pub use asker::{Asker, ask_at_most};
pub use path::{Next, Path};
use pv_linear::Symbol;

/// Says that `x - y` is at most `bound`.
#[derive(Clone, Copy, Debug, Drop)]
pub struct Difference {
    pub x: Symbol,
    pub y: Symbol,
    pub bound: i128,
}

/// A question that was undecided when it was asked, as it was answered. `Open`: the other answer is still to be walked.
#[derive(Clone, Copy, Debug, Drop)]
pub enum Decision {
    Open(Difference),
    Closed(Difference),
}
