//! Verdicts on small programs: one symbolic run of a method along each path of its cases.
//!
//! A verdict costs a run of the method for each path, and two calls of the solver for each question that a path leaves open.
#![tactic(auto)]

mod evaluation;
mod judging;
mod method;
mod running;
mod store;
mod verdict;

pub use judging::{Judged, judge};
use pv_base::Span;
use sqlite_items::Items;

/// The two checks of small programs.
#[derive(Clone, Copy, Debug, PartialEq, Eq, Drop)]
pub enum SmallCheck {
    Assert,
    Ensures,
}

/// The arguments of a method by place; what is past the end is 0.
pub type Numbers = Items<i128>;

/// What is known of a method.
#[derive(Drop)]
pub enum SmallVerdict {
    /// On no arguments that meet the precondition does the run fail, and some meet it.
    Pass,
    /// No arguments meet the precondition.
    Empty,
    /// These arguments meet the precondition, and on them the check finds the conjunct at the span not true.
    Fail(SmallCheck, Span, Numbers),
}
