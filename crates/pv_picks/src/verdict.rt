use crate::{Check, Entry, Evidence};
use pv_base::Span;
use sqlite_items::Items;

/// What is told of a unit.
#[derive(Debug, Drop)]
pub enum Verdict {
    /// No evidence makes a run of the unit fail, and some gets past what the unit takes for granted.
    Pass,
    /// No evidence gets past what the unit takes for granted.
    Empty,
    /// On this evidence, in which each operation has its true value, the run fails the check at the span.
    Fail(Check, Span, Evidence),
    /// On this evidence the run fails the check at the span, and this entry of its table is not the true value of its operation,
    /// which comes last: None where it is outside 128 bits.
    Beyond(Check, Span, Evidence, Entry, Option<i128>),
    /// Cases were left undecided.
    Splits,
}

/// Verdicts in the order of their units.
pub type Verdicts = Items<Verdict>;
