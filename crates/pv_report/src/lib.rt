//! The lines that are written: a line for each verdict with the last line, and the line of a refused text, byte by byte; and what
//! each stage of reading refuses a text for.
//!
//! A report costs one pass over the text where its verdicts stand in the order of the text, and each of its bytes once.
#![tactic(auto)]

mod fault;
mod lines;
mod places;
mod refusing;
mod verdicts;

pub use fault::TextFault;
pub use refusing::{Refusal, line_of_refusal};
pub use verdicts::{report, some_fail};
