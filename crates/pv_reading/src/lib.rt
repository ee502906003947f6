//! What readers of tokens are made of: faults with the place where they stand, and one token of sight.
#![tactic(auto)]

mod fault;
mod places;
mod sight;

pub use fault::{ParseFault, ReadFault};
pub use places::{place, placed, tokens_from};
/// How many constructs of a text may be open at once.
pub const MOST_OPEN: u32 = 64;

pub use sight::{across, after, expected, expected_name, expected_number, named, numbered};
