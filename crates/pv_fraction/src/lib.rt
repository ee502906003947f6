//! Amounts of permission: exact parts of the whole, as numbers of units. No call takes memory, and each takes the same time.
#![tactic(auto)]

mod fraction;
pub mod laws;
mod rest;
#[cfg(test)]
mod tests;

pub use fraction::{Fraction, UNIT};
pub use rest::Rest;
