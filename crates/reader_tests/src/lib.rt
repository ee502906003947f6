//! Tests of the reader: texts with their tokens, and texts with the place at which they stop to be programs.
#![tactic(auto)]

#[cfg(test)]
mod programs;
#[cfg(test)]
mod texts;
