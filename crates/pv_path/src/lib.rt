//! The search over the cases of a symbolic run: a path of answered questions and turns, and the sides that are still to be walked.
//!
//! `ask` costs nothing but a look at the literal where it has a symbol above those of the path, a look along the path where the
//! path has the answer itself, and else one or two calls of the solver on the literals that were undecided. `turn` looks along
//! the decisions, `fresh` takes constant time, and `next_path` looks along the decisions; `next_path` and `literals` take no
//! memory.
#![tactic(auto)]

mod branch;
mod choices;
mod laws;
mod literals;
mod path;
#[cfg(test)]
mod tests;

pub use branch::{Branch, Side, Turn};
pub use choices::Choices;
pub use laws::{opposites_stand, parts_stand};
pub use path::{Next, Path};
