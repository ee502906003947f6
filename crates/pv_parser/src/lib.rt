//! The reader of programs.
#![tactic(auto)]

mod classes;
mod laws;
mod lines;
mod members;
mod parts;
mod rights;
mod rooms;
mod statements;
mod trees;
mod types;
mod whole;
mod words;

pub use classes::read_program;
pub use laws::{few_literals, one_tree};
pub use whole::program;
pub use words::{Action, Base};
