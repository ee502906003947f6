//! Symbolic runs of parts of a unit, over any asker.
#![tactic(auto)]

mod eval;
mod formulas;
mod operands;
mod operations;
mod questions;
mod scene;
mod uses;
mod values;

pub use formulas::{Outcome, exhale, inhale};
pub use scene::{Local, Met, Stores, SymbolPick, SymbolScene};
pub use uses::TabledUse;
pub use values::{SymbolTruth, SymbolValue};
