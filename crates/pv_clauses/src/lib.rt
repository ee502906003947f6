//! The reader of contracts.
#![tactic(auto)]

mod calls;
mod reading;

pub use calls::contract;
pub use reading::{clause_word, read_clause, read_clauses};
