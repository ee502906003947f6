//! Values, locations, and plain heaps: finite maps from locations to values, with a class for each object and a length for each
//! array.
#![tactic(auto)]

mod fields;
mod heap;
pub mod laws;
mod sames;
#[cfg(test)]
mod tests;
mod thing;
mod value;

pub use heap::Heap;
pub use thing::Thing;
pub use value::{Location, Value};
