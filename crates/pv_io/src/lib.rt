//! Where texts come from and where reports go: a shelf of named files and a sink of bytes, as
//! traits whose meanings a contract can tell, with one of each in memory and one over the system.
//!
//! `load` and `write_whole` are linear in the bytes that they move. What stands in memory reads and
//! writes in the time of the bytes moved; `open` looks at each name once.
#![tactic(auto)]

mod faults;
mod memory;
mod system;
#[cfg(test)]
mod tests;
mod traits;
mod whole;

pub use faults::{Failed, LoadFault};
pub use memory::{Calls, FileEntry, Files, MemoryShelf, MemorySink};
use sqlite_items::Items;
pub use system::{ByteSink, FileShelf};
pub use traits::{Shelf, Sink};
pub use whole::{load, write_whole};

/// A list of bytes.
pub type Bytes = Items<u8>;
