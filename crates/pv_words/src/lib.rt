//! The words of a call: those that the system hands over, and the forms that they may have.
//!
//! Each call looks at each byte of the words a few times at most.
#![tactic(auto)]

mod command_line;
mod forms;

pub use command_line::words_of;
pub use forms::file_to_verify;
use pv_io::Bytes;
use sqlite_items::Items;

/// The words of a call, without the program's own name.
pub type Words = Items<Bytes>;
