//! What every crate speaks of: places in a text, numbered names, and want of memory.
#![tactic(auto)]

ghost use Rattle.std.specs.Prelude.{◌≡◌, ◌<◌, ◌≤◌, length};
ghost use Rattle.pv_base.specs.Place.{line_at, column_at};

use std::alloc::{AllocError, AllocFailed};

/// A piece of a text, in bytes: from the first one to the one just after the last.
#[derive(Clone, Copy, Debug, PartialEq, Eq, Drop)]
pub struct Span {
    pub from: u32,
    pub to: u32,
}

/// The number of a name, counted from 0 in the order in which names were first seen.
#[derive(Clone, Copy, Debug, PartialEq, Eq, PartialOrd, Ord, Hash, Drop)]
pub struct Name(pub u32);

/// Memory ran out. No contract says when.
#[derive(Clone, Copy, Debug, PartialEq, Eq, Drop)]
pub struct NoMemory;

impl From<AllocError> for NoMemory {
    fn from(_: AllocError) -> NoMemory {
        NoMemory
    }
}

impl<T: Drop> From<AllocFailed<T>> for NoMemory {
    fn from(_: AllocFailed<T>) -> NoMemory {
        NoMemory
    }
}

const LINE_FEED: u8 = 10;

/// The line and the column of the byte at `at`, or of the end of the text, both counted from 1. A
/// line ends after its line feed, and columns count bytes. One pass over the bytes before `at`; no
/// memory is taken.
pub fn line_col(text: &[u8], at: u32) -> (u32, u32)
    requires within { at ≤ length text.now }
    requires small { at < 4294967295 }
    ensures line { result.0 ≡ line_at text.now at }
    ensures column { result.1 ≡ column_at text.now at }
{
    let before = &text[..at as usize];
    let mut line = 1;
    let mut column = 1;
    for byte in before {
        if *byte == LINE_FEED {
            line += 1;
            column = 1;
        } else {
            column += 1;
        }
    }
    (line, column)
}

#[cfg(test)]
mod tests {
    use super::*;

    #[test]
    fn places_of_a_text(rt: HostRuntime) {
        let text = b"ab\n\ncd";
        for (at, place) in [
            (0, (1, 1)),
            (2, (1, 3)),
            (3, (2, 1)),
            (4, (3, 1)),
            (5, (3, 2)),
            (6, (3, 3)),
        ] {
            assert!(rt; at as usize <= text.len());
            assert!(rt; at < 7);
            assert_eq!(rt; line_col(text, at), place, "at {at}");
        }
    }
}
