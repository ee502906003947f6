//! `vercors verify FILE` reads a program of the whole language, and gives a verdict on each method of a small one.
//!
//! The words and the text are read in one pass each; what the verdicts cost is said at their crate.
#![tactic(auto)]

mod answering;
mod call;
mod ending;
mod reading;
#[cfg(test)]
mod rule_tests;
#[cfg(test)]
mod tests;

use call::vercors;
use ending::Status;
use pv_io::{ByteSink, FileShelf};
use pv_words::words_of;
use std::process::ExitCode;
use std::{env, io};

fn main(rt: HostRuntime) -> ExitCode {
    let status = match words_of(rt.alloc(), env::args(&rt)) {
        Ok(words) => {
            let mut shelf = FileShelf::new(&rt);
            let mut out = ByteSink::new(io::writer(&rt));
            vercors(rt.alloc(), &words, &mut shelf, &mut out)
        }
        Err(_) => Status::NoMemory,
    };
    ExitCode::from(status.code())
}
