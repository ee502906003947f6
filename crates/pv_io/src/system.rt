// A shelf over the system's files, and a sink over a writer.
ghost use Rattle.std.specs.Prelude.{◌≡◌, None};

use super::{Failed, Shelf, Sink};
use std::fs;
use std::io::{ErrorKind, Read, Write};
use std::rt::Files;

/// The system's files, read through the runtime `R`. What bytes they hold is not told.
#[derive(Drop)]
pub struct FileShelf<R: Files> {
    runtime: R,
    file: Option<R::File>,
    faults: u64,
    hits: u64,
    misses: u64,
    taken: u64,
}

impl<R: Files> FileShelf<R> {
    /// A shelf with no file open, whose counters start at 0.
    pub fn new(runtime: R) -> FileShelf<R>
        ensures faults { ⟦<FileShelf<R> as Shelf>⟧.faults result ≡ 0 }
        ensures hits { ⟦<FileShelf<R> as Shelf>⟧.hits result ≡ 0 }
        ensures misses { ⟦<FileShelf<R> as Shelf>⟧.misses result ≡ 0 }
        ensures taken { ⟦<FileShelf<R> as Shelf>⟧.taken result ≡ 0 }
    {
        FileShelf {
            runtime,
            file: None,
            faults: 0,
            hits: 0,
            misses: 0,
            taken: 0,
        }
    }
}

impl<R: Files> Shelf for FileShelf<R> {
    ghost files = { λ _. None };

    ghost rest = { λ _. None };

    ghost faults = { λ s. s.faults };

    ghost hits = { λ s. s.hits };

    ghost misses = { λ s. s.misses };

    ghost taken = { λ s. s.taken };

    /// It answers false only where the system says that there is no such file. A name that is not
    /// UTF-8 and a file that may not be opened are faults.
    fn open(&mut self, name: &[u8]) -> Result<bool, Failed> {
        self.taken = 0;
        let Ok(path) = str::from_utf8(name) else {
            self.faults = self.faults.saturating_add(1);
            return Err(Failed);
        };
        match fs::open(&self.runtime, path) {
            Ok(file) => {
                self.file = Some(file);
                self.hits = self.hits.saturating_add(1);
                Ok(true)
            }
            Err(error) if error.kind() == ErrorKind::NotFound => {
                self.misses = self.misses.saturating_add(1);
                Ok(false)
            }
            Err(_) => {
                self.faults = self.faults.saturating_add(1);
                Err(Failed)
            }
        }
    }

    /// Before an `open` that answers true there is nothing to read.
    fn read(&mut self, piece: &mut [u8]) -> Result<usize, Failed> {
        let answer = match &mut self.file {
            Some(file) => file.read(piece),
            None => Ok(0),
        };
        match answer {
            Ok(count) => {
                self.taken = self.taken.saturating_add(count as u64);
                Ok(count)
            }
            Err(_) => {
                self.faults = self.faults.saturating_add(1);
                Err(Failed)
            }
        }
    }
}

/// A writer of `std`, as over standard output. What bytes it took is not told, and it is never
/// flushed.
#[derive(Drop)]
pub struct ByteSink<W> {
    writer: W,
    faults: u64,
}

impl<W: Write> ByteSink<W> {
    /// A sink whose counter starts at 0.
    pub fn new(writer: W) -> ByteSink<W>
        ensures { ⟦<ByteSink<W> as Sink>⟧.faults result ≡ 0 }
    {
        ByteSink { writer, faults: 0 }
    }
}

impl<W: Write> Sink for ByteSink<W> {
    ghost written = { λ _. None };

    ghost faults = { λ s. s.faults };

    fn write(&mut self, piece: &[u8]) -> Result<usize, Failed> {
        match self.writer.write(piece) {
            Ok(0) if !piece.is_empty() => {
                self.faults = self.faults.saturating_add(1);
                Ok(0)
            }
            Ok(count) => Ok(count),
            Err(_) => {
                self.faults = self.faults.saturating_add(1);
                Err(Failed)
            }
        }
    }
}
