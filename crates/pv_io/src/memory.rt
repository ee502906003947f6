// A shelf and a sink in memory, whose calls fail where a test wants them to.
ghost use Rattle.std.specs.Prelude.{◌≡◌, ◌≤◌, ◌<◌, ◌-◌, ◌+◌, ◌^◌, false, [], ◌++◌, take, drop, min, position, Some, IfOk, IsOk, IsErr, IsTrue, OnOk, OnErr, is_err, is_some, length};
ghost use Rattle.pv_io.specs.Count.{counted};
ghost use Rattle.pv_io.specs.Calls.{OpensFile, KeepsRest, CountsOpening, ReadsRest, CountsTaken, CountsFault, AppendsFront, CountsRefusal};
ghost use Rattle.pv_io.specs.Named.{has_name, file_named, bytes_from, is_among};

use super::{Bytes, Failed, Shelf, Sink};
use pv_base::NoMemory;
use sqlite_items::Items;
use std::alloc::Global;
use std::marker::Model;

/// A file in memory, under its name.
#[derive(Debug, Drop)]
pub struct FileEntry {
    pub name: Bytes,
    pub bytes: Bytes,
}

/// Files in memory. Of two with one name the first counts.
pub type Files = Items<FileEntry>;

/// Numbers of calls, counted from 1.
pub type Calls = Items<u64>;

// The calls on a shelf or a sink, of which some are to fail.
#[derive(Debug, Drop)]
struct CallLog {
    fails: Calls,
    calls: u64,
    faults: u64,
}

impl CallLog {
    fn new(fails: Calls) -> CallLog
        ensures fails { result.fails ≡ fails }
        ensures calls { result.calls ≡ 0 }
        ensures faults { result.faults ≡ 0 }
    {
        CallLog {
            fails,
            calls: 0,
            faults: 0,
        }
    }

    // Counts one fault more.
    fn fault(&mut self) -> Failed
        ensures counts_fault { self.new ≡ record self.old { faults = counted self.old.faults 1 } }
        ensures never_falls { self.old.faults ≤ self.new.faults }
    {
        self.faults = self.faults.saturating_add(1);
        Failed
    }

    // Counts one call more, and gives its number. It fails where that call is to fail, which is one
    // fault more.
    fn next_call(&mut self) -> Result<u64, Failed>
        ensures number { IfOk result (λ number. number ≡ counted self.old.calls 1) }
        ensures fails { is_err result ≡ is_among self.old.fails (counted self.old.calls 1) }
        ensures keeps_fails { self.new.fails ≡ self.old.fails }
        ensures counts_call { self.new.calls ≡ counted self.old.calls 1 }
        ensures counts_ok { OnOk result (self.new.faults ≡ self.old.faults) }
        ensures counts_err { OnErr result (self.new.faults ≡ counted self.old.faults 1) }
        ensures never_falls { self.old.faults ≤ self.new.faults }
    {
        self.calls = self.calls.saturating_add(1);
        if is_listed(self.fails.as_slice(), self.calls) {
            return Err(self.fault());
        }
        Ok(self.calls)
    }
}

fn is_listed(calls: &[u64], number: u64) -> bool
    ensures { result ≡ is_among calls.now number }
{
    calls.contains(&number)
}

// The place of the first entry of that name.
fn place_of(files: &Files, name: &[u8]) -> Option<usize>
    ensures { result ≡ position (has_name name.now) files.now }
{
    files
        .as_slice()
        .iter()
        .position(|entry| entry.name.as_slice() == name)
}

fn rest_of(files: &Files, place: usize, at: usize) -> &[u8]
    ensures rest { result.now ≡ bytes_from files.now place at }
    ensures fits { at + length result.now < 2 ^ 64 }
{
    match files.get(place) {
        Some(entry) => {
            let bytes = entry.bytes.as_slice();
            &bytes[at.min(bytes.len())..]
        }
        None => &[],
    }
}

// Moves as many first bytes as the piece and the rest allow into the front of the piece.
fn move_front(rest: &[u8], piece: &mut [u8]) -> usize
    ensures count { result ≡ min (length piece.old) (length rest.now) }
    ensures front { take result piece.new ≡ take result rest.now }
{
    let count = piece.len().min(rest.len());
    piece[..count].copy_from_slice(&rest[..count]);
    count
}

/// Files in memory, of which everything is told. A call whose number stands in the list of those
/// that fail does nothing but fail.
#[derive(Debug, Drop)]
pub struct MemoryShelf {
    files: Files,
    log: CallLog,
    place: usize,
    at: usize,
    hits: u64,
    misses: u64,
    taken: u64,
}

impl Model for MemoryShelf {
    ghost use Rattle.pv_io.specs.Named.{bytes_from};
    ghost use Rattle.pv_io.specs.Memory.{ShelfState};

    ghost Value = { ShelfState };

    ghost view = { λ s. record {
      files = s.files;
      rest = bytes_from s.files s.place s.at;
      fails = s.log.fails;
      calls = s.log.calls;
      faults = s.log.faults;
      hits = s.hits;
      misses = s.misses;
      taken = s.taken;
    } };
}

impl MemoryShelf {
    /// Of two files with one name the first counts. Before an `open` that answers true the rest is
    /// empty. The calls of `open` and `read` that fail are counted from 1 over both. No memory is
    /// taken.
    pub fn new(_alloc: Global, files: Files, fails: Calls) -> MemoryShelf
        ensures files { result.files ≡ files }
        ensures rest { result.rest ≡ [] }
        ensures fails { result.fails ≡ fails }
        ensures calls { result.calls ≡ 0 }
        ensures faults { result.faults ≡ 0 }
        ensures hits { result.hits ≡ 0 }
        ensures misses { result.misses ≡ 0 }
        ensures taken { result.taken ≡ 0 }
    {
        let place = files.len();
        MemoryShelf {
            files,
            log: CallLog::new(fails),
            place,
            at: 0,
            hits: 0,
            misses: 0,
            taken: 0,
        }
    }
}

impl Shelf for MemoryShelf {
    ghost files = { λ s. Some (file_named s.files) };

    ghost rest = { λ s. Some s.rest };

    ghost faults = { λ s. s.faults };

    ghost hits = { λ s. s.hits };

    ghost misses = { λ s. s.misses };

    ghost taken = { λ s. s.taken };

    /// It fails exactly where the call is to fail. It answers whether there is a file of that name.
    fn open(&mut self, name: &[u8]) -> Result<bool, Failed>
        ensures fails { is_err result ≡ is_among self.old.fails (counted self.old.calls 1) }
        ensures answers { IfOk result (λ found. found ≡ is_some (file_named self.old.files name.now)) }
        ensures counts_call { self.new.calls ≡ counted self.old.calls 1 }
        ensures keeps_fails { self.new.fails ≡ self.old.fails }

        ensures opens { OpensFile (Some (file_named self.old.files)) name.now result (Some self.new.rest) }
        ensures keeps_rest { KeepsRest result (Some self.old.rest) (Some self.new.rest) }
        ensures keeps_files { self.new.files ≡ self.old.files }
        ensures counts_opening { CountsOpening result self.old.hits self.old.misses self.new.hits self.new.misses }
        ensures counts_taken { self.new.taken ≡ 0 }
        ensures counts_fault { CountsFault result self.old.faults self.new.faults }
        ensures never_falls { self.old.faults ≤ self.new.faults }
    {
        self.taken = 0;
        self.log.next_call()?;
        match place_of(&self.files, name) {
            Some(place) => {
                self.place = place;
                self.at = 0;
                self.hits = self.hits.saturating_add(1);
                Ok(true)
            }
            None => {
                self.misses = self.misses.saturating_add(1);
                Ok(false)
            }
        }
    }

    /// It fails exactly where the call is to fail. It moves as many bytes as the piece and the rest
    /// allow.
    fn read(&mut self, piece: &mut [u8]) -> Result<usize, Failed>
        ensures fails { is_err result ≡ is_among self.old.fails (counted self.old.calls 1) }
        ensures moves { IfOk result (λ n. n ≡ min (length piece.old) (length self.old.rest)) }
        ensures counts_call { self.new.calls ≡ counted self.old.calls 1 }
        ensures keeps_fails { self.new.fails ≡ self.old.fails }

        ensures within { IfOk result (λ n. n ≤ length piece.new) }
        ensures reads { ReadsRest (Some self.old.rest) (Some self.new.rest) piece.new result }
        ensures keeps_files { self.new.files ≡ self.old.files }
        ensures keeps_hits { self.new.hits ≡ self.old.hits }
        ensures keeps_misses { self.new.misses ≡ self.old.misses }
        ensures counts_taken { CountsTaken result self.old.taken self.new.taken }
        ensures counts_fault { CountsFault result self.old.faults self.new.faults }
        ensures never_falls { self.old.faults ≤ self.new.faults }
    {
        self.log.next_call()?;
        let rest = rest_of(&self.files, self.place, self.at);
        let count = move_front(rest, piece);
        self.at += count;
        self.taken = self.taken.saturating_add(count as u64);
        Ok(count)
    }
}

/// A sink in memory with room for so many bytes, of which everything is told. A call whose number
/// stands in the list of those that fail does nothing but fail.
#[derive(Debug, Drop)]
pub struct MemorySink {
    bytes: Vec<u8>,
    room: usize,
    log: CallLog,
    empties: Calls,
}

impl Model for MemorySink {
    ghost use Rattle.std.specs.Prelude.{◌≤◌, vec_len, vec_capacity};
    ghost use Rattle.pv_io.specs.Memory.{SinkState};

    ghost Value = { SinkState };

    ghost view = { λ s. record {
      written = s.bytes.items;
      room = s.room;
      fails = s.log.fails;
      empties = s.empties;
      calls = s.log.calls;
      faults = s.log.faults;
    } };

    ghost invariant = { λ s. (vec_len s.bytes ≤ s.room) × (s.room ≤ vec_capacity s.bytes) };
}

impl MemorySink {
    /// Takes its memory for `room` bytes at once. The calls that fail and those that take nothing
    /// are counted from 1. Where memory is wanted it answers `NoMemory`.
    pub fn new(
        alloc: Global,
        room: u32,
        fails: Calls,
        empties: Calls,
    ) -> Result<MemorySink, NoMemory>
        ensures written { IfOk result (λ sink. sink.written ≡ []) }
        ensures room { IfOk result (λ sink. sink.room ≡ room) }
        ensures fails { IfOk result (λ sink. sink.fails ≡ fails) }
        ensures empties { IfOk result (λ sink. sink.empties ≡ empties) }
        ensures calls { IfOk result (λ sink. sink.calls ≡ 0) }
        ensures faults { IfOk result (λ sink. sink.faults ≡ 0) }
    {
        let room = room as usize;
        let bytes = Vec::with_capacity(alloc, room)?;
        Ok(MemorySink {
            bytes,
            room,
            log: CallLog::new(fails),
            empties,
        })
    }

    /// The bytes written.
    pub fn written(&self) -> &[u8]
        ensures { result.now ≡ self.now.written }
    {
        self.bytes.as_slice()
    }
}

impl Sink for MemorySink {
    ghost written = { λ s. Some s.written };

    ghost faults = { λ s. s.faults };

    /// It fails where the call is to fail and where the room is full, and nowhere else. A call that
    /// is to take nothing takes nothing, and another as much of the piece as the room still holds.
    fn write(&mut self, piece: &[u8]) -> Result<usize, Failed>
        ensures fails { IsTrue (is_among self.old.fails (counted self.old.calls 1)) → IsErr result }
        ensures full { self.old.room ≤ length self.old.written → IsErr result }
        ensures succeeds { is_among self.old.fails (counted self.old.calls 1) ≡ false → length self.old.written < self.old.room → IsOk result }
        ensures takes_nothing { IsTrue (is_among self.old.empties (counted self.old.calls 1)) → IfOk result (λ n. n ≡ 0) }
        ensures takes { is_among self.old.empties (counted self.old.calls 1) ≡ false → IfOk result (λ n. n ≡ min (length piece.now) (self.old.room - length self.old.written)) }
        ensures counts_call { self.new.calls ≡ counted self.old.calls 1 }
        ensures keeps_room { self.new.room ≡ self.old.room }
        ensures keeps_fails { self.new.fails ≡ self.old.fails }
        ensures keeps_empties { self.new.empties ≡ self.old.empties }

        ensures within { IfOk result (λ n. n ≤ length piece.now) }
        ensures appends { AppendsFront (Some self.old.written) (Some self.new.written) piece.now result }
        ensures counts_fault { CountsRefusal result piece.now self.old.faults self.new.faults }
        ensures never_falls { self.old.faults ≤ self.new.faults }
    {
        let number = self.log.next_call()?;
        let left = self.room - self.bytes.len();
        if left == 0 {
            return Err(self.log.fault());
        }
        if is_listed(self.empties.as_slice(), number) {
            self.log.fault();
            return Ok(0);
        }
        let count = piece.len().min(left);
        self.bytes.extend_from_slice(&piece[..count]).unwrap();
        Ok(count)
    }
}
