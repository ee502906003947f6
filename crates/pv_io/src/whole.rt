// A whole file into memory, and a whole piece into a sink.
ghost use Rattle.std.specs.Prelude.{◌≡◌, ◌≤◌, ◌<◌, ◌^◌, ◌↔◌, IsErrOf, IfSome};
ghost use Rattle.pv_io.specs.Whole.{Loads, CountsLoad, CountsLoadFault, CountsLoadTaken, AppendsWhole};
ghost use Rattle.pv_io.specs.Calls.{CountsFault};
ghost use Rattle.pv_io.specs.Count.{last_count};

use super::{Bytes, Failed, LoadFault, Shelf, Sink};
use sqlite_items::Items;
use std::alloc::Global;

const PIECE: usize = 4096;

/// All bytes of the file of that name, if they are at most `limit`.
///
/// It reads in pieces of at most 4,096 bytes, until the end or until `limit + 1` bytes were taken.
/// `NoFile` comes exactly where `open` answers false, `TooLarge` exactly where more than `limit`
/// bytes were taken, and `Failed` only where the count of faults rises. No file changes.
pub fn load<F: Shelf>(
    alloc: Global,
    shelf: &mut F,
    name: &[u8],
    limit: u32,
) -> Result<Bytes, LoadFault>
    requires hits_left { F.hits shelf.old < last_count }
    requires misses_left { F.misses shelf.old < last_count }
    ensures loads { IfSome (F.files shelf.old) (λ files. Loads (files name.now) limit result) }
    ensures keeps_files { F.files shelf.new ≡ F.files shelf.old }

    // exactly where `open` answered false, and exactly where more bytes were taken than may be
    ensures no_file { IsErrOf result LoadFault.NoFile ↔ (F.misses shelf.old < F.misses shelf.new) }
    ensures too_large { IsErrOf result LoadFault.TooLarge ↔ ((F.hits shelf.old < F.hits shelf.new) × (limit < F.taken shelf.new)) }

    ensures counts_opening { CountsLoad result (F.hits shelf.old) (F.misses shelf.old) (F.hits shelf.new) (F.misses shelf.new) }
    ensures counts_taken { CountsLoadTaken result limit (F.taken shelf.new) }
    ensures counts_fault { CountsLoadFault result (F.faults shelf.old) (F.faults shelf.new) }
    ensures never_falls { F.faults shelf.old ≤ F.faults shelf.new }
{
    if !shelf.open(name)? {
        return Err(LoadFault::NoFile);
    }
    load_rest(alloc, shelf, limit as usize)
}

// All unread bytes of the open file, if they are at most `limit`.
fn load_rest<F: Shelf>(alloc: Global, shelf: &mut F, limit: usize) -> Result<Bytes, LoadFault>
    requires fresh { F.taken shelf.old ≡ 0 }
    requires limit_fits { limit < 2 ^ 32 }
    ensures loads { IfSome (F.rest shelf.old) (λ rest. Loads (Some rest) limit result) }
    ensures found { ¬ IsErrOf result LoadFault.NoFile }
    ensures keeps_files { F.files shelf.new ≡ F.files shelf.old }
    ensures keeps_hits { F.hits shelf.new ≡ F.hits shelf.old }
    ensures keeps_misses { F.misses shelf.new ≡ F.misses shelf.old }
    ensures counts_taken { CountsLoadTaken result limit (F.taken shelf.new) }
    ensures counts_fault { CountsLoadFault result (F.faults shelf.old) (F.faults shelf.new) }
    ensures never_falls { F.faults shelf.old ≤ F.faults shelf.new }
{
    let mut bytes = Vec::new(alloc);
    let mut piece = [0; PIECE];
    loop {
        let wanted = PIECE.min(limit + 1 - bytes.len());
        let count = shelf.read(&mut piece[..wanted])?;
        if count == 0 {
            return Ok(Items::from_vec(bytes));
        }
        if count > limit - bytes.len() {
            return Err(LoadFault::TooLarge);
        }
        bytes.extend_from_slice(&piece[..count])?;
    }
}

/// Writes the whole piece, in as many calls as the sink needs. It fails only where the count of
/// faults rises, and then a prefix of the piece was appended. It takes no memory.
pub fn write_whole<W: Sink>(sink: &mut W, piece: &[u8]) -> Result<(), Failed>
    ensures appends { AppendsWhole (W.written sink.old) (W.written sink.new) piece.now result }
    ensures counts_fault { CountsFault result (W.faults sink.old) (W.faults sink.new) }
    ensures never_falls { W.faults sink.old ≤ W.faults sink.new }
{
    let mut rest = piece;
    while !rest.is_empty() {
        let count = sink.write(rest)?;
        if count == 0 {
            return Err(Failed);
        }
        rest = &rest[count..];
    }
    Ok(())
}
