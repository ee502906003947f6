// Where named files are read, and where bytes are written.
ghost use Rattle.std.specs.Prelude.{◌≡◌, ◌≤◌, ℕ, List, Option, IfOk, length};
ghost use Rattle.pv_io.specs.Calls.{NamedBytes, OpensFile, KeepsRest, CountsOpening, ReadsRest, CountsTaken, CountsFault, AppendsFront, CountsRefusal};

use super::Failed;

/// Files that are read by name, one at a time.
///
/// Its meanings are `files`, which bytes stand under each name, and `rest`, the bytes of the open
/// file that are still unread, where they are told; and counters of 64 bits that stand still at
/// their last value: `faults`, the calls that failed; `hits` and `misses`, the calls of `open` that
/// answered true and false; `taken`, the bytes that `read` gave since the last call of `open`.
pub trait Shelf {
    ghost files: { Self → Option NamedBytes };

    ghost rest: { Self → Option (List ℕ) };

    ghost faults: { Self → ℕ };

    ghost hits: { Self → ℕ };

    ghost misses: { Self → ℕ };

    ghost taken: { Self → ℕ };

    /// Whether there is a file of that name, which is then started at its first byte. Where it is
    /// not, what was open stays so. It fails only where the count of faults rises. No file changes.
    fn open(&mut self, name: &[u8]) -> Result<bool, Failed>
        ensures opens { OpensFile (files self.old) name.now result (rest self.new) }
        ensures keeps_rest { KeepsRest result (rest self.old) (rest self.new) }
        ensures keeps_files { files self.new ≡ files self.old }
        ensures counts_opening { CountsOpening result (hits self.old) (misses self.old) (hits self.new) (misses self.new) }
        ensures counts_taken { taken self.new ≡ 0 }
        ensures counts_fault { CountsFault result (faults self.old) (faults self.new) }
        ensures never_falls { faults self.old ≤ faults self.new };

    /// Moves so many first bytes of the rest into the front of the piece; 0 for a piece that is not
    /// empty only at the end of the rest. It fails only where the count of faults rises, and then
    /// the rest stays. No file changes.
    fn read(&mut self, piece: &mut [u8]) -> Result<usize, Failed>
        ensures within { IfOk result (λ n. n ≤ length piece.new) }
        ensures reads { ReadsRest (rest self.old) (rest self.new) piece.new result }
        ensures keeps_files { files self.new ≡ files self.old }
        ensures keeps_hits { hits self.new ≡ hits self.old }
        ensures keeps_misses { misses self.new ≡ misses self.old }
        ensures counts_taken { CountsTaken result (taken self.old) (taken self.new) }
        ensures counts_fault { CountsFault result (faults self.old) (faults self.new) }
        ensures never_falls { faults self.old ≤ faults self.new };
}

/// Takes bytes, one piece after the other.
///
/// Its meanings are `written`, all bytes taken, where they are told, and `faults`, a counter of 64
/// bits that stands still at its last value: the calls that failed or took nothing of a piece that
/// was not empty.
pub trait Sink {
    ghost written: { Self → Option (List ℕ) };

    ghost faults: { Self → ℕ };

    /// Appends so many first bytes of the piece to those written. It fails, and takes nothing of a
    /// piece that is not empty, only where the count of faults rises; where it fails nothing is
    /// appended.
    fn write(&mut self, piece: &[u8]) -> Result<usize, Failed>
        ensures within { IfOk result (λ n. n ≤ length piece.now) }
        ensures appends { AppendsFront (written self.old) (written self.new) piece.now result }
        ensures counts_fault { CountsRefusal result piece.now (faults self.old) (faults self.new) }
        ensures never_falls { faults self.old ≤ faults self.new };
}
