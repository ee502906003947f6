//! The call.
ghost use Rattle.std.specs.Prelude.{◌≡◌, ◌<◌, ◌≤◌};
ghost use Rattle.pv_tokens.specs.Bytes.{most_bytes};
ghost use Rattle.pv_io.specs.Count.{HasRisen, last_count};
ghost use Rattle.pv_words.specs.Words.{NoVerify};
ghost use Rattle.vercors.specs.Answers.{IsOfText, IsCountedAnswer, ReadsText, Delivers, ComesExactly};

use crate::answering::answer_to;
use crate::ending::Status;
use pv_io::{Shelf, Sink, write_whole};
use pv_words::Words;
use std::alloc::Global;

/// Does what the words say, with the files of the shelf, writes the output to the sink, and answers how it ended.
///
/// The one form of the words is `verify FILE`, which gives a verdict on each method of a small program. A text that spells none,
/// or one with faults, is answered by its refusal, with its place. A stage that refuses stops the rest: the words; the opening of the file, its
/// reading, its size; the text; the verdicts; the writing. The output is made whole before the first byte is written, and no
/// memory is taken after that.
pub fn vercors<F: Shelf, W: Sink>(
    alloc: Global,
    words: &Words,
    shelf: &mut F,
    out: &mut W,
) -> Status
    requires hits_left { F.hits shelf.old < last_count }
    requires misses_left { F.misses shelf.old < last_count }

    // What passed is safe; a text is refused exactly where it spells no small program without faults, a program exactly where
    // some run fails.
    ensures text { IsOfText result → ReadsText (F.files shelf.old) words.now result }

    // The bytes that are written: those of the right answer, a prefix of them where the writing failed, or none. That answer's
    // status agrees with what the shelf counted, also where the writing failed.
    ensures output { Delivers (IsCountedAnswer (F.files shelf.old) words.now (F.misses shelf.old < F.misses shelf.new) ((F.hits shelf.old < F.hits shelf.new) × (most_bytes < F.taken shelf.new)) (HasRisen (F.faults shelf.old) (F.faults shelf.new))) result (W.written out.old) (W.written out.new) }

    // When each refusal comes.
    ensures words_wrong { ComesExactly result Status.WordsWrong (NoVerify words.now) }
    ensures no_file { ComesExactly result Status.NoFile (F.misses shelf.old < F.misses shelf.new) }
    ensures too_large { ComesExactly result Status.TooLarge ((F.hits shelf.old < F.hits shelf.new) × (most_bytes < F.taken shelf.new)) }
    ensures read_fault { result ≡ Status.ReadFault → HasRisen (F.faults shelf.old) (F.faults shelf.new) }
    ensures write_fault { result ≡ Status.WriteFault → HasRisen (W.faults out.old) (W.faults out.new) }

    // Wrong words leave the shelf alone.
    ensures unasked { NoVerify words.now → shelf.new ≡ shelf.old }

    ensures keeps_files { F.files shelf.new ≡ F.files shelf.old }
    ensures shelf_never_falls { F.faults shelf.old ≤ F.faults shelf.new }
    ensures sink_never_falls { W.faults out.old ≤ W.faults out.new }
{
    let Ok(answer) = answer_to(alloc, words, shelf) else {
        return Status::NoMemory;
    };
    match write_whole(out, answer.output.as_slice()) {
        Ok(()) => answer.status,
        Err(_) => Status::WriteFault,
    }
}
