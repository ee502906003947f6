//! The forms of the words.
ghost use Rattle.std.specs.Prelude.{◌↔◌, IsTrue, MatchOption};
ghost use Rattle.pv_words.specs.Words.{NamesFile, IsVerify, NoVerify};

use crate::Words;

const VERIFY: &[u8] = b"verify";

const DASH: u8 = b'-';

/// Whether a word may name a file: it isn't empty, doesn't start with a dash, and is UTF-8.
fn names_file(word: &[u8]) -> bool
    ensures { IsTrue result ↔ NamesFile word.now }
{
    match word {
        [] => false,
        [first, ..] => *first != DASH && str::from_utf8(word).is_ok(),
    }
}

/// The file of the words `verify FILE`. None comes exactly where the words are not of that form.
pub fn file_to_verify(words: &Words) -> Option<&[u8]>
    ensures { MatchOption result (NoVerify words.now) (λ file. IsVerify words.now file.now) }
{
    let [command, file] = words.as_slice() else {
        return None;
    };
    if command.as_slice() == VERIFY && names_file(file.as_slice()) {
        Some(file.as_slice())
    } else {
        None
    }
}
