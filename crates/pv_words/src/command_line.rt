//! The words that the system hands over.
ghost use Rattle.std.specs.Prelude.{◌≡◌, ◌≢◌, [], IfErr, IsErr, Ok};
ghost use Rattle.std.specs.IoError.{error_kind};

use crate::Words;
use pv_base::NoMemory;
use sqlite_items::Items;
use std::alloc::Global;
use std::env::Args;
use std::io;
use std::io::ErrorKind;

/// The words of a command line, without the program's own name. Where they couldn't be read, as where one of them isn't UTF-8,
/// there are none: no form of the words has none.
pub fn words_of(alloc: Global, line: io::Result<Args>) -> Result<Words, NoMemory>
    ensures unread { IfErr line (λ e. error_kind e ≢ ErrorKind.OutOfMemory → result ≡ Ok []) }
    ensures no_memory { IfErr line (λ e. error_kind e ≡ ErrorKind.OutOfMemory → IsErr result) }
{
    let mut words = Words::new(alloc);
    match line {
        Ok(args) => {
            for word in args.skip(1) {
                words.push(Items::from_slice(alloc, word.as_bytes())?)?;
            }
        }
        Err(error) if error.kind() == ErrorKind::OutOfMemory => return Err(NoMemory),
        Err(_) => {}
    }
    Ok(words)
}
