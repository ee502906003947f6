//! The tokens of a text, by longest match from left to right. `reading::tokens` takes time linear in the text: a word is compared with
//! the 42 reserved ones, a symbol with the 26 texts of the table, and a name is looked up by its hash.
#![tactic(auto)]

ghost use Rattle.std.specs.Prelude.{◌≡◌, [], ◌∷◌, ◌++◌, None, length, slice_get, OnOk, OnErr};
ghost use Rattle.std.specs.Option.{option_copied};

use pv_base::{Name, NoMemory, Span};
use pv_names::NamesFault;
use sqlite_items::Items;
use std::alloc::{AllocError, AllocFailed, Global};
use thiserror::Error;

mod bytes;
pub mod fixed;
mod laws;
mod pieces;
pub mod reading;
mod words;

pub use laws::{numbers_are_places, one_reading};

/// What a token is: a name, a number, or the reserved word or symbol of that number in `fixed`.
#[derive(Clone, Copy, Debug, PartialEq, Eq, Drop)]
pub enum LexemeKind {
    Named(Name),
    Number(u64),
    Fixed(u32),
}

/// A token where it stands.
#[derive(Clone, Copy, Debug, PartialEq, Eq, Drop)]
pub struct Lexeme {
    pub kind: LexemeKind,
    pub span: Span,
}

/// The first fault of a text, where it stands.
#[derive(Clone, Copy, Debug, PartialEq, Eq, Drop, Error)]
pub enum TokenFault {
    /// A byte at which no space, comment or token starts.
    #[error("no token starts at byte {0}")]
    BadByte(u32),
    /// The first digit of a number above 9223372036854775807.
    #[error("the number at byte {0} is too great")]
    BadNumber(u32),
    /// The start of a block comment without an end.
    #[error("the comment at byte {0} has no end")]
    OpenComment(u32),
    /// A new name where 65,536 names stand.
    #[error("more than 65536 names")]
    Full,
    #[error("out of memory")]
    NoMemory,
}

impl From<AllocError> for TokenFault {
    ghost use Rattle.std.specs.Prelude.{◌≡◌};
    ghost use Rattle.pv_tokens.specs.declared.TokenFault.TheVariants.{NoMemory};

    ghost from_gives = { λ _ e. e ≡ NoMemory };

    fn from(_: AllocError) -> TokenFault {
        TokenFault::NoMemory
    }
}

impl From<NamesFault> for TokenFault {
    ghost use Rattle.pv_tokens.specs.Faults.{IsSameFault};

    ghost from_gives = { IsSameFault };

    fn from(fault: NamesFault) -> TokenFault {
        match fault {
            NamesFault::Full => TokenFault::Full,
            NamesFault::NoMemory => TokenFault::NoMemory,
        }
    }
}

/// The tokens of a text.
#[derive(Drop)]
pub struct Tokens {
    pub items: Items<Lexeme>,
    /// The number of the word `length`, where the text has it.
    pub length: Option<Name>,
    /// The length of the text, where a fault at its end stands.
    pub end: u32,
}

impl Tokens {
    /// No tokens, in a text of that length.
    pub fn new(alloc: Global, end: u32) -> Tokens
        ensures { result ≡ record { items = []; length = None; end = end } }
    {
        Tokens {
            items: Items::new(alloc),
            length: None,
            end,
        }
    }

    /// Puts a token last. On an `Err` the list is as before.
    pub fn push(&mut self, item: Lexeme) -> Result<(), NoMemory>
        ensures ok { OnOk result (self.new ≡ record self.old { items = self.old.items ++ item ∷ [] }) }
        ensures err { OnErr result (self.new ≡ self.old) }
    {
        self.items.push(item)?;
        Ok(())
    }

    /// How many tokens there are.
    pub fn len(&self) -> usize
        ensures { result ≡ length self.now.items }
    {
        self.items.len()
    }

    /// The token at a place, where there is one.
    pub fn get(&self, at: usize) -> Option<&Lexeme>
        ensures { option_copied result ≡ slice_get self.now.items at }
    {
        self.items.get(at)
    }
}
