//! Tokens by their number, and where a fault stands in the text.
ghost use Rattle.std.specs.Prelude.{◌≡◌, ◌≤◌, ◌-◌, drop, length};
ghost use Rattle.pv_reading.specs.Marks.{place_of};
ghost use Rattle.pv_reading.specs.Given.{fault_at};

use crate::fault::{ParseFault, ReadFault};
use pv_base::Span;
use pv_tokens::{Lexeme, Tokens};

/// The tokens from that one on.
pub fn tokens_from(tokens: &Tokens, from: u32) -> &[Lexeme]
    requires { from ≤ length tokens.now.items }
    ensures { result.now ≡ drop from tokens.now.items }
{
    &tokens.items.as_slice()[from as usize..]
}

/// Where the token stands that is so many tokens (`left`) before the end; the end of the text where that is none.
pub fn place(tokens: &[Lexeme], end: u32, left: usize) -> Span
    ensures { result ≡ place_of end (drop (length tokens.now - left) tokens.now) }
{
    match tokens.get(tokens.len().saturating_sub(left)) {
        Some(token) => token.span,
        None => Span { from: end, to: end },
    }
}

/// A fault of the readers, with its place in the text.
pub fn placed(tokens: &[Lexeme], end: u32, fault: ReadFault) -> ParseFault
    ensures { result ≡ fault_at end tokens.now fault }
{
    match fault {
        ReadFault::Unexpected(left) => ParseFault::Unexpected(place(tokens, end, left)),
        ReadFault::TooDeep(left) => ParseFault::TooDeep(place(tokens, end, left)),
        ReadFault::NoMemory => ParseFault::NoMemory,
    }
}
