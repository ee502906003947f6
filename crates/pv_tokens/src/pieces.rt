//! What stands at the front of bytes.

ghost use Rattle.std.specs.Prelude.{◌≡◌, ◌+◌, ◌<◌, ◌≤◌, length, drop, codes, IsTrue, IfSome};
ghost use Rattle.pv_tokens.specs.Pieces.{starts};
ghost use Rattle.pv_tokens.specs.Reading.{comment_len, slash_piece, at_piece, word_piece, forall_piece, backslash_piece, symbol_piece, piece_of};

use crate::bytes::{Class, class_of, digits_len, line_len, word_len};
use crate::fixed;
use crate::words::{reserved_word, symbol_len, symbol_place};

/// What stands at the front of bytes, and how many bytes it takes.
#[derive(Clone, Copy, Debug, PartialEq, Eq, Drop)]
pub enum Piece {
    /// A space or a comment.
    Blank(usize),
    /// A word that is not reserved.
    Word(usize),
    /// A run of digits.
    Number(usize),
    /// The reserved word or symbol of that number.
    Fixed(u32, usize),
    /// A block comment without an end.
    OpenComment,
    /// No space, comment or token.
    Nothing,
}

/// Whether a block comment ends at the place.
fn closes_at(bytes: &[u8], at: usize) -> bool
    requires { at ≤ length bytes.now }
    ensures value { result ≡ starts (drop at bytes.now) (codes "*/") }
    ensures within { IsTrue result → at + 2 ≤ length bytes.now }
{
    bytes[at..].starts_with(b"*/")
}

/// How many bytes there are up to the end of a block comment and with it.
fn comment_len(bytes: &[u8]) -> Option<usize>
    ensures value { result ≡ comment_len bytes.now }
    ensures within { IfSome result (λ n. n ≤ length bytes.now) }
{
    for i in 0..bytes.len() {
        if closes_at(bytes, i) {
            return Some(i + 2);
        }
    }
    None
}

#[tactic(auto, unfolding(crate::specs::Reading::slash_piece))]
fn slash_piece(bytes: &[u8]) -> Piece
    ensures { result ≡ slash_piece bytes.now }
{
    if bytes.starts_with(b"//@") || bytes.starts_with(b"/*@") {
        return Piece::Blank(3);
    }
    if bytes.starts_with(b"//") {
        return Piece::Blank(2 + line_len(&bytes[2..]));
    }
    if !bytes.starts_with(b"/*") {
        return Piece::Nothing;
    }
    match comment_len(&bytes[2..]) {
        Some(n) => Piece::Blank(2 + n),
        None => Piece::OpenComment,
    }
}

#[tactic(auto, unfolding(crate::specs::Reading::at_piece))]
fn at_piece(bytes: &[u8]) -> Piece
    ensures { result ≡ at_piece bytes.now }
{
    if bytes.starts_with(b"@*/") {
        Piece::Blank(3)
    } else {
        Piece::Nothing
    }
}

#[tactic(auto, unfolding(crate::specs::Reading::word_piece))]
fn word_piece(bytes: &[u8]) -> Piece
    ensures { result ≡ word_piece bytes.now }
{
    let n = word_len(bytes);
    match reserved_word(&bytes[..n]) {
        Some(k) => Piece::Fixed(k as u32, n),
        None => Piece::Word(n),
    }
}

/// The piece whose first seven bytes were read.
#[tactic(auto, unfolding(crate::specs::Reading::forall_piece))]
fn forall_piece(bytes: &[u8]) -> Piece
    requires { 7 ≤ length bytes.now }
    ensures { result ≡ forall_piece bytes.now }
{
    if bytes[7..].starts_with(b"*") {
        Piece::Fixed(fixed::FORALL_STAR, 8)
    } else {
        Piece::Fixed(fixed::FORALL, 7)
    }
}

#[tactic(auto, unfolding(crate::specs::Reading::backslash_piece))]
fn backslash_piece(bytes: &[u8]) -> Piece
    requires { 0 < length bytes.now }
    ensures { result ≡ backslash_piece bytes.now }
{
    let behind = &bytes[1..];
    let word = &behind[..word_len(behind)];
    if word == b"result".as_slice() {
        return Piece::Fixed(fixed::RESULT, 7);
    }
    if word == b"old".as_slice() {
        return Piece::Fixed(fixed::OLD, 4);
    }
    if word == b"forall".as_slice() {
        return forall_piece(bytes);
    }
    Piece::Fixed(fixed::BACKSLASH, 1)
}

#[tactic(auto, unfolding(crate::specs::Reading::symbol_piece))]
fn symbol_piece(bytes: &[u8]) -> Piece
    ensures { result ≡ symbol_piece bytes.now }
{
    match symbol_place(bytes) {
        Some(k) => Piece::Fixed(fixed::IMPLIES + k as u32, symbol_len(k)),
        None => Piece::Nothing,
    }
}

/// What stands at the front.
#[tactic(auto, unfolding(crate::specs::Reading::piece_of))]
pub(crate) fn piece_of(bytes: &[u8]) -> Piece
    ensures { result ≡ piece_of bytes.now }
{
    let Some(first) = bytes.first() else {
        return Piece::Nothing;
    };
    match class_of(*first) {
        Class::Space => Piece::Blank(1),
        Class::Letter => word_piece(bytes),
        Class::Digit => Piece::Number(digits_len(bytes)),
        Class::Slash => slash_piece(bytes),
        Class::At => at_piece(bytes),
        Class::Backslash => backslash_piece(bytes),
        Class::Other => symbol_piece(bytes),
    }
}
