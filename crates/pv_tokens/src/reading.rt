//! A text is read from left to right, piece by piece.

ghost use Rattle.std.specs.Prelude.{◌≡◌, ◌≢◌, ◌⊎◌, ◌+◌, ◌-◌, ◌<◌, ◌≤◌, [], ◌∷◌, ◌++◌, List, ℕ, length, take, drop, codes, MatchOption, Any, IfOk, IfErr, IsOkAnd, IsErrOf, IsTrue, ◌↔◌};
ghost use Rattle.pv_tokens.specs.declared.Lexeme.{Lexeme};
ghost use Rattle.pv_tokens.specs.declared.TokenFault.{TokenFault};
ghost use Rattle.pv_names.specs.Numbering.{Extends};
ghost use Rattle.pv_tokens.specs.Bytes.{decimal, most, most_bytes};
ghost use Rattle.pv_tokens.specs.Pieces.{Shows, FitsIn};
ghost use Rattle.pv_tokens.specs.Progress.{Step, Steps, Stops, IsTokens, IsFault, progress};
ghost use Rattle.pv_tokens.specs.Lexemes.{InOrder, AreWithin, IsNumberOf};

use crate::pieces::{Piece, piece_of};
use crate::{Lexeme, LexemeKind, TokenFault, Tokens};
use pv_base::{Name, Span};
use pv_names::Names;
use sqlite_items::Items;
use std::alloc::{AllocError, Global};

/// The greatest number that a text may have.
const MOST: u64 = 9_223_372_036_854_775_807;

/// The number that the digits write, where it is not too great.
fn number(digits: &[u8]) -> Option<u64>
    ensures { MatchOption result (most < decimal digits.now) (λ n. (n ≡ decimal digits.now) × (n ≤ most)) }
{
    let mut n: u64 = 0;
    for b in digits {
        let digit = u64::from(b.saturating_sub(b'0'));
        if n > (MOST - digit) / 10 {
            return None;
        }
        n = 10 * n + digit;
    }
    Some(n)
}

/// What stands at a place of a text.
fn piece_at(text: &[u8], at: usize) -> Piece
    requires { at < length text.now }
    ensures shows { Shows (drop at text.now) result }
    ensures fits { FitsIn (length text.now - at) result }
{
    piece_of(&text[at..])
}

/// The n bytes from a place on.
fn part(text: &[u8], at: usize, n: usize) -> &[u8]
    requires { at + n ≤ length text.now }
    ensures { result.now ≡ take n (drop at text.now) }
{
    &text[at..at + n]
}

/// Puts the token of n bytes last, and answers where it ends.
fn put(
    lexemes: &mut Items<Lexeme>,
    kind: LexemeKind,
    at: usize,
    n: usize,
) -> Result<usize, AllocError>
    requires { at + n ≤ most_bytes }
    ensures to { IfOk result (λ to. to ≡ at + n) }
    ensures list { IfOk result (λ _. lexemes.new ≡ lexemes.old
        ++ record { kind = kind; span = record { from = at; to = at + n } } ∷ []) }
{
    let span = Span {
        from: at as u32,
        to: (at + n) as u32,
    };
    lexemes.push(Lexeme { kind, span })?;
    Ok(at + n)
}

/// Reads the piece at a place, and answers the place behind it.
fn read_piece(
    text: &[u8],
    at: usize,
    names: &mut Names,
    lexemes: &mut Items<Lexeme>,
) -> Result<usize, TokenFault>
    requires short { length text.now ≤ most_bytes }
    requires within { at < length text.now }
    ensures step { IfOk result (λ to. Step text.now (progress at names.old lexemes.old) (progress to names.new lexemes.new)) }
    ensures to { IfOk result (λ to. (at < to) × (to ≤ length text.now)) }
    ensures stop { IfErr result (λ e. e ≢ TokenFault.NoMemory → Stops text.now (progress at names.old lexemes.old) e) }
    ensures names { Extends names.old names.new }
{
    match piece_at(text, at) {
        Piece::Blank(n) => Ok(at + n),
        Piece::Fixed(k, n) => Ok(put(lexemes, LexemeKind::Fixed(k), at, n)?),
        Piece::Number(n) => match number(part(text, at, n)) {
            Some(value) => Ok(put(lexemes, LexemeKind::Number(value), at, n)?),
            None => Err(TokenFault::BadNumber(at as u32)),
        },
        Piece::Word(n) => {
            let name = names.intern(part(text, at, n))?;
            Ok(put(lexemes, LexemeKind::Named(name), at, n)?)
        }
        Piece::OpenComment => Err(TokenFault::OpenComment(at as u32)),
        Piece::Nothing => Err(TokenFault::BadByte(at as u32)),
    }
}

/// Reads the whole text.
fn read_all(alloc: Global, text: &[u8], names: &mut Names) -> Result<Items<Lexeme>, TokenFault>
    requires { length text.now ≤ most_bytes }
    ensures tokens { IfOk result (λ items. IsTokens text.now names.old items names.new) }
    ensures fault { IfErr result (λ e. e ≢ TokenFault.NoMemory → IsFault text.now names.old e) }
    ensures names { Extends names.old names.new }
{
    let mut lexemes = Items::new(alloc);
    let mut at = 0;
    while at < text.len() {
        at = read_piece(text, at, names, &mut lexemes)?;
    }
    Ok(lexemes)
}

/// Whether the name is among the tokens.
fn has_name(lexemes: &[Lexeme], name: Name) -> bool
    ensures { IsTrue result ↔ Any (λ x. x.kind ≡ LexemeKind.Named name) lexemes.now }
{
    lexemes.iter().any(|x| x.kind == LexemeKind::Named(name))
}

/// The number of the word `length`, where it is among the tokens.
fn length_name(names: &Names, lexemes: &[Lexeme]) -> Option<Name>
    ensures { IsNumberOf names.now (codes "length") lexemes.now result }
{
    let name = names.find(b"length")?;
    if has_name(lexemes, name) {
        Some(name)
    } else {
        None
    }
}

/// The tokens of a text, with its names put into the list. The fault is the first in the text; a name for which there is no number
/// left is one at its place. The list keeps its names, and the new ones stand behind them, after an `Err` too. It takes time linear in
/// the text.
pub fn tokens(alloc: Global, text: &[u8], names: &mut Names) -> Result<Tokens, TokenFault>
    requires { length text.now ≤ most_bytes }

    // What is answered is so.
    ensures tokens { IfOk result (λ ts. IsTokens text.now names.old ts.items names.new) }
    ensures fault { IfErr result (λ e. e ≢ TokenFault.NoMemory → IsFault text.now names.old e) }

    // What is so is answered, unless memory runs out: a text has one list of tokens, or one fault.
    ensures accepts { (xs : List Lexeme) (after : List (List ℕ)) → IsTokens text.now names.old xs after
        → IsOkAnd result (λ ts. (ts.items ≡ xs) × (names.new ≡ after)) ⊎ IsErrOf result TokenFault.NoMemory }
    ensures refuses { (e : TokenFault) → IsFault text.now names.old e
        → IsErrOf result e ⊎ IsErrOf result TokenFault.NoMemory }

    // The names of before stay, each at its number, whatever is answered.
    ensures names { Extends names.old names.new }

    // What holds of the tokens of every text.
    ensures length { IfOk result (λ ts. IsNumberOf names.new (codes "length") ts.items ts.length) }
    ensures spans { IfOk result (λ ts. InOrder 0 ts.items (length text.now)) }
    ensures numbers { IfOk result (λ ts. AreWithin ts.items) }
    ensures few { IfOk result (λ ts. length ts.items ≤ length text.now) }
    ensures end { IfOk result (λ ts. ts.end ≡ length text.now) }
{
    let items = read_all(alloc, text, names)?;
    let length = length_name(names, items.as_slice());
    let end = text.len() as u32;
    Ok(Tokens { items, length, end })
}
