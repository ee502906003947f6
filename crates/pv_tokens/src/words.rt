//! The reserved words and the symbols.

ghost use Rattle.std.specs.Prelude.{◌≡◌, ◌<◌, [], position, nat_eq, length, map, slice_index_or, IfSome};
ghost use Rattle.std.specs.List.{starts_with};
ghost use Rattle.std.specs.Cmp.Lexicographic.{pointwise};
ghost use Rattle.pv_tokens.specs.Words.{reserved, symbols};

static RESERVED: [&[u8]; 42] = [
    b"class",
    b"int",
    b"boolean",
    b"bool",
    b"void",
    b"resource",
    b"requires",
    b"ensures",
    b"context",
    b"loop_invariant",
    b"lock_invariant",
    b"if",
    b"else",
    b"while",
    b"for",
    b"par",
    b"barrier",
    b"fork",
    b"join",
    b"lock",
    b"unlock",
    b"commit",
    b"fold",
    b"unfold",
    b"assert",
    b"send",
    b"recv",
    b"return",
    b"new",
    b"null",
    b"this",
    b"true",
    b"false",
    b"Perm",
    b"write",
    b"idle",
    b"running",
    b"committed",
    b"uncommitted",
    b"run",
    b"wait",
    b"notify",
];

static SYMBOLS: [&[u8]; 26] = [
    b"==>", b"**", b"==", b"!=", b"<=", b">=", b"&&", b"||", b"..", b"{", b"}", b"(", b")", b"[",
    b"]", b";", b":", b",", b".", b"=", b"<", b">", b"+", b"-", b"*", b"!",
];

/// The place of a word in a table.
fn place_in(table: &[&[u8]], word: &[u8]) -> Option<usize>
    ensures { result ≡ position (λ t. pointwise nat_eq word.now t.now) table.now }
{
    table.iter().position(|t| word == *t)
}

/// The place of the first text of a table that stands in front of the bytes.
fn front_in(table: &[&[u8]], bytes: &[u8]) -> Option<usize>
    ensures { result ≡ position (λ t. starts_with nat_eq bytes.now t.now) table.now }
{
    table.iter().position(|t| bytes.starts_with(*t))
}

/// The number of a reserved word.
pub(crate) fn reserved_word(word: &[u8]) -> Option<usize>
    ensures place { result ≡ position (pointwise nat_eq word.now) reserved }
    ensures within { IfSome result (λ k. k < 42) }
{
    place_in(&RESERVED, word)
}

/// The place of the first symbol in front of the bytes.
pub(crate) fn symbol_place(bytes: &[u8]) -> Option<usize>
    ensures place { result ≡ position (λ s. starts_with nat_eq bytes.now s) symbols }
    ensures within { IfSome result (λ k. k < 26) }
{
    front_in(&SYMBOLS, bytes)
}

/// How long the text at a place of a table is.
fn text_len(table: &[&[u8]], k: usize) -> usize
    requires { k < length table.now }
    ensures { result ≡ length (slice_index_or (map (λ t. t.now) table.now) k []) }
{
    table[k].len()
}

/// How long the symbol at a place is.
pub(crate) fn symbol_len(k: usize) -> usize
    requires { k < 26 }
    ensures { result ≡ length (slice_index_or symbols k []) }
{
    text_len(&SYMBOLS, k)
}
