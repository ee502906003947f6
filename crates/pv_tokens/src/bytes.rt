//! The kinds of bytes, and how far a run of one kind goes.

ghost use Rattle.std.specs.Prelude.{◌≡◌, ◌≤◌, length};
ghost use Rattle.std.specs.List.{prefix_len};
ghost use Rattle.pv_tokens.specs.Bytes.{is_letter, is_digit, is_word_byte, is_in_line, class_of};

/// What a byte may begin.
#[derive(Clone, Copy, Debug, PartialEq, Eq, Drop)]
pub enum Class {
    Space,
    Letter,
    Digit,
    Slash,
    At,
    Backslash,
    Other,
}

fn is_letter(b: u8) -> bool
    ensures { result ≡ is_letter b }
{
    b.is_ascii_lowercase() || b.is_ascii_uppercase() || b == b'_'
}

fn is_digit(b: u8) -> bool
    ensures { result ≡ is_digit b }
{
    b.is_ascii_digit()
}

fn is_word_byte(b: u8) -> bool
    ensures { result ≡ is_word_byte b }
{
    is_letter(b) || is_digit(b)
}

/// What a byte may begin.
#[tactic(auto, unfolding(crate::specs::Bytes::class_of))]
pub(crate) fn class_of(b: u8) -> Class
    ensures { result ≡ class_of b }
{
    if b == 9 || b == 10 || b == 13 || b == 32 {
        return Class::Space;
    }
    if is_letter(b) {
        return Class::Letter;
    }
    if is_digit(b) {
        return Class::Digit;
    }
    match b {
        b'/' => Class::Slash,
        b'@' => Class::At,
        b'\\' => Class::Backslash,
        _ => Class::Other,
    }
}

/// How many bytes of words stand in front.
pub(crate) fn word_len(bytes: &[u8]) -> usize
    ensures value { result ≡ prefix_len is_word_byte bytes.now }
    ensures within { result ≤ length bytes.now }
{
    bytes.iter().take_while(|b| is_word_byte(**b)).count()
}

/// How many digits stand in front.
pub(crate) fn digits_len(bytes: &[u8]) -> usize
    ensures value { result ≡ prefix_len is_digit bytes.now }
    ensures within { result ≤ length bytes.now }
{
    bytes.iter().take_while(|b| is_digit(**b)).count()
}

/// How many bytes stand before the end of the line.
pub(crate) fn line_len(bytes: &[u8]) -> usize
    ensures value { result ≡ prefix_len is_in_line bytes.now }
    ensures within { result ≤ length bytes.now }
{
    bytes.iter().take_while(|b| **b != b'\n').count()
}
