//! The tokens of texts, and their first faults.
ghost use Rattle.std.specs.Prelude.{◌≤◌, length};
ghost use Rattle.pv_tokens.specs.Bytes.{most_bytes};

use pv_base::{Name, Span};
use pv_names::Names;
use pv_tokens::reading::tokens;
use pv_tokens::{LexemeKind, TokenFault, Tokens, fixed};
use std::alloc::{AllocError, Global};
use std::process::Abort;
use std::test::Fail;

fn read(alloc: Global, text: &[u8]) -> Result<Tokens, TokenFault>
    requires { length text.now ≤ most_bytes }
{
    let mut names = Names::new(alloc);
    tokens(alloc, text, &mut names)
}

fn expect_kinds(
    rt: &impl Abort,
    alloc: Global,
    text: &[u8],
    wanted: &[LexemeKind],
) -> Result<(), Fail>
    requires { length text.now ≤ most_bytes }
{
    let found = read(alloc, text)?;
    assert_eq!(rt; found.len(), wanted.len());
    for (x, y) in found.items.as_slice().iter().zip(wanted) {
        assert_eq!(rt; x.kind, *y);
    }
    Ok(())
}

fn expect_fault(rt: &impl Abort, alloc: Global, text: &[u8], wanted: TokenFault)
    requires { length text.now ≤ most_bytes }
{
    match read(alloc, text) {
        Ok(_) => assert!(rt; false),
        Err(fault) => assert_eq!(rt; fault, wanted),
    }
}

#[test]
fn each_kind_of_token(rt: HostRuntime) -> Result<(), Fail> {
    let a = LexemeKind::Named(Name(0));
    let b = LexemeKind::Named(Name(1));
    expect_kinds(&rt, rt.alloc(), b"a b a // a b\n b", &[a, b, a, b])?;
    expect_kinds(&rt, rt.alloc(), b"/*@ a /* b */ b @*/ //@ a", &[a, b, a])?;
    expect_kinds(
        &rt,
        rt.alloc(),
        b"class lock_invariant\tnotify a",
        &[
            LexemeKind::Fixed(fixed::CLASS),
            LexemeKind::Fixed(fixed::LOCK_INVARIANT),
            LexemeKind::Fixed(fixed::NOTIFY),
            a,
        ],
    )?;
    expect_kinds(
        &rt,
        rt.alloc(),
        b"007 9223372036854775807",
        &[
            LexemeKind::Number(7),
            LexemeKind::Number(9_223_372_036_854_775_807),
        ],
    )?;
    expect_kinds(
        &rt,
        rt.alloc(),
        b"==>==**\\..\\old",
        &[
            LexemeKind::Fixed(fixed::IMPLIES),
            LexemeKind::Fixed(fixed::EQUAL),
            LexemeKind::Fixed(fixed::STAR_STAR),
            LexemeKind::Fixed(fixed::BACKSLASH),
            LexemeKind::Fixed(fixed::DOTS),
            LexemeKind::Fixed(fixed::OLD),
        ],
    )
}

#[test]
fn words_behind_a_backslash(rt: HostRuntime) -> Result<(), Fail> {
    let backslash = LexemeKind::Fixed(fixed::BACKSLASH);
    expect_kinds(
        &rt,
        rt.alloc(),
        b"\\forall*\\forall *\\result\\results",
        &[
            LexemeKind::Fixed(fixed::FORALL_STAR),
            LexemeKind::Fixed(fixed::FORALL),
            LexemeKind::Fixed(fixed::STAR),
            LexemeKind::Fixed(fixed::RESULT),
            backslash,
            LexemeKind::Named(Name(0)),
        ],
    )?;
    expect_kinds(
        &rt,
        rt.alloc(),
        b"\\1result",
        &[backslash, LexemeKind::Number(1), LexemeKind::Named(Name(0))],
    )
}

#[test]
fn first_faults(rt: HostRuntime) {
    expect_fault(&rt, rt.alloc(), b"a /*/", TokenFault::OpenComment(2));
    expect_fault(&rt, rt.alloc(), b"/*@*/", TokenFault::BadByte(4));
    expect_fault(
        &rt,
        rt.alloc(),
        b"x # 9223372036854775808",
        TokenFault::BadByte(2),
    );
    expect_fault(
        &rt,
        rt.alloc(),
        b"x 9223372036854775808 #",
        TokenFault::BadNumber(2),
    );
    expect_fault(&rt, rt.alloc(), b"a & b", TokenFault::BadByte(2));
}

#[test]
fn spans_and_the_word_length(rt: HostRuntime) -> Result<(), Fail> {
    let found = read(rt.alloc(), b"/*/ x */ e.length")?;
    assert_eq!(rt; found.len(), 3);
    assert_eq!(rt; found.length, Some(Name(1)));
    let last = found.get(2).ok_or("three tokens")?;
    assert_eq!(rt; last.span, Span { from: 11, to: 17 });
    assert_eq!(rt; read(rt.alloc(), b"lengths")?.length, None);
    Ok(())
}

// Five letters, another word for each number below 65,537.
fn push_word(text: &mut Vec<u8>, number: u32) -> Result<(), AllocError> {
    let mut left = number;
    for _ in 0..5 {
        text.push(b"qrstuvwxyzabcdef"[(left % 16) as usize])?;
        left /= 16;
    }
    text.push(b' ')?;
    Ok(())
}

#[test]
fn one_name_too_many(rt: HostRuntime) -> Result<(), Fail> {
    let mut text = Vec::new(rt.alloc());
    for number in 0..65_537 {
        push_word(&mut text, number)?;
    }
    assert!(rt; text.len() <= 1_048_576);
    expect_fault(&rt, rt.alloc(), text.as_slice(), TokenFault::Full);
    text.truncate(6 * 65_536);
    let found = read(rt.alloc(), text.as_slice())?;
    assert_eq!(rt; found.len(), 65_536);
    Ok(())
}
