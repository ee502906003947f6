ghost use Rattle.std.specs.Prelude.{◌≡◌, IfOk};

use crate::call::vercors;
use crate::ending::Status;
use pv_io::{Bytes, FileEntry, Files, MemoryShelf, MemorySink};
use pv_words::Words;
use sqlite_items::Items;
use std::alloc::{AllocError, Global};
use std::test::Fail;

const USAGE: &[u8] =
    b"usage: vercors verify FILE | run FILE SCHEDULE | explain FILE UNIT | big N\n";

const NEXT: &[u8] = b"class Abs {
  requires 0 <= x;
  ensures \\result == x + 1;
  int next(int x) {
    int y = x + 1;
    assert 1 <= y;
    return y;
  }
}
";

const FAILING: &[u8] = b"class Abs {
  requires 0 <= x;
  ensures \\result == x + 1;
  int next(int x) {
    int y = x + 1;
    assert 2 <= y;
    return y;
  }
}
";

const TWO_FAIL: &[u8] =
    b"class C {\n  void a() { assert 1 < 0; }\n  void b() { assert 0 < 0; }\n}\n";

const TWO_CLASSES: &[u8] = b"class C {\n  void a() { }\n}\nclass D {\n  int b() { return 1; }\n}\n";

const UNMET: &[u8] = b"class Abs {
  requires 0 <= x && x < 0;
  ensures \\result == x + 1;
  int next(int x) {
    return x;
  }
}
";

const LOOPING: &[u8] = b"class Abs {
  int next(int x) {
    while (1 <= x) { }
    return x;
  }
}
";

const GROUPED: &[u8] = b"class Abs {
  ensures \\result == (x + (1));
  int next(int x) {
    return x + 1;
  }
}
";

/// The calls of the shelf and of the sink that fail, and those of the sink that take nothing.
#[derive(Clone, Copy)]
pub(crate) struct Faults<'a> {
    reads: &'a [u64],
    writes: &'a [u64],
    empties: &'a [u64],
}

pub(crate) const NONE: Faults = Faults {
    reads: &[],
    writes: &[],
    empties: &[],
};

fn shelf(alloc: Global, text: &[u8], fails: &[u64]) -> Result<MemoryShelf, AllocError>
    ensures hits { IfOk result (λ shelf. shelf.hits ≡ 0) }
    ensures misses { IfOk result (λ shelf. shelf.misses ≡ 0) }
{
    let mut files = Files::new(alloc);
    files.push(FileEntry {
        name: Items::from_slice(alloc, b"next.pvl")?,
        bytes: Items::from_slice(alloc, text)?,
    })?;
    Ok(MemoryShelf::new(alloc, files, Items::from_slice(alloc, fails)?))
}

fn words_of(alloc: Global, words: &[&[u8]]) -> Result<Words, AllocError> {
    let mut all = Words::new(alloc);
    for word in words {
        all.push(Items::from_slice(alloc, word)?)?;
    }
    Ok(all)
}

/// How a call ends, and what it writes.
fn run(
    alloc: Global,
    words: &[&[u8]],
    text: &[u8],
    faults: Faults,
) -> Result<(Status, Bytes), Fail> {
    let words = words_of(alloc, words)?;
    let mut shelf = shelf(alloc, text, faults.reads)?;
    let fails = Items::from_slice(alloc, faults.writes)?;
    let empties = Items::from_slice(alloc, faults.empties)?;
    let mut sink = MemorySink::new(alloc, 4096, fails, empties)?;
    let status = vercors(alloc, &words, &mut shelf, &mut sink);
    Ok((status, Items::from_slice(alloc, sink.written())?))
}

pub(crate) fn verify(alloc: Global, text: &[u8], faults: Faults) -> Result<(Status, Bytes), Fail> {
    run(alloc, &[b"verify", b"next.pvl"], text, faults)
}

#[test]
fn texts(rt: HostRuntime) -> Result<(), Fail> {
    let rows: [(&[u8], Status, &[u8]); 9] = [
        (NEXT, Status::Passed, b"Pass Abs.next\nPass\n"),
        (
            b"class N { void f() { int k = 9223372036854775807; } }",
            Status::Passed,
            b"Pass N.f\nPass\n",
        ),
        (
            FAILING,
            Status::Refused,
            b"Fail Assert Abs.next 6:12-6:18\nRefused\n",
        ),
        (
            TWO_FAIL,
            Status::Refused,
            b"Fail Assert C.a 2:21-2:26\nFail Assert C.b 3:21-3:26\nRefused\n",
        ),
        (UNMET, Status::Passed, b"Empty Abs.next\nPass\n"),
        (GROUPED, Status::Passed, b"Pass Abs.next\nPass\n"),
        (LOOPING, Status::TextRefused, b"TextRefused NotBuilt\n"),
        (TWO_CLASSES, Status::Passed, b"Pass C.a\nPass D.b\nPass\n"),
        (b"", Status::Passed, b"Pass\n"),
    ];
    for (text, status, output) in rows {
        let (answer, written) = verify(rt.alloc(), text, NONE)?;
        assert_eq!(rt; answer, status);
        assert_eq!(rt; written.as_slice(), output);
    }
    Ok(())
}

#[test]
fn refused_texts(rt: HostRuntime) -> Result<(), Fail> {
    let rows: [(&[u8], &[u8]); 9] = [
        (b"class C { int x; } %", b"TextRefused BadByte 1:20\n"),
        (
            b"class N { void f() { int k = 9223372036854775808; } }",
            b"TextRefused BadNumber 1:30\n",
        ),
        (b"class A { /* x", b"TextRefused OpenComment 1:11\n"),
        (b"class C { ; }", b"TextRefused Unexpected 1:11-1:12\n"),
        (b"class A {", b"TextRefused Unexpected 1:10-1:10\n"),
        (
            b"class A { /*@ given int g; @*/ void f() { } }",
            b"TextRefused Unexpected 1:21-1:24\n",
        ),
        (b"class C { } class C %", b"TextRefused BadByte 1:21\n"),
        (b"class C { int x; }", b"TextRefused NotBuilt\n"),
        (
            b"class C { void f() { boolean b; } }",
            b"TextRefused NotBuilt\n",
        ),
    ];
    for (text, output) in rows {
        let (answer, written) = verify(rt.alloc(), text, NONE)?;
        assert_eq!(rt; answer, Status::TextRefused);
        assert_eq!(rt; written.as_slice(), output);
    }
    Ok(())
}

#[test]
fn faulty_texts(rt: HostRuntime) -> Result<(), Fail> {
    let rows: [(&[u8], &[u8]); 6] = [
        (
            b"class A { void f() { int x = y; } }",
            b"TextRefused UnknownName 1:30-1:31\n",
        ),
        (
            b"class C { } class C { }",
            b"TextRefused Duplicate 1:19-1:20\n",
        ),
        (
            b"class C { int x; void f() { assert 7; } }",
            b"TextRefused WrongType 1:36-1:37\n",
        ),
        (
            b"class Q { requires (\\forall int i = 0 .. n; a[i] == i); void f(int[] a, int n) { } }",
            b"TextRefused QuantifierShape 1:45-1:54\n",
        ),
        (
            b"class Q { requires (\\forall int i = 0 .. n; a[i] == i); void f(int[] a, int n) { int x = y; } }",
            b"TextRefused UnknownName 1:90-1:91\n",
        ),
        (
            b"class S { void f(int[] a, int n) { par (int i = 0 .. n) requires Perm(a[n - i], write); { } } }",
            b"TextRefused ItemShape 1:66-1:87\n",
        ),
    ];
    for (text, output) in rows {
        let (answer, written) = verify(rt.alloc(), text, NONE)?;
        assert_eq!(rt; answer, Status::TextRefused);
        assert_eq!(rt; written.as_slice(), output);
    }
    Ok(())
}

/// A text whose parentheses stand that deep, in the braces of a class and of a method.
fn nested(alloc: Global, count: u64) -> Result<Vec<u8>, AllocError> {
    let mut text = Vec::new(alloc);
    text.extend_from_slice(b"class D { void f() { assert ")?;
    for _ in 0..count {
        text.push(b'(')?;
    }
    text.extend_from_slice(b"true")?;
    for _ in 0..count {
        text.push(b')')?;
    }
    text.extend_from_slice(b"; } }")?;
    Ok(text)
}

#[test]
fn deep_texts(rt: HostRuntime) -> Result<(), Fail> {
    let (answer, written) = verify(rt.alloc(), nested(rt.alloc(), 62)?.as_slice(), NONE)?;
    assert_eq!(rt; answer, Status::Passed);
    assert_eq!(rt; written.as_slice(), b"Pass D.f\nPass\n".as_slice());
    let (answer, written) = verify(rt.alloc(), nested(rt.alloc(), 63)?.as_slice(), NONE)?;
    assert_eq!(rt; answer, Status::TextRefused);
    assert_eq!(rt;
        written.as_slice(),
        b"TextRefused TooDeep 1:91-1:92\n".as_slice()
    );
    Ok(())
}

#[test]
fn failing_calls(rt: HostRuntime) -> Result<(), Fail> {
    let (status, written) = verify(
        rt.alloc(),
        NEXT,
        Faults {
            reads: &[3],
            ..NONE
        },
    )?;
    assert_eq!(rt; status, Status::ReadFault);
    assert_eq!(rt; written.as_slice(), b"ReadFault\n".as_slice());
    for faults in [
        Faults {
            writes: &[1],
            ..NONE
        },
        Faults {
            empties: &[1],
            ..NONE
        },
    ] {
        let (status, written) = verify(rt.alloc(), NEXT, faults)?;
        assert_eq!(rt; status, Status::WriteFault);
        assert!(rt; written.is_empty());
    }
    Ok(())
}

#[test]
fn wrong_words(rt: HostRuntime) -> Result<(), Fail> {
    let rows: [&[&[u8]]; 9] = [
        &[],
        &[b"help"],
        &[b"frob", b"a"],
        &[b"big", b"0"],
        &[b"verify"],
        &[b"verify", b""],
        &[b"verify", b"-x"],
        &[b"verify", b"\xff"],
        &[b"explain", b"next.pvl", b"Abs.next"],
    ];
    for words in rows {
        let (status, written) = run(rt.alloc(), words, NEXT, NONE)?;
        assert_eq!(rt; status, Status::WordsWrong);
        assert_eq!(rt; written.as_slice(), USAGE);
    }
    Ok(())
}

#[test]
fn files(rt: HostRuntime) -> Result<(), Fail> {
    let (status, written) = run(rt.alloc(), &[b"verify", b"none.pvl"], NEXT, NONE)?;
    assert_eq!(rt; status, Status::NoFile);
    assert_eq!(rt; written.as_slice(), b"NoFile\n".as_slice());
    let spaces = vec![in rt.alloc(); b' '; 1_048_576]?;
    let (status, written) = verify(rt.alloc(), spaces.as_slice(), NONE)?;
    assert_eq!(rt; status, Status::Passed);
    assert_eq!(rt; written.as_slice(), b"Pass\n".as_slice());
    let spaces = vec![in rt.alloc(); b' '; 1_048_577]?;
    let (status, written) = verify(rt.alloc(), spaces.as_slice(), NONE)?;
    assert_eq!(rt; status, Status::TooLarge);
    assert_eq!(rt; written.as_slice(), b"TooLarge\n".as_slice());
    Ok(())
}
