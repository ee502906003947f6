//! Programs, and texts that are none.
use pv_base::Span;
use pv_names::Names;
use pv_parser::program;
use pv_reading::ParseFault;
use pv_tokens::reading::tokens;
use std::alloc::{AllocError, Global};
use std::process::Abort;
use std::test::Fail;

const FRONT: &[u8] = b"class A { void f() { ";

const BACK: &[u8] = b"} }";

/// The fault of a text, none where it is a program.
fn fault_of(rt: &impl Abort, alloc: Global, text: &[u8]) -> Result<Option<ParseFault>, Fail> {
    assert!(rt; text.len() <= 1_048_576);
    let mut names = Names::new(alloc);
    let found = tokens(alloc, text, &mut names)?;
    Ok(program(alloc, &found).err())
}

fn expect_program(rt: &impl Abort, alloc: Global, text: &[u8]) -> Result<(), Fail> {
    let fault = fault_of(rt, alloc, text)?;
    assert_eq!(rt; fault, None);
    Ok(())
}

fn expect_fault(
    rt: &impl Abort,
    alloc: Global,
    text: &[u8],
    fault: ParseFault,
) -> Result<(), Fail> {
    let found = fault_of(rt, alloc, text)?;
    assert_eq!(rt; found, Some(fault));
    Ok(())
}

/// Programs, and for each a neighbour with its first fault.
fn expect_programs(
    rt: &impl Abort,
    alloc: Global,
    rows: &[(&[u8], &[u8], u32, u32)],
) -> Result<(), Fail> {
    for row in rows {
        let (accepted, refused, from, to) = *row;
        expect_program(rt, alloc, accepted)?;
        let fault = ParseFault::Unexpected(Span { from, to });
        expect_fault(rt, alloc, refused, fault)?;
    }
    Ok(())
}

#[test]
fn faults_in_classes(rt: HostRuntime) -> Result<(), Fail> {
    let rows: [(&[u8], &[u8], u32, u32); 4] = [
        (b"", b"1", 0, 1),
        (
            b"class A { } class B { }",
            b"class A { } ; class B { }",
            12,
            13,
        ),
        (b"class A { }", b"class A {", 9, 9),
        (
            b"lock_invariant a ** b; class A { }",
            b"lock_invariant a; lock_invariant a; class A { }",
            18,
            32,
        ),
    ];
    expect_programs(&rt, rt.alloc(), &rows)
}

#[test]
fn faults_in_fields(rt: HostRuntime) -> Result<(), Fail> {
    let rows: [(&[u8], &[u8], u32, u32); 2] = [
        (
            b"class A { int x; B y; }",
            b"class A { int x = 1; }",
            16,
            17,
        ),
        (
            b"class A { int[] x; boolean[] y; }",
            b"class A { B[] x; }",
            11,
            12,
        ),
    ];
    expect_programs(&rt, rt.alloc(), &rows)
}

#[test]
fn faults_in_predicates_and_methods(rt: HostRuntime) -> Result<(), Fail> {
    let rows: [(&[u8], &[u8], u32, u32); 5] = [
        (b"class A { void f() { } }", b"class A { void f; }", 16, 17),
        (
            b"class A { resource p() = a ** b; }",
            b"class A { requires a; resource p() = b; }",
            22,
            30,
        ),
        (
            b"class A { requires a; ensures b; context c; bool f() { } }",
            b"class A { requires a; bool f; }",
            28,
            29,
        ),
        (
            b"class A { ensures a; run { } }",
            b"class A { run () { } }",
            14,
            15,
        ),
        (
            b"class A { int f(int x, B y) { } }",
            b"class A { int f(int x, ) { } }",
            23,
            24,
        ),
    ];
    expect_programs(&rt, rt.alloc(), &rows)
}

/// A program whose one method has that body.
fn method(alloc: Global, body: &[u8]) -> Result<Vec<u8>, AllocError> {
    let mut text = Vec::new(alloc);
    text.extend_from_slice(FRONT)?;
    text.extend_from_slice(body)?;
    text.extend_from_slice(BACK)?;
    Ok(text)
}

/// Bodies of a method, and for each a neighbour with its first fault. The front is 21 bytes.
fn expect_bodies(
    rt: &impl Abort,
    alloc: Global,
    rows: &[(&[u8], &[u8], u32, u32)],
) -> Result<(), Fail> {
    for row in rows {
        let (accepted, refused, from, to) = *row;
        let text = method(alloc, accepted)?;
        expect_program(rt, alloc, text.as_slice())?;
        let text = method(alloc, refused)?;
        let fault = ParseFault::Unexpected(Span { from, to });
        expect_fault(rt, alloc, text.as_slice(), fault)?;
    }
    Ok(())
}

#[test]
fn faults_in_simple_statements(rt: HostRuntime) -> Result<(), Fail> {
    let rows: [(&[u8], &[u8], u32, u32); 11] = [
        (b"int x; int[] y = z; B b = a;", b"int x, y;", 26, 27),
        (b"B b; b = a; b(a);", b"a;", 22, 23),
        (b"this.a = 1; a[0].b[1] = 2;", b"this = a;", 26, 27),
        (b"a(); this.a(1, b); a[0].b(c);", b"a[0](1);", 25, 26),
        (
            b"fork a; join a.b; lock this; unlock a[0]; commit a;",
            b"fork a ==> b;",
            28,
            31,
        ),
        (b"fold a(); unfold this.a(b, 1);", b"fold a[0];", 30, 31),
        (b"assert a ==> b;", b"assert ;", 28, 29),
        (b"send a, 1: b ** c;", b"send a, b: c;", 29, 30),
        (b"recv a;", b"recv a, 1;", 27, 28),
        (b"return; return a;", b"return a ** b;", 30, 32),
        (b"", b"wait a;", 21, 25),
    ];
    expect_bodies(&rt, rt.alloc(), &rows)
}

#[test]
fn faults_in_blocks(rt: HostRuntime) -> Result<(), Fail> {
    let rows: [(&[u8], &[u8], u32, u32); 5] = [
        (
            b"if (a) { } else if (b) { } else { }",
            b"if (a) { } else while (b) { }",
            37,
            42,
        ),
        (
            b"loop_invariant a; loop_invariant b; while (a) { }",
            b"loop_invariant a; if (a) { }",
            39,
            41,
        ),
        (
            b"for (int i = 0 .. n) requires a; ensures b; { }",
            b"for (int i = 0; i < n) { }",
            35,
            36,
        ),
        (
            b"par (int i = 0 .. n) { } par b (int i = a .. b) { }",
            b"par b c (int i = 0 .. n) { }",
            27,
            28,
        ),
        (
            b"barrier (b) { requires a; ensures b; }",
            b"barrier (b) { a; }",
            35,
            36,
        ),
    ];
    expect_bodies(&rt, rt.alloc(), &rows)
}

#[test]
fn faults_in_sides(rt: HostRuntime) -> Result<(), Fail> {
    let rows: [(&[u8], &[u8], u32, u32); 8] = [
        (
            b"x = new A(); x = new int[a]; x = a.b(1);",
            b"x = new A[1];",
            30,
            31,
        ),
        (b"x = a.b[0];", b"x = a.b(1) + 1;", 32, 33),
        (b"x = (a || b) && c;", b"x = 1 + a();", 30, 31),
        (b"x = a == b && c != d;", b"x = a == b != c;", 32, 34),
        (b"x = a < b == c >= d;", b"x = a <= b > c;", 32, 33),
        (b"x = a - b * -c + !d;", b"x = a ! b;", 27, 28),
        (b"x = 1.a[2].b;", b"x = a.1;", 27, 28),
        (
            b"x = true; x = false; x = null; x = this;",
            b"x = \\result;",
            25,
            32,
        ),
    ];
    expect_bodies(&rt, rt.alloc(), &rows)
}

#[test]
fn faults_in_formulas(rt: HostRuntime) -> Result<(), Fail> {
    let rows: [(&[u8], &[u8], u32, u32); 8] = [
        (
            b"assert a && b ** c ==> d || e ==> f;",
            b"assert a || b ** c;",
            35,
            37,
        ),
        (
            b"assert (a ** b) || (c ==> d);",
            b"assert a ** b || c;",
            35,
            37,
        ),
        (
            b"assert \\result == \\old(a[0]);",
            b"assert \\old(a ==> b);",
            35,
            38,
        ),
        (b"assert a[0].b(c, 1).d && e();", b"assert a()();", 31, 32),
        (b"assert a[(b ==> c)];", b"assert a[b ** c];", 32, 34),
        (
            b"assert Perm(a.b, 1\\2) ** Perm(a[0], write);",
            b"assert Perm(a + 1, write);",
            35,
            36,
        ),
        (b"assert Perm(a, 3\\4);", b"assert Perm(a, 1);", 37, 38),
        (
            b"assert idle(a) ** running(b.c) ** committed(d[0]);",
            b"assert uncommitted.a;",
            39,
            40,
        ),
    ];
    expect_bodies(&rt, rt.alloc(), &rows)
}

#[test]
fn faults_in_quantifiers(rt: HostRuntime) -> Result<(), Fail> {
    let rows: [(&[u8], &[u8], u32, u32); 3] = [
        (
            b"assert (\\forall int i = 0 .. n; a ==> b);",
            b"assert \\forall int i = 0 .. n; a;",
            28,
            35,
        ),
        (
            b"assert (\\forall* int i; 0 <= i && i < n; a ** b);",
            b"assert (\\forall* int i; 0 < i && i < n; a);",
            47,
            48,
        ),
        (
            b"assert (\\forall int i; a + 1 <= i && i < b * 2; c);",
            b"assert (\\forall int i; 0 <= i && i <= n; a);",
            56,
            58,
        ),
    ];
    expect_bodies(&rt, rt.alloc(), &rows)
}

/// Bodies of a method that differ in how often a piece stands.
#[derive(Clone, Copy)]
struct Deep<'a> {
    front: &'a [u8],
    piece: &'a [u8],
    middle: &'a [u8],
    /// Stands as often as the piece.
    close: &'a [u8],
    back: &'a [u8],
    /// How many pieces fit.
    most: u8,
    /// The token of the next piece that opens the 65th construct.
    from: u32,
    to: u32,
}

fn push_times(text: &mut Vec<u8>, piece: &[u8], times: u32) -> Result<(), AllocError> {
    for _ in 0..times {
        text.extend_from_slice(piece)?;
    }
    Ok(())
}

fn method_of(alloc: Global, row: Deep, times: u32) -> Result<Vec<u8>, AllocError> {
    let mut text = Vec::new(alloc);
    text.extend_from_slice(FRONT)?;
    text.extend_from_slice(row.front)?;
    push_times(&mut text, row.piece, times)?;
    text.extend_from_slice(row.middle)?;
    push_times(&mut text, row.close, times)?;
    text.extend_from_slice(row.back)?;
    text.extend_from_slice(BACK)?;
    Ok(text)
}

fn expect_depth(rt: &impl Abort, alloc: Global, row: Deep) -> Result<(), Fail> {
    let most = u32::from(row.most);
    let text = method_of(alloc, row, most)?;
    expect_program(rt, alloc, text.as_slice())?;
    let text = method_of(alloc, row, most + 1)?;
    let (from, to) = (row.from, row.to);
    expect_fault(
        rt,
        alloc,
        text.as_slice(),
        ParseFault::TooDeep(Span { from, to }),
    )
}

fn expect_depths(rt: &impl Abort, alloc: Global, rows: &[Deep]) -> Result<(), Fail> {
    for row in rows {
        expect_depth(rt, alloc, *row)?;
    }
    Ok(())
}

#[test]
fn depths_of_prefixes(rt: HostRuntime) -> Result<(), Fail> {
    let rows: [Deep; 3] = [
        Deep {
            front: b"assert ",
            piece: b"(",
            middle: b"a",
            close: b")",
            back: b"; ",
            most: 62,
            from: 90,
            to: 91,
        },
        Deep {
            front: b"assert ",
            piece: b"!",
            middle: b"a",
            close: b"",
            back: b"; ",
            most: 62,
            from: 90,
            to: 91,
        },
        Deep {
            front: b"assert ",
            piece: b"-",
            middle: b"a",
            close: b"",
            back: b"; ",
            most: 62,
            from: 90,
            to: 91,
        },
    ];
    expect_depths(&rt, rt.alloc(), &rows)
}

#[test]
fn depths_of_implications_and_stars(rt: HostRuntime) -> Result<(), Fail> {
    let rows: [Deep; 2] = [
        Deep {
            front: b"assert a",
            piece: b" ==> a",
            middle: b"",
            close: b"",
            back: b"; ",
            most: 62,
            from: 402,
            to: 405,
        },
        Deep {
            front: b"assert a",
            piece: b" ** a",
            middle: b"",
            close: b"",
            back: b"; ",
            most: 62,
            from: 340,
            to: 342,
        },
    ];
    expect_depths(&rt, rt.alloc(), &rows)
}

#[test]
fn depths_of_logical_operators(rt: HostRuntime) -> Result<(), Fail> {
    let rows: [Deep; 2] = [
        Deep {
            front: b"assert a",
            piece: b" && a",
            middle: b"",
            close: b"",
            back: b" || b; ",
            most: 62,
            from: 340,
            to: 342,
        },
        Deep {
            front: b"return a",
            piece: b" || a",
            middle: b"",
            close: b"",
            back: b"; ",
            most: 62,
            from: 340,
            to: 342,
        },
    ];
    expect_depths(&rt, rt.alloc(), &rows)
}

#[test]
fn depths_of_sums_and_products(rt: HostRuntime) -> Result<(), Fail> {
    let rows: [Deep; 2] = [
        Deep {
            front: b"return a",
            piece: b" + a",
            middle: b"",
            close: b"",
            back: b" < b && c; ",
            most: 62,
            from: 278,
            to: 279,
        },
        Deep {
            front: b"return a",
            piece: b" * a",
            middle: b"",
            close: b"",
            back: b" - b; ",
            most: 62,
            from: 278,
            to: 279,
        },
    ];
    expect_depths(&rt, rt.alloc(), &rows)
}

#[test]
fn depths_of_comparisons(rt: HostRuntime) -> Result<(), Fail> {
    let rows: [Deep; 2] = [
        Deep {
            front: b"return !",
            piece: b"(a == ",
            middle: b"(a)",
            close: b")",
            back: b"; ",
            most: 30,
            from: 212,
            to: 214,
        },
        Deep {
            front: b"return -",
            piece: b"(a <= ",
            middle: b"(a)",
            close: b")",
            back: b"; ",
            most: 30,
            from: 212,
            to: 214,
        },
    ];
    expect_depths(&rt, rt.alloc(), &rows)
}

#[test]
fn depths_of_postfixes(rt: HostRuntime) -> Result<(), Fail> {
    let rows: [Deep; 3] = [
        Deep {
            front: b"return a",
            piece: b".b",
            middle: b"",
            close: b"",
            back: b" + c; ",
            most: 62,
            from: 153,
            to: 154,
        },
        Deep {
            front: b"return a",
            piece: b"[0]",
            middle: b"",
            close: b"",
            back: b"; ",
            most: 61,
            from: 212,
            to: 213,
        },
        Deep {
            front: b"return a",
            piece: b"[a",
            middle: b"",
            close: b"]",
            back: b"; ",
            most: 31,
            from: 91,
            to: 92,
        },
    ];
    expect_depths(&rt, rt.alloc(), &rows)
}

#[test]
fn depths_of_targets(rt: HostRuntime) -> Result<(), Fail> {
    let rows: [Deep; 3] = [
        Deep {
            front: b"a",
            piece: b".b",
            middle: b"",
            close: b"",
            back: b" = c; ",
            most: 62,
            from: 146,
            to: 147,
        },
        Deep {
            front: b"a",
            piece: b"[0]",
            middle: b"",
            close: b"",
            back: b" = c; ",
            most: 61,
            from: 205,
            to: 206,
        },
        Deep {
            front: b"a",
            piece: b".b",
            middle: b"",
            close: b"",
            back: b"(c); ",
            most: 62,
            from: 146,
            to: 147,
        },
    ];
    expect_depths(&rt, rt.alloc(), &rows)
}

#[test]
fn depths_of_arguments_and_blocks(rt: HostRuntime) -> Result<(), Fail> {
    let rows: [Deep; 3] = [
        Deep {
            front: b"assert ",
            piece: b"a(",
            middle: b"a",
            close: b")",
            back: b"; ",
            most: 62,
            from: 153,
            to: 154,
        },
        Deep {
            front: b"if (a) { }",
            piece: b" else if (a) { }",
            middle: b"",
            close: b"",
            back: b" ",
            most: 61,
            from: 1016,
            to: 1017,
        },
        Deep {
            front: b"",
            piece: b"while (a) { ",
            middle: b"",
            close: b"} ",
            back: b"",
            most: 62,
            from: 771,
            to: 772,
        },
    ];
    expect_depths(&rt, rt.alloc(), &rows)
}
