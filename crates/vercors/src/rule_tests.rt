//! For each static rule and each shape a text that breaks it, its line, and a text beside it that differs in one token and
//! keeps it, with what is printed of that one.
use crate::tests::{NONE, verify};
use std::alloc::Global;
use std::process::Abort;
use std::test::Fail;

/// A text that is refused, its line, a text that keeps the rule, and what is printed of that.
type Row<'a> = (&'a [u8], &'a [u8], &'a [u8], &'a [u8]);

fn expect_rows(rt: &impl Abort, alloc: Global, rows: &[Row]) -> Result<(), Fail> {
    for row in rows {
        let (refused, line, accepted, output) = *row;
        let (_, written) = verify(alloc, refused, NONE)?;
        assert_eq!(rt; written.as_slice(), line);
        let (_, written) = verify(alloc, accepted, NONE)?;
        assert_eq!(rt; written.as_slice(), output);
    }
    Ok(())
}

#[test]
fn rules_of_names(rt: HostRuntime) -> Result<(), Fail> {
    let rows: [Row; 5] = [
        (
            b"class A { B x; }",
            b"TextRefused UnknownName 1:11-1:12\n",
            b"class A { A x; }",
            b"TextRefused NotBuilt\n",
        ),
        (
            b"class A { } class A { }",
            b"TextRefused Duplicate 1:19-1:20\n",
            b"class A { } class B { }",
            b"Pass\n",
        ),
        (
            b"class A { void f(int x, int x) { } }",
            b"TextRefused Shadows 1:29-1:30\n",
            b"class A { void f(int x, int y) { } }",
            b"Pass A.f\nPass\n",
        ),
        (
            b"class A { void f() { int m; par t (int i = 0 .. 1) { int k; barrier(t) { requires k == 0; } } } }",
            b"TextRefused FormulaScope 1:83-1:84\n",
            b"class A { void f() { int m; par t (int i = 0 .. 1) { int k; barrier(t) { requires i == 0; } } } }",
            b"TextRefused NotBuilt\n",
        ),
        (
            b"class A { requires (\\forall int i; 0 <= n && i < n; true); void f(int n) { } }",
            b"TextRefused RangeName 1:41-1:42\n",
            b"class A { requires (\\forall int i; 0 <= i && i < n; true); void f(int n) { } }",
            b"TextRefused NotBuilt\n",
        ),
    ];
    expect_rows(&rt, rt.alloc(), &rows)
}

#[test]
fn rules_of_types(rt: HostRuntime) -> Result<(), Fail> {
    let rows: [Row; 3] = [
        (
            b"class A { void f(int x) { assert x && true; } }",
            b"TextRefused WrongType 1:34-1:35\n",
            b"class A { void f(int x) { assert true && true; } }",
            b"Pass A.f\nPass\n",
        ),
        (
            b"class A { void g(int k) { } void f() { g(); } }",
            b"TextRefused WrongCount 1:40-1:41\n",
            b"class A { void g(int k) { } void f() { g(1); } }",
            b"TextRefused NotBuilt\n",
        ),
        (
            b"class R { run { } } class A { void f(A a, R r) { fork a; } }",
            b"TextRefused NoRole 1:55-1:56\n",
            b"class R { run { } } class A { void f(A a, R r) { fork r; } }",
            b"TextRefused NotBuilt\n",
        ),
    ];
    expect_rows(&rt, rt.alloc(), &rows)
}

#[test]
fn rules_of_results(rt: HostRuntime) -> Result<(), Fail> {
    let rows: [Row; 4] = [
        (
            b"class A { int f() { } }",
            b"TextRefused NoReturn 1:15-1:16\n",
            b"class A { void f() { } }",
            b"Pass A.f\nPass\n",
        ),
        (
            b"class A { void f() { return 1; } }",
            b"TextRefused ReturnPlace 1:22-1:31\n",
            b"class A { void f() { return; } }",
            b"Pass A.f\nPass\n",
        ),
        (
            b"class A { requires \\result == 1; int f() { return 1; } }",
            b"TextRefused ResultPlace 1:20-1:27\n",
            b"class A { ensures \\result == 1; int f() { return 1; } }",
            b"Pass A.f\nPass\n",
        ),
        (
            b"class A { int x; requires \\old(x) == 0; void f() { } }",
            b"TextRefused OldPlace 1:27-1:34\n",
            b"class A { int x; ensures \\old(x) == 0; void f() { } }",
            b"TextRefused NotBuilt\n",
        ),
    ];
    expect_rows(&rt, rt.alloc(), &rows)
}

#[test]
fn rules_of_permissions(rt: HostRuntime) -> Result<(), Fail> {
    let rows: [Row; 4] = [
        (
            b"class A { int x; requires !Perm(x, write); void f() { } }",
            b"TextRefused NotPure 1:28-1:42\n",
            b"class A { int x; requires Perm(x, write); void f() { } }",
            b"TextRefused NotBuilt\n",
        ),
        (
            b"class A { int x; int length; requires Perm(y, write); void f(int[] a, int y) { } }",
            b"TextRefused NotALocation 1:44-1:45\n",
            b"class A { int x; int length; requires Perm(x, write); void f(int[] a, int y) { } }",
            b"TextRefused NotBuilt\n",
        ),
        (
            b"class A { int x; requires Perm(x, 0\\1); void f() { } }",
            b"TextRefused BadFraction 1:35-1:38\n",
            b"class A { int x; requires Perm(x, 1\\1); void f() { } }",
            b"TextRefused NotBuilt\n",
        ),
        (
            b"class A { void f(int x) { int y; x = 1; } }",
            b"TextRefused NotAssignable 1:34-1:35\n",
            b"class A { void f(int x) { int y; y = 1; } }",
            b"Pass A.f\nPass\n",
        ),
    ];
    expect_rows(&rt, rt.alloc(), &rows)
}

#[test]
fn rules_of_blocks(rt: HostRuntime) -> Result<(), Fail> {
    let rows: [Row; 4] = [
        (
            b"class A { void f() { par t (int i = 0 .. 1) { par u (int j = 0 .. 1) { barrier(t) { } } } } }",
            b"TextRefused BarrierPlace 1:80-1:81\n",
            b"class A { void f() { par t (int i = 0 .. 1) { par u (int j = 0 .. 1) { barrier(u) { } } } } }",
            b"TextRefused NotBuilt\n",
        ),
        (
            b"lock_invariant true; class A { run { } void f() { for (int i = 0 .. 1) { f(); } } }",
            b"TextRefused BodyForm 1:74-1:78\n",
            b"lock_invariant true; class A { run { } void f() { par (int i = 0 .. 1) { f(); } } }",
            b"TextRefused NotBuilt\n",
        ),
        (
            b"class A { void f() { par (int i = 0 .. 1) { send S, 1: true; } } }",
            b"TextRefused MessagePlace 1:45-1:61\n",
            b"class A { void f() { for (int i = 0 .. 1) { send S, 1: true; } } }",
            b"TextRefused NotBuilt\n",
        ),
        (
            b"class A { void f() { for (int i = 0 .. 1) { send S, 1: true; send S, 1: true; } } }",
            b"TextRefused MessageRule 1:67-1:68\n",
            b"class A { void f() { for (int i = 0 .. 1) { send S, 1: true; send T, 1: true; } } }",
            b"TextRefused NotBuilt\n",
        ),
    ];
    expect_rows(&rt, rt.alloc(), &rows)
}

#[test]
fn shapes_of_quantifiers(rt: HostRuntime) -> Result<(), Fail> {
    let rows: [Row; 4] = [
        (
            b"class A { requires (\\forall int j = 0 .. 1; true) || true; void f() { } }",
            b"TextRefused QuantifierShape 1:20-1:50\n",
            b"class A { requires (\\forall int j = 0 .. 1; true) && true; void f() { } }",
            b"TextRefused NotBuilt\n",
        ),
        (
            b"class A { requires true == (\\forall int j = 0 .. 1; true); void f() { } }",
            b"TextRefused QuantifierShape 1:28-1:58\n",
            b"class A { requires true ==> (\\forall int j = 0 .. 1; true); void f() { } }",
            b"TextRefused NotBuilt\n",
        ),
        (
            b"class A { requires true != (\\forall int j = 0 .. 1; true); void f() { } }",
            b"TextRefused QuantifierShape 1:28-1:58\n",
            b"class A { requires true && (\\forall int j = 0 .. 1; true); void f() { } }",
            b"TextRefused NotBuilt\n",
        ),
        (
            b"class A { requires !(\\forall int j = 0 .. 1; true); void f() { } }",
            b"TextRefused QuantifierShape 1:21-1:51\n",
            b"class A { requires (\\forall int j = 0 .. 1; true); void f() { } }",
            b"TextRefused NotBuilt\n",
        ),
    ];
    expect_rows(&rt, rt.alloc(), &rows)
}

#[test]
fn shapes_of_items(rt: HostRuntime) -> Result<(), Fail> {
    let rows: [Row; 3] = [
        (
            b"lock_invariant true; class A { int x; resource p(int k) = true; run { } void f(int[] a, int n, boolean t) { par (int i = 0 .. n) requires Perm(a[i + n], write); { } } }",
            b"TextRefused ItemShape 1:139-1:160\n",
            b"lock_invariant true; class A { int x; resource p(int k) = true; run { } void f(int[] a, int n, boolean t) { par (int i = 0 .. n) requires Perm(a[i + 1], write); { } } }",
            b"TextRefused NotBuilt\n",
        ),
        (
            b"lock_invariant true; class A { int x; resource p(int k) = true; run { } void f(int[] a, int n, boolean t) { par (int i = 0 .. n) requires Perm(a[0], write); { } } }",
            b"TextRefused ItemShape 1:139-1:156\n",
            b"lock_invariant true; class A { int x; resource p(int k) = true; run { } void f(int[] a, int n, boolean t) { par (int i = 0 .. n) requires Perm(a[i], write); { } } }",
            b"TextRefused NotBuilt\n",
        ),
        (
            b"lock_invariant true; class A { int x; resource p(int k) = true; run { } void f(int[] a, int n, boolean t) { par (int i = 0 .. n) requires a[i] == i; { } } }",
            b"TextRefused ItemShape 1:139-1:148\n",
            b"lock_invariant true; class A { int x; resource p(int k) = true; run { } void f(int[] a, int n, boolean t) { par (int i = 0 .. n) requires a[i] == n; { } } }",
            b"TextRefused NotBuilt\n",
        ),
    ];
    expect_rows(&rt, rt.alloc(), &rows)
}
