//! Systems of literals, against brute force over a small cube.

ghost use Rattle.std.specs.Prelude.{◌≡◌, ℕ, ◌+◌, ◌^◌, ◌<◌, ◌≤◌, ◌⊎◌, EachIndex, slice_index, length, IfOk};
ghost use Rattle.pv_linear.specs.Literal.{bound_of, bound_of_all};
ghost use Rattle.pv_linear.specs.Sorting.{IsNumberIn, IsReferenceIn, AreSortsApart};

use crate::{Conflict, Solved, satisfy};
use pv_base::NoMemory;
use pv_linear::{Literal, Symbol};
use std::alloc::Global;
use std::process::Abort;
use std::test::Fail;

// One of 36 differences of the symbols 0, 1 and 2, with a bound from -2 to 1.
fn difference(code: u8) -> Literal
    requires { code < 36 }
    ensures number { (k : ℕ) → IsNumberIn result k → k < 3 }
    ensures reference { (k : ℕ) → IsReferenceIn result k → (k ≡ 0) ⊎ (2 < k) }
    ensures bound { bound_of result ≤ 2 }
{
    let x = Symbol(u32::from(code % 3));
    let y = Symbol(u32::from(code / 3 % 3));
    Literal::AtMost(x, y, i128::from(code / 9) - 2)
}

// Symbol 0, 3, 4 or 5.
fn reference(code: u8) -> Symbol
    requires { code < 4 }
    ensures { (result.0 ≡ 0) ⊎ (2 < result.0) }
{
    if code == 0 {
        return Symbol::ZERO;
    }
    Symbol(u32::from(code) + 2)
}

// One of these differences, then of 16 equations among the symbols 0, 3, 4 and 5, then of the opposites of these.
fn literal(code: u8) -> Literal
    requires { code < 68 }
    ensures number { (k : ℕ) → IsNumberIn result k → k < 3 }
    ensures reference { (k : ℕ) → IsReferenceIn result k → (k ≡ 0) ⊎ (2 < k) }
    ensures bound { bound_of result ≤ 2 }
{
    if code < 36 {
        return difference(code);
    }
    let x = reference(code % 4);
    let y = reference(code / 4 % 4);
    if code < 52 {
        Literal::Same(x, y)
    } else {
        Literal::Differ(x, y)
    }
}

// The number of a symbol at a place in the cube: from -6 to 6 for the symbols 1 and 2, from 0 to 3 for 3, 4 and 5.
fn value(symbol: Symbol, at: u32) -> i8 {
    match symbol.0 {
        1 => (at % 13) as i8 - 6,
        2 => (at / 13 % 13) as i8 - 6,
        3 => (at / 169 % 4) as i8,
        4 => (at / 676 % 4) as i8,
        5 => (at / 2704 % 4) as i8,
        _ => 0,
    }
}

fn is_met(literal: &Literal, at: u32) -> bool {
    match *literal {
        Literal::AtMost(x, y, c) => i128::from(value(x, at)) - i128::from(value(y, at)) <= c,
        Literal::Same(x, y) => value(x, at) == value(y, at),
        Literal::Differ(x, y) => value(x, at) != value(y, at),
    }
}

// Whether some place of the cube meets all of them.
fn is_met_in_cube(literals: &[Literal]) -> bool {
    for at in 0..10816 {
        if literals.iter().all(|literal| is_met(literal, at)) {
            return true;
        }
    }
    false
}

// What the answer was.
#[derive(Clone, Copy, PartialEq, Eq, Debug, Drop)]
enum Told {
    Yes,
    Cycle,
    Clash,
}

// The answer for five literals, if it is the one that the cube gives.
fn verdict(alloc: Global, codes: [u8; 5]) -> Result<Option<Told>, NoMemory>
    requires { EachIndex codes (λ i. slice_index codes i < 68) }
{
    let literals = [
        literal(codes[0]),
        literal(codes[1]),
        literal(codes[2]),
        literal(codes[3]),
        literal(codes[4]),
    ];
    let is_met = is_met_in_cube(&literals);
    match satisfy(alloc, &literals)? {
        Solved::Yes(_) => Ok(is_met.then_some(Told::Yes)),
        Solved::No(Conflict::Cycle(places)) => Ok(
            (!is_met && places.len() <= 5).then_some(Told::Cycle),
        ),
        Solved::No(Conflict::Clash(places)) => Ok(
            (!is_met && places.len() <= 5).then_some(Told::Clash),
        ),
    }
}

// The next number of a fixed sequence, by a code below 68.
fn next_code(state: &mut u32) -> u8
    ensures { result < 68 }
{
    *state = state.wrapping_mul(1_664_525).wrapping_add(1_013_904_223);
    ((*state >> 24) % 68) as u8
}

#[test]
fn five_literals_are_met_as_in_a_cube(rt: HostRuntime) -> Result<(), Fail> {
    let mut state = 7;
    let mut counts = [0u32, 0, 0];
    for _round in 0..2000 {
        let codes = [
            next_code(&mut state),
            next_code(&mut state),
            next_code(&mut state),
            next_code(&mut state),
            next_code(&mut state),
        ];
        match verdict(rt.alloc(), codes)? {
            Some(Told::Yes) => counts[0] = counts[0].saturating_add(1),
            Some(Told::Cycle) => counts[1] = counts[1].saturating_add(1),
            Some(Told::Clash) => counts[2] = counts[2].saturating_add(1),
            None => assert!(rt; false, "{codes:?}"),
        }
    }
    assert!(rt;
        counts[0] > 200 && counts[1] > 200 && counts[2] > 200,
        "{counts:?}"
    );
    Ok(())
}

#[test]
fn a_chain_ends_far_below_zero(rt: HostRuntime) -> Result<(), Fail> {
    let literals = [
        Literal::AtMost(Symbol(4_000_000), Symbol(7), -3),
        Literal::AtMost(Symbol(7), Symbol(0), -5),
        Literal::AtMost(Symbol(0), Symbol(9), -1),
    ];
    match satisfy(rt.alloc(), &literals)? {
        Solved::Yes(numbers) => {
            assert_eq!(rt; numbers.get(4_000_000).copied(), Some(-8));
            assert_eq!(rt; numbers.get(7).copied(), Some(-5));
            assert_eq!(rt; numbers.get(9).copied(), Some(1));
            assert_eq!(rt; numbers.get(0).copied(), Some(0));
        }
        Solved::No(_) => assert!(rt; false),
    }
    Ok(())
}

#[test]
fn a_cycle_is_listed(rt: HostRuntime) -> Result<(), Fail> {
    let literals = [
        Literal::AtMost(Symbol(1), Symbol(2), 3),
        Literal::AtMost(Symbol(3), Symbol(1), 0),
        Literal::AtMost(Symbol(2), Symbol(1), -4),
    ];
    match satisfy(rt.alloc(), &literals)? {
        Solved::No(Conflict::Cycle(places)) => assert_eq!(rt; places.len(), 2),
        Solved::No(Conflict::Clash(_places)) => assert!(rt; false),
        Solved::Yes(_numbers) => assert!(rt; false),
    }
    Ok(())
}

#[test]
fn a_clash_lists_the_equations_that_join_its_names(rt: HostRuntime) -> Result<(), Fail> {
    let literals = [
        Literal::Same(Symbol(1), Symbol(2)),
        Literal::Same(Symbol(9), Symbol(8)),
        Literal::Same(Symbol(3), Symbol(2)),
        Literal::Differ(Symbol(1), Symbol(9)),
        Literal::Same(Symbol(3), Symbol(4)),
        Literal::Differ(Symbol(4), Symbol(1)),
    ];
    match satisfy(rt.alloc(), &literals)? {
        Solved::No(Conflict::Clash(places)) => {
            assert_eq!(rt; places.as_slice(), [4, 2, 0, 5].as_slice());
        }
        Solved::No(Conflict::Cycle(_places)) => assert!(rt; false),
        Solved::Yes(_numbers) => assert!(rt; false),
    }
    Ok(())
}

#[test]
fn a_symbol_differs_from_itself(rt: HostRuntime) -> Result<(), Fail> {
    let literals = [Literal::Differ(Symbol(6), Symbol(6))];
    match satisfy(rt.alloc(), &literals)? {
        Solved::No(Conflict::Clash(places)) => {
            assert_eq!(rt; places.as_slice(), [0].as_slice());
        }
        Solved::No(Conflict::Cycle(_places)) => assert!(rt; false),
        Solved::Yes(_numbers) => assert!(rt; false),
    }
    Ok(())
}

#[test]
fn classes_have_numbers_beside_those_of_differences(rt: HostRuntime) -> Result<(), Fail> {
    let literals = [
        Literal::Same(Symbol(4), Symbol(0)),
        Literal::AtMost(Symbol(1), Symbol(0), -7),
        Literal::Differ(Symbol(2), Symbol(0)),
        Literal::Same(Symbol(3), Symbol(2)),
        Literal::Differ(Symbol(3), Symbol(5)),
    ];
    match satisfy(rt.alloc(), &literals)? {
        Solved::Yes(numbers) => {
            assert_eq!(rt; numbers.get(0).copied(), Some(0));
            assert_eq!(rt; numbers.get(1).copied(), Some(-7));
            assert_eq!(rt; numbers.get(4).copied(), Some(0));
            assert_eq!(rt; numbers.get(2).copied(), numbers.get(3).copied());
            assert_ne!(rt; numbers.get(3).copied(), Some(0));
            assert_ne!(rt; numbers.get(3).copied(), numbers.get(5).copied());
        }
        Solved::No(_) => assert!(rt; false),
    }
    Ok(())
}

// A chain of equations along the symbols up to a number, and that its ends differ.
fn long_clash(alloc: Global, last: u32) -> Result<Vec<Literal>, NoMemory>
    requires { last < 2 ^ 16 }
    ensures sorts { IfOk result (λ literals. AreSortsApart literals.items) }
    ensures bound { IfOk result (λ literals. bound_of_all literals.items ≤ 0) }
    ensures few { IfOk result (λ literals. length literals.items ≤ last + 1) }
{
    let mut literals = Vec::new(alloc);
    for symbol in 0..last {
        literals.push(Literal::Same(Symbol(symbol + 1), Symbol(symbol)))?;
    }
    literals.push(Literal::Differ(Symbol(0), Symbol(last)))?;
    Ok(literals)
}

#[test]
fn a_long_chain_is_listed(rt: HostRuntime) -> Result<(), Fail> {
    let literals = long_clash(rt.alloc(), 60_000)?;
    match satisfy(rt.alloc(), &literals)? {
        Solved::No(Conflict::Clash(places)) => assert_eq!(rt; places.len(), 60_001),
        Solved::No(Conflict::Cycle(_places)) => assert!(rt; false),
        Solved::Yes(_numbers) => assert!(rt; false),
    }
    Ok(())
}
