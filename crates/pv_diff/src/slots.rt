//! Slots for the symbols of a list of literals.

ghost use Rattle.std.specs.Prelude.{◌≡◌, ℕ, ℤ, ◌++◌, ◌^◌, ◌<◌, ◌≤◌, ◌+◌, ◌*◌, pos, ◌+ℤ◌, ◌-ℤ◌, ◌≤ℤ◌, ◌<ℤ◌, ◌↔◌, length, slice_get, slice_index_or, Some, IfOk, OnOk, Contains};
ghost use Rattle.std.specs.List.Sorted.{IsStrictlyIncreasing};
ghost use Rattle.pv_linear.specs.declared.Literal.TheVariants.{AtMost};
ghost use Rattle.pv_linear.specs.Values.{IsWithin};
ghost use Rattle.pv_diff.specs.Limits.{too_many};
ghost use Rattle.pv_diff.specs.Parts.{AllAtMost, IsAtMost};
ghost use Rattle.pv_diff.specs.Slots.{AreNamed, AreOnlyNamed, AreEdges, AreReferencesNamed, AreOnlyReferences, references_in};
ghost use Rattle.pv_diff.specs.Table.{number_in};

use crate::table::{Edge, Entry};
use pv_base::NoMemory;
use pv_linear::Literal;
use std::alloc::Global;

/// A difference of two symbols, by their numbers.
#[derive(Clone, Copy, Debug, Drop)]
struct Difference {
    to: u32,
    from: u32,
    bound: i128,
}

/// The two symbols of a difference, and its bound.
fn difference_of(literal: &Literal) -> Difference
    requires { IsAtMost literal.now }
    ensures { literal.now ≡ AtMost (record { 0 = result.to }) (record { 0 = result.from }) result.bound }
{
    match *literal {
        Literal::AtMost(x, y, bound) => Difference {
            to: x.0,
            from: y.0,
            bound,
        },
        Literal::Same(_, _) | Literal::Differ(_, _) => unreachable!(),
    }
}

/// The symbols of the differences, and 0, as they stand.
fn gather(alloc: Global, literals: &[Literal]) -> Result<Vec<u32>, NoMemory>
    requires few { length literals.now < too_many }
    requires differences { AllAtMost literals.now }
    ensures zero { IfOk result (λ symbols. Contains symbols.items 0) }
    ensures named { IfOk result (λ symbols. AreNamed symbols.items literals.now) }
    ensures only { IfOk result (λ symbols. AreOnlyNamed symbols.items literals.now) }
    ensures few { IfOk result (λ symbols. length symbols.items ≤ 2 * length literals.now + 1) }
{
    let mut symbols = Vec::with_capacity(alloc, 2 * literals.len() + 1)?;
    symbols.push(0)?;
    for literal in literals {
        let difference = difference_of(literal);
        symbols.push(difference.to)?;
        symbols.push(difference.from)?;
    }
    Ok(symbols)
}

/// The symbols of equations and of literals by which symbols differ, and 0, as they stand.
fn gather_references(alloc: Global, literals: &[Literal]) -> Result<Vec<u32>, NoMemory>
    ensures zero { IfOk result (λ symbols. Contains symbols.items 0) }
    ensures named { IfOk result (λ symbols. AreReferencesNamed symbols.items literals.now) }
    ensures only { IfOk result (λ symbols. AreOnlyReferences symbols.items literals.now) }
    ensures few { IfOk result (λ symbols. length symbols.items ≤ 2 * length literals.now + 1) }
{
    let mut symbols = Vec::new(alloc);
    symbols.push(0)?;
    for literal in literals {
        push_references(literal, &mut symbols)?;
    }
    Ok(symbols)
}

/// Pushes the symbols of a literal that is no difference.
fn push_references(literal: &Literal, symbols: &mut Vec<u32>) -> Result<(), NoMemory>
    ensures { OnOk result (symbols.new.items ≡ symbols.old.items ++ references_in literal.now) }
{
    match *literal {
        Literal::Same(x, y) | Literal::Differ(x, y) => {
            symbols.push(x.0)?;
            symbols.push(y.0)?;
            Ok(())
        }
        Literal::AtMost(_, _, _) => Ok(()),
    }
}

/// Each of the symbols once, in rising order.
fn sorted(symbols: Vec<u32>) -> Vec<u32>
    ensures rises { IsStrictlyIncreasing result.items }
    ensures same { (x : ℕ) → Contains result.items x ↔ Contains symbols.items x }
    ensures few { length result.items ≤ length symbols.items }
{
    let mut symbols = symbols;
    symbols.sort_unstable();
    symbols.dedup();
    symbols
}

/// The symbols of the differences, and 0, each once and in rising order.
pub fn symbols_of(alloc: Global, literals: &[Literal]) -> Result<Vec<u32>, NoMemory>
    requires few { length literals.now < too_many }
    requires differences { AllAtMost literals.now }
    ensures rises { IfOk result (λ symbols. IsStrictlyIncreasing symbols.items) }
    ensures zero { IfOk result (λ symbols. Contains symbols.items 0) }
    ensures named { IfOk result (λ symbols. AreNamed symbols.items literals.now) }
    ensures only { IfOk result (λ symbols. AreOnlyNamed symbols.items literals.now) }
    ensures few { IfOk result (λ symbols. length symbols.items ≤ 2 * length literals.now + 1) }
{
    let symbols = gather(alloc, literals)?;
    Ok(sorted(symbols))
}

/// The symbols of equations and of literals by which symbols differ, and 0, each once and in rising order.
pub fn references_of(alloc: Global, literals: &[Literal]) -> Result<Vec<u32>, NoMemory>
    ensures rises { IfOk result (λ symbols. IsStrictlyIncreasing symbols.items) }
    ensures zero { IfOk result (λ symbols. Contains symbols.items 0) }
    ensures named { IfOk result (λ symbols. AreReferencesNamed symbols.items literals.now) }
    ensures only { IfOk result (λ symbols. AreOnlyReferences symbols.items literals.now) }
    ensures few { IfOk result (λ symbols. length symbols.items ≤ 2 * length literals.now + 1) }
{
    let symbols = gather_references(alloc, literals)?;
    Ok(sorted(symbols))
}

/// The slot of a symbol.
pub fn slot_of(symbols: &[u32], symbol: u32) -> u32
    requires few { length symbols.now < 2 ^ 32 }
    requires rises { IsStrictlyIncreasing symbols.now }
    requires named { Contains symbols.now symbol }
    ensures { slice_get symbols.now result ≡ Some symbol }
{
    match symbols.binary_search(&symbol) {
        Ok(slot) => slot as u32,
        Err(_) => unreachable!(),
    }
}

/// The differences between the slots of their symbols.
pub fn edges_of(alloc: Global, literals: &[Literal], symbols: &[u32]) -> Result<Vec<Edge>, NoMemory>
    requires differences { AllAtMost literals.now }
    requires few { length symbols.now < 2 ^ 32 }
    requires rises { IsStrictlyIncreasing symbols.now }
    requires named { AreNamed symbols.now literals.now }
    ensures { IfOk result (λ edges. AreEdges symbols.now literals.now edges.items) }
{
    let mut edges = Vec::with_capacity(alloc, literals.len())?;
    for literal in literals {
        let difference = difference_of(literal);
        edges.push(Edge {
            to: slot_of(symbols, difference.to),
            from: slot_of(symbols, difference.from),
            bound: difference.bound,
        })?;
    }
    Ok(edges)
}

/// The numbers of the slots by symbol, all moved so that symbol 0 has zero.
pub fn assignment_of(alloc: Global, symbols: &[u32], table: &[Entry]) -> Result<Vec<i128>, NoMemory>
    requires few { length symbols.now < 2 ^ 32 }
    requires rises { IsStrictlyIncreasing symbols.now }
    requires zero { Contains symbols.now 0 }
    requires same { length table.now ≡ length symbols.now }
    requires down { (k : ℕ) → number_in table.now k ≤ℤ pos 0 }
    requires near { (k : ℕ) → pos 0 ≤ℤ (number_in table.now k +ℤ pos (2 ^ 120)) }
    ensures numbers { IfOk result (λ numbers. (slot x zero : ℕ) → slice_get symbols.now slot ≡ Some x → slice_get symbols.now zero ≡ Some 0 → slice_index_or numbers.items x (pos 0) ≡ (number_in table.now slot -ℤ number_in table.now zero)) }
    ensures within { IfOk result (λ numbers. (n : ℕ) → ((k : ℕ) → pos 0 ≤ℤ (number_in table.now k +ℤ pos n)) → (k : ℕ) → IsWithin n (slice_index_or numbers.items k (pos 0))) }
    ensures signed { IfOk result (λ numbers. (k : ℕ) → slice_index_or numbers.items k (pos 0) <ℤ pos 0 → Contains symbols.now k) }
{
    let zero = table[slot_of(symbols, 0) as usize].number;
    let greatest = symbols[symbols.len() - 1] as usize;
    let mut numbers: Vec<i128> = vec![in alloc; 0; greatest + 1]?;
    for slot in 0..symbols.len() {
        numbers[symbols[slot] as usize] = table[slot].number - zero;
    }
    Ok(numbers)
}
