//! Numbers for all symbols.

ghost use Rattle.std.specs.Prelude.{◌≡◌, ℕ, ℤ, pos, ◌+◌, ◌^◌, ◌<◌, ◌≤◌, length, slice_index_or, IfOk, All};
ghost use Rattle.std.specs.List.Sorted.{IsStrictlyIncreasing};
ghost use Rattle.pv_diff.specs.Classes.{class_at};
ghost use Rattle.pv_diff.specs.Numbering.{AreNumbered};

use pv_base::NoMemory;
use pv_linear::Assignment;
use sqlite_items::Items;
use std::alloc::Global;

/// The numbers, with zeros behind them up to a length.
fn padded(alloc: Global, numbers: Vec<i128>, size: usize) -> Result<Vec<i128>, NoMemory>
    ensures size { IfOk result (λ padded. size ≤ length padded.items) }
    ensures same { IfOk result (λ padded. (k : ℕ) → slice_index_or padded.items k (pos 0) ≡ slice_index_or numbers.items k (pos 0)) }
{
    let mut padded = numbers;
    if padded.len() < size {
        let mut zeros = vec![in alloc; 0; size - padded.len()]?;
        padded.append(&mut zeros)?;
    }
    Ok(padded)
}

/// The numbers with those of the references, each the number of its class.
pub fn with_classes(
    alloc: Global,
    numbers: Vec<i128>,
    references: &[u32],
    classes: &[usize],
) -> Result<Assignment, NoMemory>
    requires some { 0 < length references.now }
    requires rises { IsStrictlyIncreasing references.now }
    requires size { length classes.now ≡ length references.now }
    ensures { IfOk result (λ all. AreNumbered references.now classes.now numbers.items all) }
{
    let greatest = references[references.len() - 1] as usize;
    let mut all = padded(alloc, numbers, greatest + 1)?;
    for slot in 0..references.len() {
        all[references[slot] as usize] = classes[slot] as i128;
    }
    Ok(Items::from_vec(all))
}
