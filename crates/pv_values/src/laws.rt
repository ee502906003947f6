//! Laws of well typed heaps: each is a function that proves its clause and answers nothing.
ghost use Rattle.std.specs.Prelude.{◌≡◌, ◌≢◌, ◌≤◌, ℕ, ℤ, Option, Some, IsSome};
ghost use Rattle.pv_base.specs.declared.Name.{Name};
ghost use Rattle.pv_values.specs.declared.value.Value.{Value};
ghost use Rattle.pv_values.specs.declared.value.Location.{Location};
ghost use Rattle.pv_values.specs.Changes.{IsWritten};
ghost use Rattle.pv_values.specs.declared.value.Value.TheVariants.{Reference};
ghost use Rattle.pv_values.specs.declared.value.Location.TheVariants.{Field, Cell};
ghost use Rattle.pv_values.specs.Heaps.{Things, value_at, count_of};
ghost use Rattle.pv_values.specs.Typing.{Kind, FitsAt, IsWellTyped};

/// A reference in a field of a well typed heap is null or stands in the heap.
pub fn references_stand()
    ensures { (kinds : Name → Name → Option Kind) (heap : Things) (object n : ℕ) (name : Name) → IsWellTyped kinds heap
        → value_at heap (Field object name) ≡ Some (Reference n) → n ≤ count_of heap }
{}

/// No element of an array of a well typed heap is a reference.
pub fn elements_are_plain()
    ensures { (kinds : Name → Name → Option Kind) (heap : Things) (array n : ℕ) (index : ℤ) → IsWellTyped kinds heap
        → value_at heap (Cell array index) ≢ Some (Reference n) }
{}

/// A write of a value of the kind of its location keeps a heap well typed.
pub fn writes_keep_types()
    ensures { (kinds : Name → Name → Option Kind) (old new : Things) (location : Location) (value : Value) → IsWellTyped kinds old
        → IsSome (value_at old location) → FitsAt kinds old location value → IsWritten location value old new
        → IsWellTyped kinds new }
{}
