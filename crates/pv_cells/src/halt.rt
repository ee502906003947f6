//! Why a part of a run doesn't go on.
ghost use Rattle.pv_cells.specs.declared.halt.Halt.TheVariants.{NoMemory as WantOfMemory};
ghost use Rattle.std.specs.Prelude.{◌≡◌};

use pv_base::{NoMemory, Span};
use pv_picks::Check;
use std::alloc::{AllocError, AllocFailed};

/// Why a part of a run doesn't go on.
#[derive(Clone, Copy, Debug, PartialEq, Eq, Drop)]
pub enum Halt {
    /// What a formula reads at the span isn't there.
    Missing(Span),
    /// The run is blocked.
    Blocked,
    /// The run fails the check at the span.
    Failed(Check, Span),
    /// The value of the operation at the span is outside 128 bits.
    Overflow(Span),
    /// A range has so many positions, more than 65,536. The greatest number stands for itself and all above it.
    RangeTooLong(i128),
    /// Memory ran out. No contract says when.
    NoMemory,
}

impl From<NoMemory> for Halt {
    ghost from_gives = { λ _ halt. halt ≡ WantOfMemory };

    fn from(_: NoMemory) -> Halt {
        Halt::NoMemory
    }
}

impl From<AllocError> for Halt {
    ghost from_gives = { λ _ halt. halt ≡ WantOfMemory };

    fn from(_: AllocError) -> Halt {
        Halt::NoMemory
    }
}

impl<T: Drop> From<AllocFailed<T>> for Halt {
    ghost from_gives = { λ _ halt. halt ≡ WantOfMemory };

    fn from(_: AllocFailed<T>) -> Halt {
        Halt::NoMemory
    }
}
