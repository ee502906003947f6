// Why a call on a shelf or a sink fails, and why a load does.
ghost use Rattle.std.specs.Prelude.{◌≡◌};

use pv_base::NoMemory;
use std::alloc::{AllocError, AllocFailed};
use thiserror::Error;

/// A call on a shelf or a sink failed, and its count of faults has risen.
#[derive(Clone, Copy, Debug, PartialEq, Eq, Drop)]
pub struct Failed;

/// Why a file was not loaded.
#[derive(Clone, Copy, Debug, PartialEq, Eq, Drop, Error)]
pub enum LoadFault {
    #[error("there is no such file")]
    NoFile,
    #[error("the file is too large")]
    TooLarge,
    #[error("the file could not be read")]
    Failed,
    #[error("out of memory")]
    NoMemory,
}

impl From<Failed> for LoadFault {
    ghost use Rattle.pv_io.specs.declared.faults.LoadFault.TheVariants.{Failed as FailedFault};

    ghost from_gives = { λ _ fault. fault ≡ FailedFault };

    fn from(_: Failed) -> LoadFault {
        LoadFault::Failed
    }
}

impl From<NoMemory> for LoadFault {
    ghost use Rattle.pv_io.specs.declared.faults.LoadFault.TheVariants.{NoMemory as NoMemoryFault};

    ghost from_gives = { λ _ fault. fault ≡ NoMemoryFault };

    fn from(_: NoMemory) -> LoadFault {
        LoadFault::NoMemory
    }
}

impl From<AllocError> for LoadFault {
    ghost use Rattle.pv_io.specs.declared.faults.LoadFault.TheVariants.{NoMemory as NoMemoryFault};

    ghost from_gives = { λ _ fault. fault ≡ NoMemoryFault };

    fn from(_: AllocError) -> LoadFault {
        LoadFault::NoMemory
    }
}

impl<T: Drop> From<AllocFailed<T>> for LoadFault {
    ghost use Rattle.pv_io.specs.declared.faults.LoadFault.TheVariants.{NoMemory as NoMemoryFault};

    ghost from_gives = { λ _ fault. fault ≡ NoMemoryFault };

    fn from(_: AllocFailed<T>) -> LoadFault {
        LoadFault::NoMemory
    }
}
