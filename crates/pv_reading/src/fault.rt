use pv_base::Span;
use std::alloc::{AllocError, AllocFailed};
use thiserror::Error;

/// Why tokens were not read, inside the readers. A place is the number of tokens from it to the end.
#[derive(Clone, Copy, Debug, PartialEq, Eq, Drop)]
pub enum ReadFault {
    /// From here on the tokens don't go on with those before.
    Unexpected(usize),
    /// The token here opens one construct more than may be open.
    TooDeep(usize),
    /// Memory ran out.
    NoMemory,
}

/// Why tokens spell nothing.
#[derive(Clone, Copy, Debug, PartialEq, Eq, Drop, Error)]
pub enum ParseFault {
    /// The first token up to which the tokens are the front of nothing that can be spelled; at the end of the text an empty
    /// span there.
    #[error("the token at byte {} doesn't go on with those before", .0.from)]
    Unexpected(Span),
    /// The first token that opens one construct more than the 64 that may be open.
    #[error("more than 64 constructs are open at byte {}", .0.from)]
    TooDeep(Span),
    /// Memory ran out.
    #[error("out of memory")]
    NoMemory,
}

impl From<AllocError> for ReadFault {
    ghost use Rattle.std.specs.Prelude.{◌≡◌};
    ghost use Rattle.pv_reading.specs.declared.fault.ReadFault.TheVariants.{NoMemory};

    ghost from_gives = { λ _ e. e ≡ NoMemory };

    fn from(_: AllocError) -> ReadFault {
        ReadFault::NoMemory
    }
}

impl<T: Drop> From<AllocFailed<T>> for ReadFault {
    ghost use Rattle.std.specs.Prelude.{◌≡◌};
    ghost use Rattle.pv_reading.specs.declared.fault.ReadFault.TheVariants.{NoMemory};

    ghost from_gives = { λ _ e. e ≡ NoMemory };

    fn from(_: AllocFailed<T>) -> ReadFault {
        ReadFault::NoMemory
    }
}
