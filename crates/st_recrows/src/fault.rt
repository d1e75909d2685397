ghost use Rattle.std.specs.Prelude.{◌≡◌};
ghost use Rattle.st_recrows.specs.declared.fault.RecFault.TheVariants.{OutOfMemory};

use st_units::NoMemory;
use std::alloc::{AllocError, AllocFailed};
use thiserror::Error;

/// Why bytes gave no record.
#[derive(Clone, Copy, Debug, PartialEq, Eq, Error)]
pub enum RecFault {
    /// The bytes are the spelling of no record.
    #[error("not a record")]
    NotARecord,
    #[error("out of memory")]
    OutOfMemory,
}

impl From<NoMemory> for RecFault {
    ghost from_gives = { λ _ e. e ≡ OutOfMemory };

    fn from(_refused: NoMemory) -> RecFault {
        RecFault::OutOfMemory
    }
}

impl From<AllocError> for RecFault {
    ghost from_gives = { λ _ e. e ≡ OutOfMemory };

    fn from(_refused: AllocError) -> RecFault {
        RecFault::OutOfMemory
    }
}

impl<T: Drop> From<AllocFailed<T>> for RecFault {
    ghost from_gives = { λ _ e. e ≡ OutOfMemory };

    fn from(_refused: AllocFailed<T>) -> RecFault {
        RecFault::OutOfMemory
    }
}

impl<T: Drop> From<(T, NoMemory)> for RecFault {
    ghost from_gives = { λ _ e. e ≡ OutOfMemory };

    fn from(_refused: (T, NoMemory)) -> RecFault {
        RecFault::OutOfMemory
    }
}
