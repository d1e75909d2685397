ghost use Rattle.std.specs.Prelude.{◌≡◌};
ghost use Rattle.st_assemble.specs.declared.fault.FoundFault.TheVariants.{OutOfMemory};

use st_units::NoMemory;
use thiserror::Error;

/// Why nothing was found.
#[derive(Clone, Copy, Debug, PartialEq, Eq, Error)]
pub enum FoundFault {
    /// A device failed.
    #[error("device fault")]
    Fault,
    /// The devices stand for no state: the least serial that breaks a rule.
    #[error("foreign devices")]
    Foreign(u64),
    #[error("out of memory")]
    OutOfMemory,
}

impl From<NoMemory> for FoundFault {
    ghost from_gives = { λ _ e. e ≡ OutOfMemory };

    fn from(_refused: NoMemory) -> FoundFault {
        FoundFault::OutOfMemory
    }
}

impl<T: Drop> From<(T, NoMemory)> for FoundFault {
    ghost from_gives = { λ _ e. e ≡ OutOfMemory };

    fn from(_refused: (T, NoMemory)) -> FoundFault {
        FoundFault::OutOfMemory
    }
}
