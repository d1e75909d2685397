ghost use Rattle.std.specs.Prelude.{◌≡◌};
ghost use Rattle.st_seg.specs.declared.fault.SegFault.TheVariants.{OutOfMemory};

use st_units::NoMemory;
use thiserror::Error;

/// Why no segments were handed out.
#[derive(Debug, Drop, Error)]
pub enum SegFault {
    /// Fewer blocks are free than were asked for: this many.
    #[error("only {0} blocks are free")]
    NoRoom(u64),
    #[error("out of memory")]
    OutOfMemory,
}

impl From<NoMemory> for SegFault {
    ghost from_gives = { λ _ fault. fault ≡ OutOfMemory };

    fn from(_refused: NoMemory) -> SegFault {
        SegFault::OutOfMemory
    }
}
