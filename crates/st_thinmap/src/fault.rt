ghost use Rattle.std.specs.Prelude.{◌≡◌};
ghost use Rattle.st_thinmap.specs.declared.fault.PlanFault.TheVariants as plan;
ghost use Rattle.st_thinmap.specs.declared.fault.MapFault.TheVariants as map;

use st_units::NoMemory;
use std::alloc::AllocError;
use thiserror::Error;

/// Why a write was not planned.
#[derive(Debug, Drop, Error)]
pub enum PlanFault {
    /// There are so many mappings, and the write would add so many.
    #[error("{0} mappings and {1} more are too many")]
    MappingFull(u64, u64),
    /// So many blocks are free, and the write needs so many.
    #[error("{0} blocks are free, and {1} are needed")]
    NoSpace(u64, u64),
    #[error("out of memory")]
    OutOfMemory,
}

impl From<AllocError> for PlanFault {
    ghost from_gives = { λ _ fault. fault ≡ plan.OutOfMemory };

    fn from(_refused: AllocError) -> PlanFault {
        PlanFault::OutOfMemory
    }
}

/// Why a snapshot was not made.
#[derive(Debug, Drop, Error)]
pub enum MapFault {
    /// There are so many mappings, and the snapshot would add so many.
    #[error("{0} mappings and {1} more are too many")]
    MappingFull(u64, u64),
    #[error("out of memory")]
    OutOfMemory,
}

impl From<AllocError> for MapFault {
    ghost from_gives = { λ _ fault. fault ≡ map.OutOfMemory };

    fn from(_refused: AllocError) -> MapFault {
        MapFault::OutOfMemory
    }
}
