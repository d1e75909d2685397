//! Laws of a rack that parts. They do nothing when they run.

ghost use Rattle.st_parting.specs.Own.{PoolsPart, PoolsLieApart, ForOneAlone};
ghost use Rattle.st_parting.specs.Free.{OthersAreFree};

/// Each known pool is kept by its own devices, on a rack of their own.
pub fn pools_part()
    ensures { PoolsPart }
{}

/// No device is used by two known pools.
pub fn pools_lie_apart()
    ensures { PoolsLieApart }
{}

/// No device that a known pool uses bears a candidate of another pool.
pub fn for_one_alone()
    ensures { ForOneAlone }
{}

/// Each device that no known pool uses is free, once pools that are gone are finished.
pub fn others_are_free()
    ensures { OthersAreFree }
{}
