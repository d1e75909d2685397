ghost use Rattle.std.specs.Prelude.{◌≡◌, ◌↔◌, IsTrue};
ghost use Rattle.st_limits.specs.Sums.{IsDeviceSize, usable_blocks};

use crate::{BLOCK_SECTORS, MAX_DEVICE_SECTORS, MIN_DEVICE_SECTORS, RESERVED_SECTORS};

/// Whether a device of a pool may have so many sectors.
pub fn is_device_size(sectors: u64) -> bool
    ensures { IsTrue result ↔ IsDeviceSize sectors }
{
    MIN_DEVICE_SECTORS <= sectors && sectors <= MAX_DEVICE_SECTORS
}

/// How many usable blocks a device of so many sectors has.
pub fn usable_blocks(sectors: u64) -> u64
    ensures { result ≡ usable_blocks sectors }
{
    sectors.saturating_sub(RESERVED_SECTORS) / BLOCK_SECTORS
}
