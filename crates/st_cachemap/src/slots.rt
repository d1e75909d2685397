//! The parts of a cache map that know nothing of order: the free places and the bucket of a cell.
ghost use Rattle.std.specs.Prelude.{◌≡◌, ◌<◌, ◌≤◌, IfOk, length};
ghost use Rattle.st_cachemap.specs.Sound.{bucket_of, IsUnused};

use st_links::Links;
use st_units::NoMemory;
use std::alloc::Global;

/// The list of the places in use, the one used last first.
pub const USED: usize = 0;

/// The list of the free places.
pub const FREE: usize = 1;

/// 2 to the power of 64 over the golden ratio, made odd: the usual factor of a multiplicative hash.
pub const SPREAD: u64 = 0x9E37_79B9_7F4A_7C15;

/// The bucket of a cell among so many.
pub fn bucket_of(cell: u64, buckets: usize) -> usize
    requires { 0 < buckets }
    ensures bucket { result ≡ bucket_of cell buckets }
    ensures below { result < buckets }
{
    (cell.wrapping_mul(SPREAD) >> 32) as usize % buckets
}

/// The two lists over so many places, all of which are free.
pub fn all_free(alloc: Global, capacity: usize) -> Result<Links, NoMemory>
    ensures { IfOk result (λ order. IsUnused order capacity capacity) }
{
    let mut order = Links::make(alloc, 2, capacity)?;
    for place in 0..capacity {
        order.push_back(FREE, place);
    }
    Ok(order)
}
