//! What a check of a pool adds: blocks to its data tier, and sectors to a filesystem.
#![tactic(auto)]

ghost use Rattle.std.specs.Prelude.{◌≡◌, ◌+◌, ◌^◌, ◌≤◌, IfSome};
ghost use Rattle.std.specs.Option.{ForSome};
ghost use Rattle.st_limits.specs.Growth as rule;

use st_limits::{BLOCK_SECTORS, EXTENSION_STEP, LOW_WATER, MAX_FS_SECTORS};

/// The blocks that are to be added to the `allocated` ones, of which `used` are mapped; `room` is the most that there may be.
pub fn extension(allocated: u64, used: u64, room: u64) -> u64
    requires mapped { used ≤ allocated }
    requires fits { allocated ≤ room }
    ensures added { result ≡ rule.extension allocated used room }
    ensures within { allocated + result ≤ room }
{
    if allocated - used < LOW_WATER {
        EXTENSION_STEP.min(room - allocated)
    } else {
        0
    }
}

/// The new size in sectors of a filesystem of `size` sectors with `mapped` blocks. `others` are the blocks of the other filesystems
/// together, `room` the blocks of the data tier, and `over` says that the sizes may be above it.
pub fn grown(size: u64, mapped: u64, limit: Option<u64>, others: u64, room: u64, over: bool) -> u64
    requires size { size ≤ MAX_FS_SECTORS }
    requires limit { ForSome limit (λ most. size ≤ most) }
    requires mapped { mapped ≤ 2 ^ 40 }
    requires others { others ≤ 2 ^ 40 }
    ensures grown { result ≡ rule.grown size mapped limit others room over }
    ensures no_smaller { size ≤ result }
    ensures no_larger { result ≤ MAX_FS_SECTORS }
    ensures in_limit { IfSome limit (λ most. result ≤ most) }
{
    let larger = doubled(size, limit);
    let is_filling = size / BLOCK_SECTORS < 2 * mapped;
    let is_allowed = over || others + larger / BLOCK_SECTORS <= room;
    if is_filling && is_allowed {
        larger
    } else {
        size
    }
}

/// Twice the size, or as much of that as the limit and the greatest size allow.
fn doubled(size: u64, limit: Option<u64>) -> u64
    requires size { size ≤ MAX_FS_SECTORS }
    requires limit { ForSome limit (λ most. size ≤ most) }
    ensures doubled { result ≡ rule.doubled size limit }
    ensures no_smaller { size ≤ result }
    ensures no_larger { result ≤ MAX_FS_SECTORS }
    ensures in_limit { IfSome limit (λ most. result ≤ most) }
{
    (2 * size).min(limit.unwrap_or(MAX_FS_SECTORS).min(MAX_FS_SECTORS))
}
