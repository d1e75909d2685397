ghost use Rattle.std.specs.Prelude.{◌≡◌, ◌≤◌, ◌*◌, ◌^◌, length};
ghost use Rattle.std.specs.List.{AllByRecursion};
ghost use Rattle.st_model.specs.declared.state.FsState.{FsState};
ghost use Rattle.st_model.specs.Checks.{is_below, is_no_size, over_provision, sizes, worn};
ghost use Rattle.st_model.specs.Sums.{AreSmall};

use st_limits::{BLOCK_SECTORS, MAX_COMMITS, MAX_FS_SECTORS};
use st_model::{FsState, PoolState, Reply, room};
use st_units::Cause;

/// The refusal of a pool that has made all its commits.
pub fn worn(pool: &PoolState) -> Option<Reply>
    ensures { result ≡ worn pool.now }
{
    if pool.commits == MAX_COMMITS {
        Some(Reply::refused(Cause::Worn))
    } else {
        None
    }
}

/// Whether this is no size, and no limit, that a filesystem may have.
pub fn is_no_size(size: Option<u64>) -> bool
    ensures { result ≡ is_no_size size }
{
    match size {
        Some(n) => !(0 < n && n % BLOCK_SECTORS == 0 && n <= MAX_FS_SECTORS),
        None => false,
    }
}

/// Whether there is a limit, which is below the size.
pub fn is_below(limit: Option<u64>, size: u64) -> bool
    ensures { result ≡ is_below limit size }
{
    match limit {
        Some(limit) => limit < size,
        None => false,
    }
}

/// The sizes of all filesystems, in blocks.
pub fn sizes(filesystems: &[FsState]) -> u64
    requires few { length filesystems.now ≤ 2 ^ 16 }
    requires small { AllByRecursion (λ (fs : FsState). fs.row.size ≤ 2 ^ 32) filesystems.now }
    ensures sum { result ≡ sizes filesystems.now }
    ensures bound { result ≤ length filesystems.now * 2 ^ 32 }
{
    let mut sum = 0;
    for fs in filesystems {
        sum += fs.row.size / BLOCK_SECTORS;
    }
    sum
}

/// The refusal where overprovisioning is off and the sum of all sizes would be above the room.
pub fn over_provision(pool: &PoolState, sum: u64) -> Option<Reply>
    requires { AreSmall pool.now.devices }
    ensures { result ≡ over_provision pool.now sum }
{
    let room = room(pool);
    if !pool.overprovisioning && room < sum {
        Some(Reply::refused(Cause::OverProvision(sum, room)))
    } else {
        None
    }
}
