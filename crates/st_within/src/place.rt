ghost use Rattle.std.specs.Prelude.{◌≡◌, ◌<◌, length, slice_get, None, IfOk, IfSome, IfNone};
ghost use Rattle.std.specs.List.{position};
ghost use Rattle.st_model.specs.Checks.{not_up};
ghost use Rattle.st_model.specs.Look.{is_called};
ghost use Rattle.st_model.specs.Parts.{pool_at};

use st_model::{PoolMode, PoolState, Reply, look};
use st_units::{Cause, Name, NoMemory};

fn place_in(pools: &[PoolState], name: &Name) -> Option<usize>
    ensures { result ≡ position (is_called name.now) pools.now }
{
    pools.iter().position(|pool| look::is_called(pool, name))
}

/// The place of the pool of this name.
pub fn place_of(pools: &[PoolState], name: &Name) -> Option<usize>
    ensures within { IfSome result (λ i. i < length pools.now) }
    ensures at { IfSome result (λ i. pool_at name.now pools.now ≡ slice_get pools.now i) }
    ensures none { IfNone result (pool_at name.now pools.now ≡ None) }
{
    place_in(pools, name)
}

/// The refusal of a pool that isn't up.
pub fn not_up(pool: &PoolState) -> Result<Option<Reply>, NoMemory>
    ensures { IfOk result (λ reply. reply ≡ not_up pool.now pool.now.mode) }
{
    match &pool.mode {
        PoolMode::Up => Ok(None),
        PoolMode::Down(_) => Ok(Some(Reply::refused(Cause::Maintenance(pool.name.copy()?)))),
        PoolMode::Stopped | PoolMode::Unsettled(_) | PoolMode::Incomplete(_) => {
            Ok(Some(Reply::refused(Cause::PoolStopped)))
        }
    }
}
