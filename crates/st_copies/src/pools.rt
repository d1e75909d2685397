ghost use Rattle.std.specs.Prelude.{◌≡◌, IfOk, option_copied};

use crate::parts::{cache_copy, filesystems_copy, mode_copy};
use st_model::{CacheState, EngineState, PoolState};
use st_units::{ItemList, NoMemory};
use std::alloc::Global;

fn cache_copied(alloc: Global, cache: Option<&CacheState>) -> Result<Option<CacheState>, NoMemory>
    ensures { IfOk result (λ copy. copy ≡ option_copied cache.entry) }
{
    match cache {
        Some(cache) => Ok(Some(cache_copy(alloc, cache)?)),
        None => Ok(None),
    }
}

/// The same pool once more.
pub fn pool_copy(alloc: Global, pool: &PoolState) -> Result<PoolState, NoMemory>
    ensures { IfOk result (λ copy. copy ≡ pool.now) }
{
    Ok(PoolState {
        serial: pool.serial,
        name: pool.name.copy()?,
        mode: mode_copy(alloc, &pool.mode)?,
        devices: pool.devices.copy(alloc)?,
        filesystems: filesystems_copy(alloc, pool.filesystems.items())?,
        cells: pool.cells.copy(alloc)?,
        next_cell: pool.next_cell,
        next_filesystem: pool.next_filesystem,
        allocated: pool.allocated,
        filesystem_limit: pool.filesystem_limit,
        overprovisioning: pool.overprovisioning,
        commits: pool.commits,
        cache: cache_copied(alloc, pool.cache.as_ref())?,
    })
}

fn pools_copy(alloc: Global, pools: &[PoolState]) -> Result<ItemList<PoolState>, NoMemory>
    ensures { IfOk result (λ list. list ≡ pools.now) }
{
    let mut list = ItemList::make(alloc);
    for pool in pools {
        list.push(pool_copy(alloc, pool)?)?;
    }
    Ok(list)
}

/// The same state once more.
pub fn state_copy(alloc: Global, state: &EngineState) -> Result<EngineState, NoMemory>
    ensures { IfOk result (λ copy. copy ≡ state.now) }
{
    Ok(EngineState {
        pools: pools_copy(alloc, state.pools.items())?,
        devices: state.devices.copy(alloc)?,
        next: state.next,
    })
}
