ghost use Rattle.std.specs.Prelude.{◌≡◌, IfOk};

use st_model::{CacheState, FsState, PoolMode};
use st_units::{ItemList, NoMemory};
use std::alloc::Global;

/// The same filesystem once more.
pub fn fs_copy(fs: &FsState) -> Result<FsState, NoMemory>
    ensures { IfOk result (λ copy. copy ≡ fs.now) }
{
    Ok(FsState {
        row: fs.row.copy()?,
        map: fs.map.copy()?,
    })
}

/// The same filesystems once more.
pub fn filesystems_copy(
    alloc: Global,
    filesystems: &[FsState],
) -> Result<ItemList<FsState>, NoMemory>
    ensures { IfOk result (λ list. list ≡ filesystems.now) }
{
    let mut list = ItemList::make(alloc);
    for fs in filesystems {
        list.push(fs_copy(fs)?)?;
    }
    Ok(list)
}

/// The same numbers once more.
pub fn numbers_copy(alloc: Global, numbers: &[u64]) -> Result<ItemList<u64>, NoMemory>
    ensures { IfOk result (λ list. list ≡ numbers.now) }
{
    let mut list = ItemList::make(alloc);
    for number in numbers {
        list.push(*number)?;
    }
    Ok(list)
}

/// The same cache once more.
pub fn cache_copy(alloc: Global, cache: &CacheState) -> Result<CacheState, NoMemory>
    ensures { IfOk result (λ copy. copy ≡ cache.now) }
{
    Ok(CacheState {
        capacity: cache.capacity,
        cells: numbers_copy(alloc, cache.cells.items())?,
        hits: cache.hits,
        misses: cache.misses,
    })
}

/// The same mode once more.
pub fn mode_copy(alloc: Global, mode: &PoolMode) -> Result<PoolMode, NoMemory>
    ensures { IfOk result (λ copy. copy ≡ mode.now) }
{
    match mode {
        PoolMode::Up => Ok(PoolMode::Up),
        PoolMode::Down(call) => Ok(PoolMode::Down(call.copy(alloc)?)),
        PoolMode::Stopped => Ok(PoolMode::Stopped),
        PoolMode::Unsettled(call) => Ok(PoolMode::Unsettled(call.copy(alloc)?)),
        PoolMode::Incomplete(path) => Ok(PoolMode::Incomplete(path.copy()?)),
    }
}
