ghost use Rattle.std.specs.Prelude.{◌≡◌, ℕ, filter, option_map, option_copied, IfOk, OnOk, OnErr};
ghost use Rattle.std.specs.List.{list_any};
ghost use Rattle.st_model.specs.Merged.{is_mapped, with_filesystems};
ghost use Rattle.st_merges.specs.inner.Kept.{has_cell, mapped_cells, mapped_entries, with_mapped};

use st_model::{CacheState, FsState, NumberMap, PoolState};
use st_units::{Bytes, ItemList, NoMemory};
use std::alloc::Global;

fn has_cell(map: &NumberMap<u64>, cell: u64) -> bool
    ensures { result ≡ has_cell cell map.now }
{
    map.iter().any(|(_, mapped)| *mapped == cell)
}

/// Whether some block of some filesystem has the cell.
fn is_mapped(filesystems: &[FsState], cell: u64) -> bool
    ensures { result ≡ is_mapped filesystems.now cell }
{
    filesystems.iter().any(|fs| has_cell(&fs.map, cell))
}

/// The entries of the cells that are mapped.
fn mapped_entries(
    alloc: Global,
    cells: &NumberMap<Bytes>,
    filesystems: &[FsState],
) -> Result<NumberMap<Bytes>, NoMemory>
    ensures { IfOk result (λ kept. kept ≡ mapped_entries filesystems.now cells.now) }
{
    let mut kept = NumberMap::make(alloc);
    for (cell, bytes) in cells.iter() {
        if is_mapped(filesystems, *cell) {
            kept.insert(*cell, Bytes::copy_of(alloc, bytes.items())?)?;
        }
    }
    Ok(kept)
}

/// The cells that are mapped.
fn mapped_cells(
    alloc: Global,
    cells: &[u64],
    filesystems: &[FsState],
) -> Result<ItemList<u64>, NoMemory>
    ensures { IfOk result (λ kept. kept ≡ mapped_cells filesystems.now cells.now) }
{
    let mut kept = ItemList::make(alloc);
    for cell in cells {
        if is_mapped(filesystems, *cell) {
            kept.push(*cell)?;
        }
    }
    Ok(kept)
}

/// The cache without the cells that are mapped no more.
fn mapped_cache(
    alloc: Global,
    cache: Option<&CacheState>,
    filesystems: &[FsState],
) -> Result<Option<CacheState>, NoMemory>
    ensures { IfOk result (λ kept. kept ≡ option_map (with_mapped filesystems.now) (option_copied cache.entry)) }
{
    match cache {
        Some(cache) => Ok(Some(CacheState {
            capacity: cache.capacity,
            cells: mapped_cells(alloc, cache.cells.items(), filesystems)?,
            hits: cache.hits,
            misses: cache.misses,
        })),
        None => Ok(None),
    }
}

/// Gives the pool these filesystems; cells that are mapped no more go, also from the cache.
pub fn with_filesystems(
    pool: &mut PoolState,
    alloc: Global,
    filesystems: ItemList<FsState>,
) -> Result<(), NoMemory>
    ensures ok { OnOk result (pool.new ≡ with_filesystems filesystems pool.old) }
    ensures err { OnErr result (pool.new ≡ pool.old) }
{
    let cells = mapped_entries(alloc, &pool.cells, filesystems.items())?;
    let cache = mapped_cache(alloc, pool.cache.as_ref(), filesystems.items())?;
    pool.filesystems = filesystems;
    pool.cells = cells;
    pool.cache = cache;
    Ok(())
}
