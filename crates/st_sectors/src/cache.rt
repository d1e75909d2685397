ghost use Rattle.std.specs.Prelude.{◌≡◌, ◌∷◌, option_copied, option_map, IfOk, OnOk};
ghost use Rattle.st_limits.specs.Cache.{has, promoted, touched, without};
ghost use Rattle.st_model.specs.steps.FsRead.{with_read, with_reads};

use crate::slices::firsts;
use st_copies::{cache_copy, numbers_copy};
use st_model::CacheState;
use st_units::{ItemList, NoMemory};
use std::alloc::Global;

/// Whether the cell stands in the list.
fn has(cells: &[u64], cell: u64) -> bool
    ensures { result ≡ has cell cells.now }
{
    cells.iter().any(|other| cell == *other)
}

/// The cell, and behind it the others of the list.
fn in_front(alloc: Global, cell: u64, cells: &[u64]) -> Result<ItemList<u64>, NoMemory>
    ensures { IfOk result (λ list. list ≡ cell ∷ without cell cells.now) }
{
    let mut list = ItemList::make(alloc);
    list.push(cell)?;
    for other in cells {
        if cell != *other {
            list.push(*other)?;
        }
    }
    Ok(list)
}

/// The list after a read of the cell, which stands first then.
fn touched(
    alloc: Global,
    capacity: u64,
    cell: u64,
    cells: &[u64],
) -> Result<ItemList<u64>, NoMemory>
    ensures { IfOk result (λ list. list ≡ touched capacity cell cells.now) }
{
    let list = in_front(alloc, cell, cells)?;
    numbers_copy(alloc, firsts(list.items(), capacity as usize))
}

/// The list after a change of the cell in place: it stands first then, if it stood there.
pub fn promoted(alloc: Global, cell: u64, cells: &[u64]) -> Result<ItemList<u64>, NoMemory>
    ensures { IfOk result (λ list. list ≡ promoted cell cells.now) }
{
    if has(cells, cell) {
        in_front(alloc, cell, cells)
    } else {
        numbers_copy(alloc, cells)
    }
}

/// The cache takes note of a cell that is read.
fn read_cell(cache: &mut CacheState, alloc: Global, cell: u64) -> Result<(), NoMemory>
    ensures { OnOk result (cache.new ≡ with_read cell cache.old) }
{
    let cells = touched(alloc, cache.capacity, cell, cache.cells.items())?;
    if has(cache.cells.items(), cell) {
        cache.hits = cache.hits.saturating_add(1);
    } else {
        cache.misses = cache.misses.saturating_add(1);
    }
    cache.cells = cells;
    Ok(())
}

fn with_reads(alloc: Global, cells: &[u64], cache: &CacheState) -> Result<CacheState, NoMemory>
    ensures { IfOk result (λ after. after ≡ with_reads cells.now cache.now) }
{
    let mut after = cache_copy(alloc, cache)?;
    for cell in cells {
        read_cell(&mut after, alloc, *cell)?;
    }
    Ok(after)
}

/// The cache, where there is one, after these cells were read.
pub(crate) fn cache_after(
    alloc: Global,
    cells: &[u64],
    cache: Option<&CacheState>,
) -> Result<Option<CacheState>, NoMemory>
    ensures { IfOk result (λ after. after ≡ option_map (with_reads cells.now) (option_copied cache.entry)) }
{
    match cache {
        Some(cache) => Ok(Some(with_reads(alloc, cells, cache)?)),
        None => Ok(None),
    }
}
