ghost use Rattle.std.specs.Prelude.{◌≡◌, ◌+◌, ◌<◌, ◌^◌, nat_lt, None, IfOk, OnErr};
ghost use Rattle.st_model.specs.Answer.{first_answer};
ghost use Rattle.st_model.specs.Content.{touched};
ghost use Rattle.st_model.specs.steps.FsRead.{cells_read, fs_read, read_answers};

use crate::cache::cache_after;
use crate::content::content;
use crate::stretch::stretches;
use st_limits::MAX_READ_SECTORS;
use st_model::{FsState, Given, PoolState, Reply};
use st_settings::place_of_fs;
use st_units::{Cause, ItemList, Name, NoMemory};
use std::alloc::Global;

/// Whether the filesystem ends before the last of so many sectors from this one on.
pub fn is_out_of_range(fs: &FsState, sector: u64, sectors: u64) -> bool
    ensures { result ≡ nat_lt fs.now.row.size (sector + sectors) }
{
    (fs.row.size as u128) < sector as u128 + sectors as u128
}

/// The answer that changes nothing, where there is one.
fn read_answer(fs: &FsState, sector: u64, sectors: u64) -> Result<Option<Reply>, NoMemory>
    ensures answer { IfOk result (λ reply. reply ≡ first_answer (read_answers fs.now sector sectors)) }
    ensures room { IfOk result (λ reply. reply ≡ None → sector + sectors < 2 ^ 64) }
{
    if sectors == 0 || MAX_READ_SECTORS < sectors {
        return Ok(Some(Reply::refused(Cause::BadSize(fs.row.name.copy()?))));
    }
    let _size = fs.row.size;
    if is_out_of_range(fs, sector, sectors) {
        return Ok(Some(Reply::refused(Cause::OutOfRange)));
    }
    Ok(None)
}

/// The cells of the blocks that are read, in order.
fn cells_read(
    alloc: Global,
    fs: &FsState,
    sector: u64,
    sectors: u64,
) -> Result<ItemList<u64>, NoMemory>
    ensures { IfOk result (λ cells. cells ≡ cells_read fs.now (touched sector sectors)) }
{
    let stretches = stretches(alloc, sector, sectors)?;
    let mut cells = ItemList::make(alloc);
    let all = stretches.items();
    for stretch in all {
        if let Some(cell) = fs.map.get(stretch.block()) {
            cells.push(*cell)?;
        }
    }
    Ok(cells)
}

/// Reads sectors of the filesystem of this name, or answers why not. The cache takes note of their cells.
pub fn fs_read(
    pool: &mut PoolState,
    alloc: Global,
    name: &Name,
    sector: u64,
    sectors: u64,
) -> Result<Reply, NoMemory>
    ensures ok { IfOk result (λ reply. (reply, pool.new) ≡ fs_read name.now sector sectors pool.old) }
    ensures err { OnErr result (pool.new ≡ pool.old) }
{
    let Some(place) = place_of_fs(pool.filesystems.items(), name) else {
        return Ok(Reply::refused(Cause::NoSuchFilesystem));
    };
    let fs = pool.filesystems.at(place);
    if let Some(reply) = read_answer(fs, sector, sectors)? {
        return Ok(reply);
    }
    let bytes = content(alloc, pool, fs, sector, sectors)?;
    let cells = cells_read(alloc, fs, sector, sectors)?;
    let cache = cache_after(alloc, cells.items(), pool.cache.as_ref())?;
    pool.cache = cache;
    Ok(Reply::accepted(Given::Read(bytes)))
}
