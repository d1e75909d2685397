ghost use Rattle.std.specs.Prelude.{◌≡◌, option_copied, IfOk, OnOk, OnErr};
ghost use Rattle.st_model.specs.Merged.{is_origin, leaving, merged, merged_filesystems, merged_fs, merged_origin, replaced_by, replacer};

use crate::kept::with_filesystems;
use st_model::{FsState, PoolState};
use st_units::{FsRow, ItemList, NoMemory};
use std::alloc::Global;

/// Whether the origin is the filesystem of this serial.
pub fn is_origin(serial: u64, origin: Option<u64>) -> bool
    ensures { result ≡ is_origin serial origin }
{
    match origin {
        Some(origin) => origin == serial,
        None => false,
    }
}

/// The marked filesystem that is to replace the one of this serial.
fn replacer(serial: u64, filesystems: &[FsState]) -> Option<&FsState>
    ensures { option_copied result ≡ replacer serial filesystems.now }
{
    filesystems
        .iter()
        .find(|fs| fs.row.merge && is_origin(serial, fs.row.origin))
}

/// The marked filesystem of this serial, which goes.
fn leaving(serial: u64, filesystems: &[FsState]) -> Option<&FsState>
    ensures { option_copied result ≡ leaving serial filesystems.now }
{
    filesystems
        .iter()
        .find(|fs| fs.row.merge && fs.row.serial == serial)
}

/// The origin once the merge is done: where it goes, what it replaces.
fn merged_origin(filesystems: &[FsState], origin: Option<u64>) -> Option<u64>
    ensures { result ≡ merged_origin filesystems.now origin }
{
    let serial = origin?;
    match leaving(serial, filesystems) {
        Some(gone) => gone.row.origin,
        None => Some(serial),
    }
}

/// The filesystem, with size, limit and map of the one that replaces it.
fn replaced_by(fs: &FsState, other: Option<&FsState>) -> Result<FsState, NoMemory>
    ensures { IfOk result (λ new. new ≡ replaced_by fs.now (option_copied other.entry)) }
{
    let from = match other {
        Some(other) => other,
        None => fs,
    };
    Ok(FsState {
        row: FsRow {
            serial: fs.row.serial,
            name: fs.row.name.copy()?,
            size: from.row.size,
            limit: from.row.limit,
            origin: fs.row.origin,
            merge: fs.row.merge,
        },
        map: from.map.copy()?,
    })
}

fn merged_fs(filesystems: &[FsState], fs: &FsState) -> Result<FsState, NoMemory>
    ensures { IfOk result (λ new. new ≡ merged_fs filesystems.now fs.now) }
{
    let mut new = replaced_by(fs, replacer(fs.row.serial, filesystems))?;
    new.row.origin = merged_origin(filesystems, fs.row.origin);
    Ok(new)
}

/// All that aren't marked, as the merge leaves them.
fn merged_filesystems(alloc: Global, filesystems: &[FsState]) -> Result<ItemList<FsState>, NoMemory>
    ensures { IfOk result (λ list. list ≡ merged_filesystems filesystems.now) }
{
    let mut list = ItemList::make(alloc);
    for fs in filesystems {
        if !fs.row.merge {
            list.push(merged_fs(filesystems, fs)?)?;
        }
    }
    Ok(list)
}

/// Makes the pool its merge.
pub fn merge(pool: &mut PoolState, alloc: Global) -> Result<(), NoMemory>
    ensures ok { OnOk result (pool.new ≡ merged pool.old) }
    ensures err { OnErr result (pool.new ≡ pool.old) }
{
    let filesystems = merged_filesystems(alloc, pool.filesystems.items())?;
    with_filesystems(pool, alloc, filesystems)
}
