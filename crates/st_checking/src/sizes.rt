ghost use Rattle.std.specs.Prelude.{◌≡◌, ◌≤◌, ◌^◌, length, map, IfOk};
ghost use Rattle.std.specs.List.{AllByRecursion};
ghost use Rattle.st_limits.specs.Growth.{all_grown, grown};
ghost use Rattle.st_model.specs.steps.Check.{count_grown, resized, volume_of};
ghost use Rattle.st_checking.specs.inner.Small.{IsSmallFs};

use st_grow::grown;
use st_limits::BLOCK_SECTORS;
use st_model::FsState;
use st_settings::sizes;
use st_units::{ItemList, NoMemory};
use std::alloc::Global;

/// The size of a filesystem after the check, where the others have so many blocks.
fn size_after(fs: &FsState, others: u64, room: u64, over: bool) -> u64
    requires small { IsSmallFs fs.now }
    requires others { others ≤ 2 ^ 40 }
    ensures grown { result ≡ grown fs.now.row.size (length fs.now.map) fs.now.row.limit others room over }
    ensures bound { result ≤ 2 ^ 32 }
{
    grown(
        fs.row.size,
        fs.map.len() as u64,
        fs.row.limit,
        others,
        room,
        over,
    )
}

/// The sizes of all filesystems after the check, in order of creation.
pub(crate) fn sizes_after(
    alloc: Global,
    filesystems: &[FsState],
    room: u64,
    over: bool,
) -> Result<ItemList<u64>, NoMemory>
    requires few { length filesystems.now ≤ 256 }
    requires small { AllByRecursion IsSmallFs filesystems.now }
    ensures { IfOk result (λ list. list ≡ all_grown room over 0 (map volume_of filesystems.now)) }
{
    let mut list = ItemList::make(alloc);
    let mut before = 0;
    let mut behind = sizes(filesystems);
    for fs in filesystems {
        behind -= fs.row.size / BLOCK_SECTORS;
        let size = size_after(fs, before + behind, room, over);
        before += size / BLOCK_SECTORS;
        list.push(size)?;
    }
    Ok(list)
}

/// How many filesystems get another size.
pub(crate) fn count_grown(filesystems: &[FsState], sizes: &[u64]) -> u64
    requires { length sizes.now ≡ length filesystems.now }
    ensures { result ≡ count_grown filesystems.now sizes.now }
{
    let mut count = 0;
    for (i, fs) in filesystems.iter().enumerate() {
        if fs.row.size != sizes[i] {
            count += 1;
        }
    }
    count
}

/// Gives the filesystems these sizes.
pub(crate) fn resize(filesystems: &mut ItemList<FsState>, sizes: &[u64])
    requires { length sizes.now ≡ length filesystems.old }
    ensures { filesystems.new ≡ resized filesystems.old sizes.now }
{
    for (i, size) in sizes.iter().enumerate() {
        filesystems.at_mut(i).row.size = *size;
    }
}
