ghost use Rattle.std.specs.Prelude.{◌≡◌, IfOk, OnErr};
ghost use Rattle.st_model.specs.Answer.{first_answer};
ghost use Rattle.st_model.specs.ValidPool.{IsWhole};
ghost use Rattle.st_model.specs.steps.DestroyFilesystems.{destroy_filesystems};
ghost use Rattle.st_removing.specs.inner.Ended.{ended, ended_answers};

use crate::left::remaining;
use crate::names::distinct;
use st_filesystems::fs_at;
use st_merges::with_filesystems;
use st_model::{FsState, Given, Identity, PoolState, Reply};
use st_settings::worn;
use st_units::{ItemList, Name, NameList, NoMemory, PoolSerial};
use std::alloc::Global;

/// Who those of the names are that are there.
fn ended(
    alloc: Global,
    pool: PoolSerial,
    names: &[Name],
    filesystems: &[FsState],
) -> Result<ItemList<Identity>, NoMemory>
    ensures { IfOk result (λ list. list ≡ ended pool filesystems.now names.now) }
{
    let mut list = ItemList::make(alloc);
    for name in names {
        if let Some(fs) = fs_at(filesystems, name) {
            list.push(Identity::Filesystem(pool, fs.row.serial))?;
        }
    }
    Ok(list)
}

/// The answer that changes nothing, where there is one.
fn destroy_answer(pool: &PoolState, alloc: Global, gone: &ItemList<Identity>) -> Option<Reply>
    ensures { result ≡ first_answer (ended_answers gone.now pool.now) }
{
    if gone.len() == 0 {
        return Some(Reply::accepted(Given::DestroyedFilesystems(false, ItemList::make(alloc))));
    }
    worn(pool)
}

/// Ends those of the filesystems that are there, or answers why not.
pub fn destroy_filesystems(
    pool: &mut PoolState,
    alloc: Global,
    names: &NameList,
) -> Result<Reply, NoMemory>
    requires { IsWhole pool.old }
    ensures ok { IfOk result (λ reply. (reply, pool.new) ≡ destroy_filesystems names.now pool.old) }
    ensures err { OnErr result (pool.new ≡ pool.old) }
{
    let once = distinct(alloc, names.items())?;
    let gone = ended(alloc, pool.serial, once.items(), pool.filesystems.items())?;
    if let Some(reply) = destroy_answer(pool, alloc, &gone) {
        return Ok(reply);
    }
    let left = remaining(alloc, names.items(), pool.filesystems.items())?;
    with_filesystems(pool, alloc, left)?;
    pool.commits += 1;
    Ok(Reply::accepted(Given::DestroyedFilesystems(true, gone)))
}
