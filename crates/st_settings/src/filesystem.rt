ghost use Rattle.std.specs.Prelude.{◌≡◌, find, option_copied, IfOk, OnErr};
ghost use Rattle.st_model.specs.Answer.{first_answer};
ghost use Rattle.st_model.specs.Merged.{is_origin};
ghost use Rattle.st_model.specs.ValidPool.{IsWhole};
ghost use Rattle.st_model.specs.steps.RenameFilesystem.{rename_filesystem, rename_fs_answers};
ghost use Rattle.st_model.specs.steps.SetMerge.{conflicts, merge_answers, set_merge, share_origin};
ghost use Rattle.st_model.specs.steps.SetSizeLimit.{set_size_limit, size_limit_answers};
ghost use Rattle.st_settings.specs.Marks.{conflict};

use crate::checks::{is_below, is_no_size, worn};
use crate::place::place_of_fs;
use st_model::{FsState, Given, Identity, PoolState, Reply};
use st_units::{Cause, FsRow, Name, NoMemory};

/// The answer that changes nothing, where there is one.
fn size_limit_answer(
    pool: &PoolState,
    fs: &FsState,
    limit: Option<u64>,
) -> Result<Option<Reply>, NoMemory>
    ensures { IfOk result (λ reply. reply ≡ first_answer (size_limit_answers limit fs.now pool.now)) }
{
    if is_no_size(limit) {
        return Ok(Some(Reply::refused(Cause::BadSize(fs.row.name.copy()?))));
    }
    if limit == fs.row.limit {
        return Ok(Some(Reply::accepted(Given::Done(false))));
    }
    if is_below(limit, fs.row.size) {
        return Ok(Some(Reply::refused(Cause::LimitBelowSize(fs.row.name.copy()?))));
    }
    Ok(worn(pool))
}

/// Sets how large the filesystem may grow, or answers why not.
pub fn set_size_limit(
    pool: &mut PoolState,
    name: &Name,
    limit: Option<u64>,
) -> Result<Reply, NoMemory>
    requires { IsWhole pool.old }
    ensures ok { IfOk result (λ reply. (reply, pool.new) ≡ set_size_limit name.now limit pool.old) }
    ensures err { OnErr result (pool.new ≡ pool.old) }
{
    let Some(place) = place_of_fs(pool.filesystems.items(), name) else {
        return Ok(Reply::refused(Cause::NoSuchFilesystem));
    };
    if let Some(reply) = size_limit_answer(pool, pool.filesystems.at(place), limit)? {
        return Ok(reply);
    }
    pool.filesystems.at_mut(place).row.limit = limit;
    pool.commits += 1;
    Ok(Reply::accepted(Given::Done(true)))
}

/// The answer that changes nothing, where there is one.
fn rename_answer(pool: &PoolState, fs: &FsState, new: &Name) -> Option<Reply>
    ensures { result ≡ first_answer (rename_fs_answers new.now fs.now pool.now) }
{
    if fs.row.name.bytes() == new.bytes() {
        return Some(Reply::accepted(Given::Changed(false, None)));
    }
    if place_of_fs(pool.filesystems.items(), new).is_some() {
        return Some(Reply::refused(Cause::NameInUse));
    }
    worn(pool)
}

/// Gives the filesystem another name, or answers why not.
pub fn rename_filesystem(pool: &mut PoolState, name: &Name, new: &Name) -> Result<Reply, NoMemory>
    requires { IsWhole pool.old }
    ensures ok { IfOk result (λ reply. (reply, pool.new) ≡ rename_filesystem name.now new.now pool.old) }
    ensures err { OnErr result (pool.new ≡ pool.old) }
{
    let Some(place) = place_of_fs(pool.filesystems.items(), name) else {
        return Ok(Reply::refused(Cause::NoSuchFilesystem));
    };
    let fs = pool.filesystems.at(place);
    if let Some(reply) = rename_answer(pool, fs, new) {
        return Ok(reply);
    }
    let identity = Identity::Filesystem(pool.serial, fs.row.serial);
    let copy = new.copy()?;
    pool.filesystems.at_mut(place).row.name = copy;
    pool.commits += 1;
    Ok(Reply::accepted(Given::Changed(true, Some(identity))))
}

fn is_origin(serial: u64, origin: Option<u64>) -> bool
    ensures { result ≡ is_origin serial origin }
{
    match origin {
        Some(origin) => origin == serial,
        None => false,
    }
}

fn share_origin(a: Option<u64>, b: Option<u64>) -> bool
    ensures { result ≡ share_origin a b }
{
    match a {
        Some(serial) => is_origin(serial, b),
        None => false,
    }
}

fn conflicts(row: &FsRow, other: &FsState) -> bool
    ensures { result ≡ conflicts row.now other.now }
{
    other.row.merge
        && (share_origin(row.origin, other.row.origin)
            || is_origin(other.row.serial, row.origin)
            || is_origin(row.serial, other.row.origin))
}

fn first_conflict<'a>(filesystems: &'a [FsState], row: &FsRow) -> Option<&'a FsState>
    ensures { option_copied result ≡ find (conflicts row.now) filesystems.now }
{
    filesystems.iter().find(|other| conflicts(row, other))
}

/// The refusal that names the first filesystem whose mark stands in the way.
fn conflict(pool: &PoolState, row: &FsRow) -> Result<Option<Reply>, NoMemory>
    ensures { IfOk result (λ reply. reply ≡ conflict row.now pool.now) }
{
    match first_conflict(pool.filesystems.items(), row) {
        Some(other) => Ok(Some(Reply::refused(Cause::MergeConflict(other.row.name.copy()?)))),
        None => Ok(None),
    }
}

/// The answer that changes nothing, where there is one.
fn merge_answer(pool: &PoolState, fs: &FsState, value: bool) -> Result<Option<Reply>, NoMemory>
    ensures { IfOk result (λ reply. reply ≡ first_answer (merge_answers value fs.now pool.now)) }
{
    if value == fs.row.merge {
        return Ok(Some(Reply::accepted(Given::Done(false))));
    }
    if value && fs.row.origin.is_none() {
        return Ok(Some(Reply::refused(Cause::NoOrigin)));
    }
    if value {
        if let Some(reply) = conflict(pool, &fs.row)? {
            return Ok(Some(reply));
        }
    }
    Ok(worn(pool))
}

/// Marks the filesystem to replace its origin, or takes the mark away, or answers why not.
pub fn set_merge(pool: &mut PoolState, name: &Name, value: bool) -> Result<Reply, NoMemory>
    requires { IsWhole pool.old }
    ensures ok { IfOk result (λ reply. (reply, pool.new) ≡ set_merge name.now value pool.old) }
    ensures err { OnErr result (pool.new ≡ pool.old) }
{
    let Some(place) = place_of_fs(pool.filesystems.items(), name) else {
        return Ok(Reply::refused(Cause::NoSuchFilesystem));
    };
    if let Some(reply) = merge_answer(pool, pool.filesystems.at(place), value)? {
        return Ok(reply);
    }
    pool.filesystems.at_mut(place).row.merge = value;
    pool.commits += 1;
    Ok(Reply::accepted(Given::Done(true)))
}
