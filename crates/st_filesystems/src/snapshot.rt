ghost use Rattle.std.specs.Prelude.{◌≡◌, ◌<◌, ◌^◌, None, option_copied, IfOk, OnErr};
ghost use Rattle.st_model.specs.Answer.{first_answer};
ghost use Rattle.st_model.specs.Sums.{mappings};
ghost use Rattle.st_model.specs.ValidPool.{IsWhole};
ghost use Rattle.st_model.specs.steps.SnapshotFilesystem.{comes_from, named_answer, snapshot_answers, snapshot_filesystem, snapshot_of};

use crate::find::fs_at;
use st_limits::{BLOCK_SECTORS, MAX_MAPPINGS};
use st_model::{FsState, Given, Identity, PoolState, Reply};
use st_settings::{over_provision, sizes, worn};
use st_units::{Cause, FsRow, Name, NoMemory};

/// Whether this is the filesystem's origin.
fn comes_from(origin: Option<&FsState>, fs: &FsState) -> bool
    ensures { result ≡ comes_from (option_copied origin.entry) fs.now }
{
    match (origin, fs.row.origin) {
        (Some(origin), Some(serial)) => serial == origin.row.serial,
        _ => false,
    }
}

/// The answer where a filesystem has the name already.
fn named_answer(origin: Option<&FsState>, named: Option<&FsState>) -> Option<Reply>
    ensures { result ≡ named_answer (option_copied origin.entry) (option_copied named.entry) }
{
    let fs = named?;
    if comes_from(origin, fs) {
        Some(Reply::accepted(Given::Changed(false, None)))
    } else {
        Some(Reply::refused(Cause::NameInUse))
    }
}

/// The entries of all maps.
fn mappings(pool: &PoolState) -> u64
    requires { IsWhole pool.now }
    ensures { result ≡ mappings pool.now }
{
    let mut sum = 0;
    for fs in pool.filesystems.items() {
        sum += fs.map.len() as u64;
    }
    sum
}

/// The answer that changes nothing, where there is one.
#[tactic(auto, using(crate::proofs::Sizes::sizes_snapshot))]
fn snapshot_answer(pool: &PoolState, name: &Name, origin: &FsState) -> Option<Reply>
    requires { IsWhole pool.now }
    ensures answer { result ≡ first_answer (snapshot_answers name.now origin.now pool.now) }
    ensures room { result ≡ None → pool.now.commits < 2 ^ 48 }
{
    if pool.filesystem_limit <= pool.filesystems.len() as u64 {
        return Some(Reply::refused(Cause::TooManyFilesystems));
    }
    let sum = sizes(pool.filesystems.items()) + origin.row.size / BLOCK_SECTORS;
    if let Some(reply) = over_provision(pool, sum) {
        return Some(reply);
    }
    let there = mappings(pool);
    let more = origin.map.len() as u64;
    if (MAX_MAPPINGS as u128) < there as u128 + more as u128 {
        return Some(Reply::refused(Cause::MappingFull(there, more)));
    }
    worn(pool)
}

/// A filesystem with size, limit and map of its origin.
fn snapshot_of(origin: &FsState, name: &Name, serial: u64) -> Result<FsState, NoMemory>
    ensures { IfOk result (λ fs. fs ≡ snapshot_of origin.now name.now serial) }
{
    Ok(FsState {
        row: FsRow {
            serial,
            name: name.copy()?,
            size: origin.row.size,
            limit: origin.row.limit,
            origin: Some(origin.row.serial),
            merge: false,
        },
        map: origin.map.copy()?,
    })
}

/// Makes a filesystem that reads as its origin does, or answers why not.
#[tactic(auto, unfolding(st_model::specs::steps::SnapshotFilesystem::snapshot_filesystem))]
pub fn snapshot_filesystem(
    pool: &mut PoolState,
    origin: &Name,
    name: &Name,
) -> Result<Reply, NoMemory>
    requires { IsWhole pool.old }
    ensures ok { IfOk result (λ reply. (reply, pool.new) ≡ snapshot_filesystem origin.now name.now pool.old) }
    ensures err { OnErr result (pool.new ≡ pool.old) }
{
    let filesystems = pool.filesystems.items();
    let origin = fs_at(filesystems, origin);
    if let Some(reply) = named_answer(origin, fs_at(filesystems, name)) {
        return Ok(reply);
    }
    let Some(origin) = origin else {
        return Ok(Reply::refused(Cause::NoSuchFilesystem));
    };
    if let Some(reply) = snapshot_answer(pool, name, origin) {
        return Ok(reply);
    }
    let identity = Identity::Filesystem(pool.serial, pool.next_filesystem);
    let snapshot = snapshot_of(origin, name, pool.next_filesystem)?;
    pool.filesystems.push(snapshot)?;
    pool.next_filesystem += 1;
    pool.commits += 1;
    Ok(Reply::accepted(Given::Changed(true, Some(identity))))
}
