ghost use Rattle.std.specs.Prelude.{◌≡◌, ◌<◌, ◌≤◌, ◌^◌, ◌||◌, None, find, length, option_copied, IfOk, OnErr};
ghost use Rattle.st_units.specs.declared.rows.FsSpec.{FsSpec};
ghost use Rattle.st_model.specs.Answer.{first_answer};
ghost use Rattle.st_model.specs.Checks.{is_below, is_no_size};
ghost use Rattle.st_model.specs.ValidPool.{IsWhole};
ghost use Rattle.st_model.specs.steps.CreateFilesystems.{create_filesystems, fs_answers, size_of};

use crate::new::{new_filesystems, new_of, size_of, spec_blocks, to_create};
use st_model::{Given, PoolState, Reply};
use st_settings::{is_below, is_no_size, over_provision, sizes, worn};
use st_units::{Cause, FsSpec, FsSpecList, ItemList, NoMemory};
use std::alloc::Global;

/// The first whose size or limit no filesystem may have.
fn first_unsized(specs: &[FsSpec]) -> Option<&FsSpec>
    ensures { option_copied result ≡ find (λ (spec : FsSpec). is_no_size spec.size || is_no_size spec.limit) specs.now }
{
    specs
        .iter()
        .find(|spec| is_no_size(spec.size) || is_no_size(spec.limit))
}

/// The first whose limit is below its size.
fn first_below(specs: &[FsSpec]) -> Option<&FsSpec>
    ensures { option_copied result ≡ find (λ (spec : FsSpec). is_below spec.limit (size_of spec)) specs.now }
{
    specs
        .iter()
        .find(|spec| is_below(spec.limit, size_of(spec)))
}

/// The answer that changes nothing, where there is one.
fn fs_answer(pool: &PoolState, alloc: Global, new: &FsSpecList) -> Result<Option<Reply>, NoMemory>
    requires { IsWhole pool.now }
    ensures answer { IfOk result (λ reply. reply ≡ first_answer (fs_answers new.now pool.now)) }
    ensures few { IfOk result (λ reply. reply ≡ None → length new.now ≤ 2 ^ 8) }
    ensures room { IfOk result (λ reply. reply ≡ None → pool.now.commits < 2 ^ 48) }
{
    if let Some(spec) = first_unsized(new.items()) {
        return Ok(Some(Reply::refused(Cause::BadSize(spec.name.copy()?))));
    }
    if let Some(spec) = first_below(new.items()) {
        return Ok(Some(Reply::refused(Cause::LimitBelowSize(spec.name.copy()?))));
    }
    if (pool.filesystem_limit as u128) < pool.filesystems.len() as u128 + new.len() as u128 {
        return Ok(Some(Reply::refused(Cause::TooManyFilesystems)));
    }
    let sum = sizes(pool.filesystems.items()) + spec_blocks(new.items());
    if let Some(reply) = over_provision(pool, sum) {
        return Ok(Some(reply));
    }
    if new.len() == 0 {
        return Ok(Some(Reply::accepted(Given::CreatedFilesystems(false, ItemList::make(alloc)))));
    }
    Ok(worn(pool))
}

/// Makes the filesystems, all or none, or answers why not.
#[tactic(auto, unfolding(st_model::specs::steps::CreateFilesystems::create_filesystems))]
pub fn create_filesystems(
    pool: &mut PoolState,
    alloc: Global,
    specs: &FsSpecList,
) -> Result<Reply, NoMemory>
    requires { IsWhole pool.old }
    ensures ok { IfOk result (λ reply. (reply, pool.new) ≡ create_filesystems specs.now pool.old) }
    ensures err { OnErr result (pool.new ≡ pool.old) }
{
    let new = to_create(alloc, specs.items(), pool.filesystems.items())?;
    if let Some(reply) = fs_answer(pool, alloc, &new)? {
        return Ok(reply);
    }
    let made = new_filesystems(alloc, pool.next_filesystem, new.items())?;
    let told = new_of(alloc, pool.serial, made.items())?;
    pool.filesystems.append(made)?;
    pool.next_filesystem += new.len() as u64;
    pool.commits += 1;
    Ok(Reply::accepted(Given::CreatedFilesystems(true, told)))
}
