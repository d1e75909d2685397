ghost use Rattle.std.specs.Prelude.{◌≡◌, IfOk, OnErr};
ghost use Rattle.st_model.specs.Answer.{first_answer};
ghost use Rattle.st_model.specs.Sums.{AreSmall};
ghost use Rattle.st_model.specs.ValidPool.{IsWhole};
ghost use Rattle.st_model.specs.steps.PoolReport.{pool_report};
ghost use Rattle.st_model.specs.steps.SetFsLimit.{limit_answers, set_fs_limit};
ghost use Rattle.st_model.specs.steps.SetOverprovisioning.{overprovisioning_answers, set_overprovisioning};

use crate::checks::{sizes, worn};
use st_limits::MAX_FILESYSTEMS;
use st_model::{Given, PoolState, Reply, room, shared_info};
use st_units::{Cause, NoMemory};
use std::alloc::Global;

/// What is known of the pool.
#[tactic(auto, unfolding(st_model::specs::steps::PoolReport::pool_report))]
pub fn pool_report(alloc: Global, pool: &PoolState) -> Result<Reply, NoMemory>
    requires { AreSmall pool.now.devices }
    ensures { IfOk result (λ reply. (reply, pool.now) ≡ pool_report pool.now) }
{
    Ok(Reply::accepted(Given::Pool(shared_info(alloc, pool)?)))
}

/// The answer that changes nothing, where there is one.
fn limit_answer(pool: &PoolState, limit: u64) -> Result<Option<Reply>, NoMemory>
    ensures { IfOk result (λ reply. reply ≡ first_answer (limit_answers limit pool.now)) }
{
    if MAX_FILESYSTEMS < limit {
        return Ok(Some(Reply::refused(Cause::BadSize(pool.name.copy()?))));
    }
    if limit == pool.filesystem_limit {
        return Ok(Some(Reply::accepted(Given::Done(false))));
    }
    if limit < pool.filesystem_limit {
        return Ok(Some(Reply::refused(Cause::LimitLower)));
    }
    Ok(worn(pool))
}

/// Sets how many filesystems the pool may have, or answers why not.
#[tactic(auto, unfolding(st_model::specs::steps::SetFsLimit::set_fs_limit))]
pub fn set_fs_limit(pool: &mut PoolState, limit: u64) -> Result<Reply, NoMemory>
    requires { IsWhole pool.old }
    ensures ok { IfOk result (λ reply. (reply, pool.new) ≡ set_fs_limit limit pool.old) }
    ensures err { OnErr result (pool.new ≡ pool.old) }
{
    if let Some(reply) = limit_answer(pool, limit)? {
        return Ok(reply);
    }
    pool.filesystem_limit = limit;
    pool.commits += 1;
    Ok(Reply::accepted(Given::Done(true)))
}

/// The answer that changes nothing, where there is one.
fn overprovisioning_answer(pool: &PoolState, value: bool) -> Option<Reply>
    requires { IsWhole pool.now }
    ensures { result ≡ first_answer (overprovisioning_answers value pool.now) }
{
    if value == pool.overprovisioning {
        return Some(Reply::accepted(Given::Done(false)));
    }
    let sum = sizes(pool.filesystems.items());
    let room = room(pool);
    if !value && room < sum {
        return Some(Reply::refused(Cause::OverProvision(sum, room)));
    }
    worn(pool)
}

/// Sets whether the sizes of all filesystems may be more than the room, or answers why not.
#[tactic(auto, unfolding(st_model::specs::steps::SetOverprovisioning::set_overprovisioning))]
pub fn set_overprovisioning(pool: &mut PoolState, value: bool) -> Result<Reply, NoMemory>
    requires { IsWhole pool.old }
    ensures ok { IfOk result (λ reply. (reply, pool.new) ≡ set_overprovisioning value pool.old) }
    ensures err { OnErr result (pool.new ≡ pool.old) }
{
    if let Some(reply) = overprovisioning_answer(pool, value) {
        return Ok(reply);
    }
    pool.overprovisioning = value;
    pool.commits += 1;
    Ok(Reply::accepted(Given::Done(true)))
}
