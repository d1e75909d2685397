ghost use Rattle.std.specs.Prelude.{◌≡◌, IfOk};
ghost use Rattle.std.specs.List.{AllByRecursion};
ghost use Rattle.st_model.specs.declared.state.PoolState.{PoolState};
ghost use Rattle.st_model.specs.Answer.{first_answer};
ghost use Rattle.st_model.specs.Sums.{AreSmall};
ghost use Rattle.st_model.specs.steps.PoolReports.{infos_seen, pool_reports, refusals, seen};

use crate::names::distinct;
use crate::pools;
use st_model::{EngineState, Given, Infos, PoolInfo, Reply, shared_info};
use st_units::{Name, NoMemory};
use std::alloc::Global;

/// The refusal of the first that is refused.
fn refusal(state: &EngineState, names: &[Name]) -> Result<Option<Reply>, NoMemory>
    ensures { IfOk result (λ reply. reply ≡ first_answer (refusals (seen names.now state.now))) }
{
    for name in names {
        if let Some(reply) = pools::refusal(state.pools.items(), name)? {
            return Ok(Some(reply));
        }
    }
    Ok(None)
}

/// The reports of those that are started, in order.
fn infos(alloc: Global, state: &EngineState, names: &[Name]) -> Result<Infos<PoolInfo>, NoMemory>
    requires { AllByRecursion (λ (pool : PoolState). AreSmall pool.devices) state.now.pools }
    ensures { IfOk result (λ list. list ≡ infos_seen (seen names.now state.now)) }
{
    let mut list: Infos<PoolInfo> = Infos::make(alloc);
    for name in names {
        if let Some(pool) = pools::started(state.pools.items(), name) {
            list.push(shared_info(alloc, pool)?)?;
        }
    }
    Ok(list)
}

/// The reports of the pools of these names, each once, or why the first of them that isn't reported isn't.
#[tactic(auto, unfolding(st_model::specs::steps::PoolReports::pool_reports))]
pub fn pool_reports(state: &EngineState, alloc: Global, names: &[Name]) -> Result<Reply, NoMemory>
    requires { AllByRecursion (λ (pool : PoolState). AreSmall pool.devices) state.now.pools }
    ensures { IfOk result (λ reply. (reply, state.now) ≡ pool_reports names.now state.now) }
{
    let names = distinct(alloc, names)?;
    if let Some(reply) = refusal(state, names.items())? {
        return Ok(reply);
    }
    Ok(Reply::accepted(Given::Pools(infos(alloc, state, names.items())?)))
}
