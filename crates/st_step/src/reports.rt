ghost use Rattle.std.specs.Prelude.{◌≡◌, [], IfOk};
ghost use Rattle.std.specs.List.{AllByRecursion};
ghost use Rattle.st_model.specs.declared.state.PoolState.{PoolState};
ghost use Rattle.st_model.specs.Shown.{infos_with, stopped_with, started_pools, halted_pools, free_paths, table_info};
ghost use Rattle.st_model.specs.Sums.{AreSmall};
ghost use Rattle.st_model.specs.steps.EngineStateReport.{report_plain};

use st_model::{
    EngineState, Given, Infos, PoolInfo, PoolState, Reply, StoppedList, TableInfo, insert_info,
    insert_stopped, look, shared_info,
};
use st_units::{DevList, DevRow, NoMemory, Shared};
use std::alloc::Global;

#[tactic(auto, unfolding(st_model::specs::Shown::pool_info))]
fn started_infos(alloc: Global, pools: &[PoolState]) -> Result<Infos<PoolInfo>, NoMemory>
    requires { AllByRecursion (λ (pool : PoolState). AreSmall pool.devices) pools.now }
    ensures { IfOk result (λ list. list ≡ infos_with [] (started_pools pools.now)) }
{
    let mut list: Infos<PoolInfo> = Infos::make(alloc);
    for pool in pools {
        if look::is_started(&pool.mode) {
            insert_info(&mut list, shared_info(alloc, pool)?)?;
        }
    }
    Ok(list)
}

fn stopped_rows(alloc: Global, pools: &[PoolState]) -> Result<StoppedList, NoMemory>
    ensures { IfOk result (λ list. list ≡ stopped_with [] (halted_pools pools.now)) }
{
    let mut list = StoppedList::make(alloc);
    for pool in pools {
        if look::is_started(&pool.mode) {
            continue;
        }
        insert_stopped(&mut list, pool)?;
    }
    Ok(list)
}

fn free_paths(alloc: Global, pools: &[PoolState], rows: &[DevRow]) -> Result<DevList, NoMemory>
    ensures { IfOk result (λ list. list ≡ free_paths pools.now rows.now) }
{
    let mut list = DevList::make(alloc);
    for row in rows {
        if look::pool_using(pools, &row.path).is_none() {
            list.push(row.path.copy()?)?;
        }
    }
    Ok(list)
}

fn table_info(alloc: Global, state: &EngineState) -> Result<Shared<TableInfo>, NoMemory>
    ensures { IfOk result (λ info. info ≡ table_info state.now) }
{
    let info = TableInfo {
        next: state.next,
        free: free_paths(alloc, state.pools.items(), state.devices.items())?,
        stopped: stopped_rows(alloc, state.pools.items())?,
    };
    match Shared::make(alloc, info) {
        Ok(info) => Ok(info),
        Err(_) => Err(NoMemory),
    }
}

/// What the engine knows.
#[tactic(auto, unfolding(st_model::specs::steps::EngineStateReport::report_plain))]
pub(crate) fn engine_state_report(state: &EngineState, alloc: Global) -> Result<Reply, NoMemory>
    requires { AllByRecursion (λ (pool : PoolState). AreSmall pool.devices) state.now.pools }
    ensures { IfOk result (λ reply. (reply, state.now) ≡ report_plain state.now) }
{
    let table = table_info(alloc, state)?;
    let infos = started_infos(alloc, state.pools.items())?;
    Ok(Reply::accepted(Given::Engine(table, infos)))
}
