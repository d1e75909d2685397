ghost use Rattle.std.specs.Prelude.{◌≡◌, map, IfOk, OnErr};
ghost use Rattle.st_model.specs.Checks.{halted};
ghost use Rattle.st_model.specs.steps.PowerCycle.{power_cycle};

use st_copies::pool_copy;
use st_merges::halt;
use st_model::{EngineState, Given, PoolState, Reply};
use st_units::{ItemList, NoMemory};
use std::alloc::Global;

fn halted_copy(alloc: Global, pool: &PoolState) -> Result<PoolState, NoMemory>
    ensures { IfOk result (λ after. after ≡ halted pool.now) }
{
    let mut copy = pool_copy(alloc, pool)?;
    halt(&mut copy, alloc)?;
    Ok(copy)
}

fn halted_pools(alloc: Global, pools: &[PoolState]) -> Result<ItemList<PoolState>, NoMemory>
    ensures { IfOk result (λ list. list ≡ map halted pools.now) }
{
    let mut list = ItemList::make(alloc);
    for pool in pools {
        list.push(halted_copy(alloc, pool)?)?;
    }
    Ok(list)
}

/// The rack loses its power and comes back, so that no pool is started.
#[tactic(auto, unfolding(st_model::specs::steps::PowerCycle::power_cycle))]
pub fn power_cycle(state: &mut EngineState, alloc: Global) -> Result<Reply, NoMemory>
    ensures ok { IfOk result (λ reply. (reply, state.new) ≡ power_cycle state.old) }
    ensures err { OnErr result (state.new ≡ state.old) }
{
    state.pools = halted_pools(alloc, state.pools.items())?;
    Ok(Reply::accepted(Given::Done(true)))
}
