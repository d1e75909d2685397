ghost use Rattle.std.specs.Prelude.{◌≡◌, ◌&&◌, find, option_copied, IfOk};
ghost use Rattle.std.specs.List.{list_any};
ghost use Rattle.st_model.specs.declared.state.PoolState.{PoolState};
ghost use Rattle.st_model.specs.Look.{is_called, is_started};
ghost use Rattle.st_model.specs.Parts.{pool_at};
ghost use Rattle.st_model.specs.Shown.{started_pools};
ghost use Rattle.st_model.specs.steps.PoolReports.{refusal};

use st_model::{PoolState, Reply, look};
use st_units::{Cause, Name, NoMemory};
use st_within::not_up;

fn find_started<'a>(pools: &'a [PoolState], name: &Name) -> Option<&'a PoolState>
    ensures { option_copied result ≡ find (λ (pool : PoolState). is_started pool.mode && is_called name.now pool) pools.now }
{
    pools.iter().find(|pool| look::is_started(&pool.mode) && look::is_called(pool, name))
}

/// The started pool of this name.
#[tactic(auto, using(crate::proofs::Started::find_started))]
pub(crate) fn started<'a>(pools: &'a [PoolState], name: &Name) -> Option<&'a PoolState>
    ensures { option_copied result ≡ pool_at name.now (started_pools pools.now) }
{
    find_started(pools, name)
}

fn is_known(pools: &[PoolState], name: &Name) -> bool
    ensures { result ≡ list_any (is_called name.now) pools.now }
{
    pools.iter().any(|pool| look::is_called(pool, name))
}

/// Why the pool of this name isn't reported, where it isn't.
pub(crate) fn refusal(pools: &[PoolState], name: &Name) -> Result<Option<Reply>, NoMemory>
    ensures { IfOk result (λ reply. reply ≡ refusal (list_any (is_called name.now) pools.now) (pool_at name.now (started_pools pools.now))) }
{
    match started(pools, name) {
        Some(pool) => not_up(pool),
        None if is_known(pools, name) => Ok(Some(Reply::refused(Cause::PoolStopped))),
        None => Ok(Some(Reply::refused(Cause::NoSuchPool))),
    }
}
