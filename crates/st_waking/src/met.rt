ghost use Rattle.std.specs.Prelude.{◌≡◌, IfOk, Some, true};
ghost use Rattle.st_model.specs.declared.entry.Env.TheVariants.{Plain};
ghost use Rattle.st_model.specs.declared.state.PoolState.{PoolState};
ghost use Rattle.st_model.specs.Look as look;
ghost use Rattle.st_model.specs.Look.{is_started};
ghost use Rattle.st_model.specs.Parts.{pool_at};
ghost use Rattle.st_model.specs.Pieces.{ArePools, every};
ghost use Rattle.st_model.specs.Valid.{IsValid};
ghost use Rattle.st_table.specs.Steps.{StandsFor};
ghost use Rattle.st_pool.specs.Answered.{answered};
ghost use Rattle.st_board.specs.View.{pools_of};
ghost use Rattle.st_waking.specs.Met.{HasMet, started_answer};

use st_cells::the_started_pools;
use st_ghost::Ghost;
use st_leaving::{refused, unchanged};
use st_meant::{Meant, pool_meant};
use st_model::{EngineState, PoolId};
use st_pool::{Pool, PoolReply};
use st_rack::Rack;
use st_ran::place_of;
use st_table::Table;
use st_units::{Cause, Name, NoMemory};

/// What a start meets before any device call.
#[derive(Drop)]
pub(crate) enum Met {
    /// So it is answered.
    Answered(PoolReply),
    /// The name of the pool that is to be started.
    Found(Name),
}

/// Whether the started pool of this name is up. These are all started pools of the state.
fn is_up<R: Rack>(cells: &[Pool<R>], before: &Ghost<EngineState>, name: &Name) -> bool
    requires valid { IsValid before.now.value }
    requires pools { ArePools every before.now.value (pools_of cells.now) }
    ensures { (p : PoolState) → pool_at name.now before.now.value.pools ≡ Some p → is_started p.mode ≡ true → result ≡ look.is_up p.mode }
{
    the_started_pools();
    match place_of(cells, name) {
        Some(place) => cells[place].flight().is_none(),
        None => false,
    }
}

/// The answer where the pool that is meant is started.
fn started<R: Rack>(
    cells: &[Pool<R>],
    before: &Ghost<EngineState>,
    name: Name,
) -> Result<PoolReply, NoMemory>
    requires valid { IsValid before.now.value }
    requires pools { ArePools every before.now.value (pools_of cells.now) }
    ensures { IfOk result (λ answer. (p : PoolState) → pool_at name before.now.value.pools ≡ Some p → is_started p.mode ≡ true → answer ≡ answered Plain (started_answer (look.is_up p.mode) name)) }
{
    if is_up(cells, before, &name) {
        return Ok(unchanged());
    }
    let twin = name.copy()?;
    Ok(refused(Cause::Maintenance(name), Cause::Maintenance(twin)))
}

/// Answers a start that calls no device, or finds the pool that is to be started.
pub(crate) fn meet<R: Rack>(
    cells: &[Pool<R>],
    table: &Table,
    before: &Ghost<EngineState>,
    id: &PoolId,
) -> Result<Met, NoMemory>
    requires valid { IsValid before.now.value }
    requires pools { ArePools every before.now.value (pools_of cells.now) }
    requires table { StandsFor table.now before.now.value }
    ensures { IfOk result (HasMet before.now.value id.now) }
{
    match pool_meant(table, id)? {
        Meant::Unknown => Ok(Met::Answered(refused(Cause::NoSuchPool, Cause::NoSuchPool))),
        Meant::Started(name) => Ok(Met::Answered(started(cells, before, name)?)),
        Meant::Lacking(path) => {
            let twin = path.copy()?;
            Ok(Met::Answered(refused(Cause::MissingDevice(path), Cause::MissingDevice(twin))))
        }
        Meant::Halted(name) => Ok(Met::Found(name)),
    }
}
