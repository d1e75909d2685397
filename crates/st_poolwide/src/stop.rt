ghost use Rattle.std.specs.Prelude.{◌≡◌, IfOk, OnErr};
ghost use Rattle.st_model.specs.Valid.{IsValid};
ghost use Rattle.st_model.specs.steps.StopPool.{stop_pool};

use st_merges::halt;
use st_model::{EngineState, Given, Identity, Reply, look};
use st_units::{Cause, Name, NoMemory};
use st_within::place_of;
use std::alloc::Global;

/// Stops the pool, or answers why not.
pub fn stop_pool(state: &mut EngineState, alloc: Global, name: &Name) -> Result<Reply, NoMemory>
    requires { IsValid state.old }
    ensures ok { IfOk result (λ reply. (reply, state.new) ≡ stop_pool name.now state.old) }
    ensures err { OnErr result (state.new ≡ state.old) }
{
    let Some(place) = place_of(state.pools.items(), name) else {
        return Ok(Reply::refused(Cause::NoSuchPool));
    };
    let pool = state.pools.at(place);
    if !look::is_started(&pool.mode) {
        return Ok(Reply::accepted(Given::Changed(false, None)));
    }
    let identity = Identity::Pool(pool.serial);
    halt(state.pools.at_mut(place), alloc)?;
    Ok(Reply::accepted(Given::Changed(true, Some(identity))))
}
