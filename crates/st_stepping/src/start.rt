ghost use Rattle.std.specs.Prelude.{◌≡◌, ◌<◌, ◌+◌, ◌*◌, ◌^◌, length, slice_get, unwrap_or, None, IfOk, IfSome, IfNone, OnErr};
ghost use Rattle.std.specs.List.{position};
ghost use Rattle.st_units.specs.declared.cause.Cause.TheVariants.{OutOfMemory};
ghost use Rattle.st_model.specs.Answer.{refused};
ghost use Rattle.st_model.specs.Valid.{IsValid};
ghost use Rattle.st_model.specs.steps.StartPool.{is_meant, pool_meant, start_pool};
ghost use Rattle.st_stepping.specs.inner.Starting.{start_answer};

use st_merges::cool;
use st_model::{EngineState, Given, Identity, PoolId, PoolMode, PoolState, Reply, look};
use st_units::{Cause, NoMemory, PoolSerial};

fn uuid_of(serial: PoolSerial) -> u128
    ensures { result ≡ serial * 2 ^ 64 + 2 ^ 56 }
{
    serial.number() as u128 * (1 << 64) + (1 << 56)
}

fn is_meant(id: &PoolId, pool: &PoolState) -> bool
    ensures { result ≡ is_meant id.now pool.now }
{
    match id {
        PoolId::ByName(name) => look::is_called(pool, name),
        PoolId::ByUuid(uuid) => *uuid == uuid_of(pool.serial),
    }
}

fn place_in(pools: &[PoolState], id: &PoolId) -> Option<usize>
    ensures { result ≡ position (is_meant id.now) pools.now }
{
    pools.iter().position(|pool| is_meant(id, pool))
}

/// The place of the pool that is meant.
fn place_meant(state: &EngineState, id: &PoolId) -> Option<usize>
    ensures within { IfSome result (λ i. i < length state.now.pools) }
    ensures at { IfSome result (λ i. pool_meant id.now state.now ≡ slice_get state.now.pools i) }
    ensures none { IfNone result (pool_meant id.now state.now ≡ None) }
{
    place_in(state.pools.items(), id)
}

/// The answer that changes nothing, where there is one: a start that would find a call in flight
/// isn't plain.
fn start_answer(pool: &PoolState) -> Result<Option<Reply>, NoMemory>
    ensures { IfOk result (λ reply. reply ≡ start_answer pool.now pool.now.mode) }
{
    match &pool.mode {
        PoolMode::Up => Ok(Some(Reply::accepted(Given::Changed(false, None)))),
        PoolMode::Down(_) => Ok(Some(Reply::refused(Cause::Maintenance(pool.name.copy()?)))),
        PoolMode::Stopped => Ok(None),
        PoolMode::Unsettled(_) => Ok(Some(Reply::refused(Cause::OutOfMemory))),
        PoolMode::Incomplete(path) => Ok(Some(Reply::refused(Cause::MissingDevice(path.copy()?)))),
    }
}

/// Starts the pool that is meant, or answers why not.
pub(crate) fn start_pool(state: &mut EngineState, id: &PoolId) -> Result<Reply, NoMemory>
    requires { IsValid state.old }
    ensures ok { IfOk result (λ reply. (reply, state.new) ≡ unwrap_or (start_pool id.now state.old) (refused OutOfMemory, state.old)) }
    ensures err { OnErr result (state.new ≡ state.old) }
{
    let Some(place) = place_meant(state, id) else {
        return Ok(Reply::refused(Cause::NoSuchPool));
    };
    let pool = state.pools.at(place);
    if let Some(reply) = start_answer(pool)? {
        return Ok(reply);
    }
    let identity = Identity::Pool(pool.serial);
    cool(state.pools.at_mut(place), PoolMode::Up);
    Ok(Reply::accepted(Given::Changed(true, Some(identity))))
}
