ghost use Rattle.std.specs.Prelude.{◌≡◌, true, IfOk, OnErr};
ghost use Rattle.st_model.specs.Lifted.{on_pool};
ghost use Rattle.st_model.specs.Valid.{IsValid};
ghost use Rattle.st_model.specs.ValidPool.{IsWhole};
ghost use Rattle.st_within.specs.Inside.{doing_of, is_inside, name_in};

use crate::place::{not_up, place_of};
use st_model::{Call, EngineState, PoolState, Reply};
use st_settings::{
    pool_report, rename_filesystem, set_fs_limit, set_merge, set_overprovisioning, set_size_limit,
};
use st_units::{Cause, Name, NoMemory};
use std::alloc::Global;

/// What the call makes of its pool, which is up.
fn within(pool: &mut PoolState, alloc: Global, call: &Call) -> Result<Reply, NoMemory>
    requires whole { IsWhole pool.old }
    requires inside { is_inside call.now ≡ true }
    ensures ok { IfOk result (λ reply. (reply, pool.new) ≡ doing_of call.now pool.old) }
    ensures err { OnErr result (pool.new ≡ pool.old) }
{
    match call {
        Call::PoolReport { pool: _ } => pool_report(alloc, pool),
        Call::RenameFilesystem { pool: _, name, new } => rename_filesystem(pool, name, new),
        Call::SetSizeLimit {
            pool: _,
            name,
            limit,
        } => set_size_limit(pool, name, *limit),
        Call::SetFsLimit { pool: _, limit } => set_fs_limit(pool, *limit),
        Call::SetOverprovisioning { pool: _, value } => set_overprovisioning(pool, *value),
        Call::SetMerge {
            pool: _,
            name,
            value,
        } => set_merge(pool, name, *value),
        _ => unreachable!(),
    }
}

fn name_in(call: &Call) -> &Name
    requires { is_inside call.now ≡ true }
    ensures { result.now ≡ name_in call.now }
{
    match call {
        Call::PoolReport { pool }
        | Call::RenameFilesystem {
            pool,
            name: _,
            new: _,
        }
        | Call::SetSizeLimit {
            pool,
            name: _,
            limit: _,
        }
        | Call::SetFsLimit { pool, limit: _ }
        | Call::SetOverprovisioning { pool, value: _ }
        | Call::SetMerge {
            pool,
            name: _,
            value: _,
        } => pool,
        _ => unreachable!(),
    }
}

/// Runs a call within a pool: on the pool of its name, where that is up.
pub fn on_pool(state: &mut EngineState, alloc: Global, call: &Call) -> Result<Reply, NoMemory>
    requires valid { IsValid state.old }
    requires inside { is_inside call.now ≡ true }
    ensures ok { IfOk result (λ reply. (reply, state.new) ≡ on_pool (name_in call.now) (doing_of call.now) state.old) }
    ensures err { OnErr result (state.new ≡ state.old) }
{
    let Some(place) = place_of(state.pools.items(), name_in(call)) else {
        return Ok(Reply::refused(Cause::NoSuchPool));
    };
    if let Some(reply) = not_up(state.pools.at(place))? {
        return Ok(reply);
    }
    within(state.pools.at_mut(place), alloc, call)
}
