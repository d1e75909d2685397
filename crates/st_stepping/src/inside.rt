ghost use Rattle.std.specs.Prelude.{◌≡◌, true, IfOk, OnErr};
ghost use Rattle.st_model.specs.Lifted.{on_pool};
ghost use Rattle.st_model.specs.Valid.{IsValid};
ghost use Rattle.st_model.specs.ValidPool.{IsWhole};
ghost use Rattle.st_stepping.specs.inner.Inside.{doing_of, is_inside, name_in};

use st_checking::check_pool;
use st_filesystems::{create_filesystems, snapshot_filesystem};
use st_model::{Call, EngineState, PoolState, Reply};
use st_removing::destroy_filesystems;
use st_sectors::fs_read;
use st_units::{Cause, Name, NoMemory};
use st_within::{not_up, place_of};
use std::alloc::Global;

/// What the call makes of its pool, which is up.
fn within(pool: &mut PoolState, alloc: Global, call: &Call) -> Result<Reply, NoMemory>
    requires whole { IsWhole pool.old }
    requires inside { is_inside call.now ≡ true }
    ensures ok { IfOk result (λ reply. (reply, pool.new) ≡ doing_of call.now pool.old) }
    ensures err { OnErr result (pool.new ≡ pool.old) }
{
    match call {
        Call::CreateFilesystems {
            pool: _,
            filesystems,
        } => create_filesystems(pool, alloc, filesystems),
        Call::DestroyFilesystems { pool: _, names } => destroy_filesystems(pool, alloc, names),
        Call::SnapshotFilesystem {
            pool: _,
            origin,
            name,
        } => snapshot_filesystem(pool, origin, name),
        Call::FsRead {
            pool: _,
            name,
            sector,
            sectors,
        } => fs_read(pool, alloc, name, *sector, *sectors),
        Call::Check { pool: _ } => check_pool(pool, alloc),
        _ => unreachable!(),
    }
}

fn name_in(call: &Call) -> &Name
    requires { is_inside call.now ≡ true }
    ensures { result.now ≡ name_in call.now }
{
    match call {
        Call::CreateFilesystems {
            pool,
            filesystems: _,
        }
        | Call::DestroyFilesystems { pool, names: _ }
        | Call::SnapshotFilesystem {
            pool,
            origin: _,
            name: _,
        }
        | Call::FsRead {
            pool,
            name: _,
            sector: _,
            sectors: _,
        }
        | Call::Check { pool } => pool,
        _ => unreachable!(),
    }
}

/// Runs a call that makes or ends filesystems, a read or a check, on the pool of its name, where that is up.
pub(crate) fn on_pool(
    state: &mut EngineState,
    alloc: Global,
    call: &Call,
) -> Result<Reply, NoMemory>
    requires valid { IsValid state.old }
    requires inside { is_inside call.now ≡ true }
    ensures ok { IfOk result (λ reply. (reply, state.new) ≡ on_pool (name_in call.now) (doing_of call.now) state.old) }
    ensures err { OnErr result (state.new ≡ state.old) }
{
    let Some(place) = place_of(state.pools.items(), name_in(call)) else {
        return Ok(Reply::refused(Cause::NoSuchPool));
    };
    if let Some(reply) = not_up(state.pools.at(place))? {
        return Ok(reply);
    }
    within(state.pools.at_mut(place), alloc, call)
}
