ghost use Rattle.std.specs.Prelude.{◌≡◌, ◌+◌, ◌≤◌, List, length};
ghost use Rattle.st_limits.specs.declared.TheConstants.{MAX_POOLS};
ghost use Rattle.st_model.specs.declared.call.Call.TheVariants.{CreatePool};
ghost use Rattle.st_model.specs.Look.{Text};
ghost use Rattle.st_creating.specs.Plan.{IsPlan};
ghost use Rattle.st_pool.specs.Answered.{failed};
ghost use Rattle.st_board.specs.Ran.{AreAll, HasRun};
ghost use Rattle.st_create.specs.Made.{HasMade};

use crate::own::own_info;
use st_board::EngineBoard;
use st_cells::{the_started_pools, the_table};
use st_creating::{Plan, Ready, make_ready};
use st_founding::{Founded, found};
use st_ghost::Ghost;
use st_model::{EngineState, Env, Reply};
use st_pool::{Pool, PoolReply};
use st_rack::Rack;
use st_ran::{Ran, no_memory, none_has_run, plainly};
use st_units::{Cause, DevList, Name, NoMemory, RoomyList};
use std::alloc::Global;

/// A device failed from the first write on.
fn device_fault() -> PoolReply
    ensures { result ≡ failed }
{
    PoolReply {
        reply: Reply::refused(Cause::DeviceFault),
        twin: Reply::refused(Cause::DeviceFault),
        env: Env::FaultWrite,
        low: false,
    }
}

/// Makes the pool that was planned, and the call has run.
fn founded<R: Rack>(
    alloc: Global,
    cells: &mut RoomyList<Pool<R>>,
    board: EngineBoard<R>,
    before: &Ghost<EngineState>,
    plan: Plan,
) -> Ran<R>
    requires all { AreAll R.devs R.moment R.state_at R.faults before.now.value cells.old.items board }
    requires plan { (name : Text) × (paths : List Text) × IsPlan before.now.value name paths plan }
    requires places { MAX_POOLS ≤ length cells.old.items + cells.old.room }
    ensures ran { (name : Text) (paths : List Text) → IsPlan before.now.value name paths plan
        → HasRun R.devs R.moment R.state_at R.faults before.now.value (CreatePool name paths) result.answer cells.old.items board cells.new.items result.board }
    ensures made { (name : Text) (paths : List Text) → IsPlan before.now.value name paths plan
        → HasMade R.devs R.moment R.state_at R.faults before.now.value name paths result.answer cells.old.items board cells.new.items result.board }
    ensures places { length cells.old.items + cells.old.room ≤ length cells.new.items + cells.new.room }
{
    the_started_pools();
    the_table();
    let Plan {
        name,
        serial,
        devs,
        table,
        reply,
        twin,
    } = plan;
    match found(alloc, name, serial, devs, table, board) {
        Founded::Ready(board, pool) => {
            cells.put(pool);
            Ran {
                board,
                answer: plainly(reply, twin),
            }
        }
        Founded::Broken(board, pool) => {
            cells.put(pool);
            Ran {
                board,
                answer: device_fault(),
            }
        }
        Founded::NoMemory(board) => Ran {
            board,
            answer: no_memory(),
        },
    }
}

/// Runs CreatePool on every started pool and the board.
pub fn create<R: Rack>(
    alloc: Global,
    cells: &mut RoomyList<Pool<R>>,
    board: EngineBoard<R>,
    before: &Ghost<EngineState>,
    name: &Name,
    devices: &DevList,
) -> Ran<R>
    requires all { AreAll R.devs R.moment R.state_at R.faults before.now.value cells.old.items board }
    requires places { MAX_POOLS ≤ length cells.old.items + cells.old.room }
    ensures ran { HasRun R.devs R.moment R.state_at R.faults before.now.value (CreatePool name.now devices.now) result.answer cells.old.items board cells.new.items result.board }
    ensures made { HasMade R.devs R.moment R.state_at R.faults before.now.value name.now devices.now result.answer cells.old.items board cells.new.items result.board }
    ensures places { length cells.old.items + cells.old.room ≤ length cells.new.items + cells.new.room }
{
    none_has_run::<R>();
    let own = own_info(cells.items(), before, name);
    match make_ready(alloc, &board.table, own, before, name, devices) {
        Err(NoMemory) => Ran {
            board,
            answer: no_memory(),
        },
        Ok(Ready::Answered(reply, twin)) => Ran {
            board,
            answer: plainly(reply, twin),
        },
        Ok(Ready::Planned(plan)) => founded(alloc, cells, board, before, plan),
    }
}
