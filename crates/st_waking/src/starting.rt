ghost use Rattle.std.specs.Prelude.{◌≡◌, ◌+◌, ◌≤◌, length, true, Some};
ghost use Rattle.st_limits.specs.declared.TheConstants.{MAX_POOLS};
ghost use Rattle.st_model.specs.declared.call.Call.TheVariants.{StartPool};
ghost use Rattle.st_model.specs.declared.state.PoolState.{PoolState};
ghost use Rattle.st_model.specs.Parts.{table_of};
ghost use Rattle.st_model.specs.Step.{can_start, step};
ghost use Rattle.st_model.specs.steps.StartPool.{pool_meant};
ghost use Rattle.st_table.specs.Stands.{Stands};
ghost use Rattle.st_pool.specs.Answered.{answered};
ghost use Rattle.st_pool.specs.Halts.{HaltedView};
ghost use Rattle.st_board.specs.Ran.{AreAll, HasRun};
ghost use Rattle.st_lent.specs.Lent.{HasWoken};
ghost use Rattle.st_waking.specs.Did.{DidWake};
ghost use Rattle.st_waking.specs.Taken.{IsSet, TellsNow};

use crate::met::{Met, meet};
use crate::ready::{Ready, make_ready};
use st_board::EngineBoard;
use st_ghost::Ghost;
use st_lent::{Lent, Loan, lend};
use st_meant::{Tables, start_makes, tables_of_a_start};
use st_model::{EngineState, Env, Given, Identity, Named, PoolId, Reply, TableState};
use st_pool::{Pool, PoolReply, Started};
use st_rack::Rack;
use st_ran::{Ran, no_memory, none_has_run};
use st_startbeside::starts_beside_others;
use st_table::{Table, tells_of_each_pool};
use st_units::{Cause, Name, RoomyList};
use std::alloc::Global;

/// So it is answered, for what was met.
fn so(reply: Reply, twin: Reply, env: Env) -> PoolReply
    requires { twin ≡ reply }
    ensures { result ≡ answered env reply }
{
    PoolReply {
        reply,
        twin,
        env,
        low: false,
    }
}

/// A state, and what a start of it names.
fn asked(before: &Ghost<EngineState>, id: &PoolId) -> Ghost<(EngineState, PoolId)>
    ensures { result.value ≡ (before.now.value, id.now) }
{
    Ghost::new(before, id)
}

/// What the table stands for after the start, for what was met.
fn state_after(before: &Ghost<EngineState>, id: &PoolId, env: &Env) -> Ghost<TableState>
    ensures { result.value ≡ table_of (step before.now.value (StartPool id.now) env.now).1 }
{
    let asked = asked(before, id);
    Ghost::new(&asked, env)
}

/// The table in which the pool is started, under the same name or the new one.
fn chosen(tables: Tables, same: bool) -> Table
    ensures { (t : _) → TellsNow same t tables → Stands result t × (result.spare ≡ true) }
{
    let Tables {
        started,
        renamed,
        gone: _,
    } = tables;
    if same {
        return started;
    }
    match renamed {
        Some(table) => table,
        None => started,
    }
}

/// The board, on which the pool is started.
fn woken<R: Rack>(
    board: Lent<R>,
    tables: Tables,
    same: bool,
    state: Ghost<TableState>,
) -> EngineBoard<R>
    requires woken { HasWoken board.state state.value board.out }
    requires tell { TellsNow same state.value tables }
    ensures { result ≡ record { state = state.value; spare = true; free = board.free; halted = board.halted; past = board.past } }
{
    let table = chosen(tables, same);
    board.woken(table, state)
}

/// Starts the pool at the place that was made ready.
#[tactic(none)]
fn start_at<R: Rack>(
    alloc: Global,
    cells: &mut RoomyList<Pool<R>>,
    board: EngineBoard<R>,
    before: &Ghost<EngineState>,
    id: &PoolId,
    name: &Name,
    ready: Ready,
) -> Ran<R>
    requires all { AreAll R.devs R.moment R.state_at R.faults before.now.value cells.old.items board }
    requires places { MAX_POOLS ≤ length cells.old.items + cells.old.room }
    requires set { (p : PoolState) × (h : HaltedView R) × (p.name ≡ name.now) × IsSet R.devs before.now.value id.now board.halted ready p h }
    ensures ran { HasRun R.devs R.moment R.state_at R.faults before.now.value (StartPool id.now) result.answer cells.old.items board cells.new.items result.board }
    ensures did { DidWake R.devs R.moment R.state_at R.faults before.now.value id.now result.answer.env cells.old.items board cells.new.items result.board }
    ensures places { length cells.old.items + cells.old.room ≤ length cells.new.items + cells.new.room }
{
    starts_beside_others();
    start_makes();
    let Ready { tables, place } = ready;
    let Loan { board, pool } = lend(board, place);
    let serial = pool.serial();
    let faults = pool.faults();
    match Pool::start(alloc, pool) {
        Started::Up(pool, env) => {
            let state = state_after(before, id, &env);
            let same = pool.name().bytes() == name.bytes();
            let board = woken(board, tables, same, state);
            cells.put(pool);
            let given = Given::Changed(true, Some(Identity::Pool(serial)));
            let twin = Given::Changed(true, Some(Identity::Pool(serial)));
            Ran {
                board,
                answer: so(Reply::accepted(given), Reply::accepted(twin), env),
            }
        }
        Started::Vanished(rack, env) => {
            let state = state_after(before, id, &env);
            let board = board.vanished(tables.gone, rack, faults, state);
            Ran {
                board,
                answer: so(
                    Reply::refused(Cause::PoolVanished),
                    Reply::refused(Cause::PoolVanished),
                    env,
                ),
            }
        }
        Started::Fault(pool) => Ran {
            board: board.back(pool),
            answer: so(
                Reply::refused(Cause::DeviceFault),
                Reply::refused(Cause::DeviceFault),
                Env::FaultWrite,
            ),
        },
        Started::NoMemory(pool) => Ran {
            board: board.back(pool),
            answer: no_memory(),
        },
    }
}

/// Starts the pool of this name, which is the one that is meant, and can be started.
fn start_named<R: Rack>(
    alloc: Global,
    cells: &mut RoomyList<Pool<R>>,
    board: EngineBoard<R>,
    before: &Ghost<EngineState>,
    id: &PoolId,
    name: &Name,
) -> Ran<R>
    requires all { AreAll R.devs R.moment R.state_at R.faults before.now.value cells.old.items board }
    requires places { MAX_POOLS ≤ length cells.old.items + cells.old.room }
    requires found { (p : PoolState) × (pool_meant id.now before.now.value ≡ Some p) × (p.name ≡ name.now) × (can_start p.mode ≡ true) }
    ensures ran { HasRun R.devs R.moment R.state_at R.faults before.now.value (StartPool id.now) result.answer cells.old.items board cells.new.items result.board }
    ensures did { DidWake R.devs R.moment R.state_at R.faults before.now.value id.now result.answer.env cells.old.items board cells.new.items result.board }
    ensures places { length cells.old.items + cells.old.room ≤ length cells.new.items + cells.new.room }
{
    none_has_run::<R>();
    tells_of_each_pool();
    tables_of_a_start();
    match make_ready(alloc, &board.table, board.halted.items(), name) {
        Ok(ready) => start_at(alloc, cells, board, before, id, name, ready),
        Err(_) => Ran {
            board,
            answer: no_memory(),
        },
    }
}

/// Runs StartPool on every started pool and the board. A pool whose devices aren't of the sizes that the engine knows isn't started, and
/// that can't be told from want of memory.
pub fn start<R: Rack>(
    alloc: Global,
    cells: &mut RoomyList<Pool<R>>,
    board: EngineBoard<R>,
    before: &Ghost<EngineState>,
    id: &PoolId,
) -> Ran<R>
    requires all { AreAll R.devs R.moment R.state_at R.faults before.now.value cells.old.items board }
    requires places { MAX_POOLS ≤ length cells.old.items + cells.old.room }
    ensures ran { HasRun R.devs R.moment R.state_at R.faults before.now.value (StartPool id.now) result.answer cells.old.items board cells.new.items result.board }
    ensures did { DidWake R.devs R.moment R.state_at R.faults before.now.value id.now result.answer.env cells.old.items board cells.new.items result.board }
    ensures places { length cells.old.items + cells.old.room ≤ length cells.new.items + cells.new.room }
{
    none_has_run::<R>();
    match meet(cells.items(), &board.table, before, id) {
        Ok(Met::Answered(answer)) => Ran { board, answer },
        Ok(Met::Found(name)) => start_named(alloc, cells, board, before, id, &name),
        Err(_) => Ran {
            board,
            answer: no_memory(),
        },
    }
}
