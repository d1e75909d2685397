ghost use Rattle.std.specs.Prelude.{◌≡◌, ◌+◌, ◌≤◌, true, false, length, slice_get, Some, None};
ghost use Rattle.st_units.specs.declared.cause.Cause.TheVariants.{PoolStopped};
ghost use Rattle.st_model.specs.declared.call.Call.TheVariants.{DestroyPool};
ghost use Rattle.st_model.specs.declared.entry.Env.TheVariants.{Plain};
ghost use Rattle.st_model.specs.declared.reply.Given.TheVariants.{Changed};
ghost use Rattle.st_model.specs.Answer as Answer;
ghost use Rattle.st_model.specs.Parts.{table_of};
ghost use Rattle.st_model.specs.Step.{step};
ghost use Rattle.st_pool.specs.Answered.{answered, failed, is_device_fault};
ghost use Rattle.st_pool.specs.View.{PoolView};
ghost use Rattle.st_table.specs.Steps.{StandsFor};
ghost use Rattle.st_table.specs.Table.{knows};
ghost use Rattle.st_board.specs.Changes.{without};
ghost use Rattle.st_board.specs.Ran.{AreAll, HasRun};
ghost use Rattle.st_ending.specs.Ended.{DidEnd};

use crate::tables;
use st_beside::beside_others;
use st_board::EngineBoard;
use st_cells::the_started_pools;
use st_ghost::Ghost;
use st_leaving::{changed, one_has_gone, refused, unchanged};
use st_model::{EngineState, Env, Reply, TableState};
use st_outcomes::{ends, the_table_tells};
use st_pool::{Ended, Pool, PoolReply};
use st_rack::Rack;
use st_ran::{Ran, no_memory, none_has_run, one_has_run, place_of};
use st_table::{Table, changes_as_the_model};
use st_units::{Cause, Name, RoomyList};
use std::alloc::Global;

/// Runs DestroyPool on every started pool and the board. All memory is taken before the first device call.
pub fn destroy<R: Rack>(
    alloc: Global,
    cells: &mut RoomyList<Pool<R>>,
    board: EngineBoard<R>,
    before: &Ghost<EngineState>,
    name: &Name,
) -> Ran<R>
    requires all { AreAll R.devs R.moment R.state_at R.faults before.now.value cells.old.items board }
    ensures ran { HasRun R.devs R.moment R.state_at R.faults before.now.value (DestroyPool name.now) result.answer cells.old.items board cells.new.items result.board }
    ensures did { DidEnd R.devs R.moment R.state_at R.faults name.now (is_device_fault result.answer.env) cells.old.items board cells.new.items result.board }
    ensures places { length cells.old.items + cells.old.room ≤ length cells.new.items + cells.new.room }
{
    the_table_tells();
    ends();
    none_has_run::<R>();
    match place_of(cells.items(), name) {
        None => {
            let answer = unstarted(&board.table, name);
            Ran { board, answer }
        }
        Some(place) => destroy_at(alloc, cells, board, before, place, name),
    }
}

/// Runs it where the started pool of the name stands at this place.
fn destroy_at<R: Rack>(
    alloc: Global,
    cells: &mut RoomyList<Pool<R>>,
    board: EngineBoard<R>,
    before: &Ghost<EngineState>,
    place: usize,
    name: &Name,
) -> Ran<R>
    requires all { AreAll R.devs R.moment R.state_at R.faults before.now.value cells.old.items board }
    requires at { (c : PoolView R) × (slice_get cells.old.items place ≡ Some c) × (c.pool.name ≡ name.now) }
    ensures ran { HasRun R.devs R.moment R.state_at R.faults before.now.value (DestroyPool name.now) result.answer cells.old.items board cells.new.items result.board }
    ensures did { DidEnd R.devs R.moment R.state_at R.faults name.now (is_device_fault result.answer.env) cells.old.items board cells.new.items result.board }
    ensures places { length cells.old.items + cells.old.room ≤ length cells.new.items + cells.new.room }
{
    the_table_tells();
    the_started_pools();
    changes_as_the_model();
    none_has_run::<R>();
    match tables::dropped(alloc, &board.table, name) {
        Err(_) => Ran {
            board,
            answer: no_memory(),
        },
        Ok(table) => run_at(alloc, cells, board, before, place, table, name),
    }
}

/// Ends the pool at this place. The table is that of the state without the pool.
#[tactic(none)]
fn run_at<R: Rack>(
    alloc: Global,
    cells: &mut RoomyList<Pool<R>>,
    board: EngineBoard<R>,
    before: &Ghost<EngineState>,
    place: usize,
    table: Table,
    name: &Name,
) -> Ran<R>
    requires all { AreAll R.devs R.moment R.state_at R.faults before.now.value cells.old.items board }
    requires at { (c : PoolView R) × (slice_get cells.old.items place ≡ Some c) × (c.pool.name ≡ name.now) × (table.spare ≡ true) × StandsFor table (without c.pool before.now.value) }
    ensures ran { HasRun R.devs R.moment R.state_at R.faults before.now.value (DestroyPool name.now) result.answer cells.old.items board cells.new.items result.board }
    ensures did { DidEnd R.devs R.moment R.state_at R.faults name.now (is_device_fault result.answer.env) cells.old.items board cells.new.items result.board }
    ensures places { length cells.old.items + cells.old.room ≤ length cells.new.items + cells.new.room }
{
    the_started_pools();
    beside_others();
    ends();
    one_has_run::<R>();
    one_has_gone::<R>();
    let pool = cells.take_at(place);
    let faults = pool.faults();
    let answer = changed(pool.view().serial);
    match pool.end(alloc) {
        Ended::Gone(rack) => {
            let state = state_after(before, name);
            let board = board.freed(table, rack, faults, state);
            Ran { board, answer }
        }
        Ended::Kept(pool, answer) => {
            cells.put(pool);
            Ran { board, answer }
        }
        Ended::Broken(pool) => {
            cells.put(pool);
            Ran {
                board,
                answer: device_fault(),
            }
        }
    }
}

/// What the table stands for once the pool is gone.
fn state_after(before: &Ghost<EngineState>, name: &Name) -> Ghost<TableState>
    ensures { result.value ≡ table_of (step before.now.value (DestroyPool name.now) Plain).1 }
{
    Ghost::new(before, name)
}

/// The answer where no started pool has the name.
fn unstarted(table: &Table, name: &Name) -> PoolReply
    ensures known { knows name.now table.now.pools ≡ true → result ≡ answered Plain (Answer.refused PoolStopped) }
    ensures unknown { knows name.now table.now.pools ≡ false → result ≡ answered Plain (Answer.accepted (Changed false None)) }
{
    if table.is_known(name) {
        refused(Cause::PoolStopped, Cause::PoolStopped)
    } else {
        unchanged()
    }
}

/// A device failed from the first write on.
fn device_fault() -> PoolReply
    ensures { result ≡ failed }
{
    PoolReply {
        reply: Reply::refused(Cause::DeviceFault),
        twin: Reply::refused(Cause::DeviceFault),
        env: Env::FaultWrite,
        low: false,
    }
}
