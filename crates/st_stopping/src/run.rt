ghost use Rattle.std.specs.Prelude.{◌≡◌, ◌+◌, ◌≤◌, true, false, length, slice_get, IfOk, Some, None};
ghost use Rattle.st_units.specs.declared.cause.Cause.TheVariants.{NoSuchPool};
ghost use Rattle.st_model.specs.declared.call.Call.TheVariants.{StopPool};
ghost use Rattle.st_model.specs.declared.entry.Env.TheVariants.{Plain};
ghost use Rattle.st_model.specs.declared.reply.Given.TheVariants.{Changed};
ghost use Rattle.st_model.specs.Answer as Answer;
ghost use Rattle.st_model.specs.Checks.{halted};
ghost use Rattle.st_model.specs.Parts.{own, table_of};
ghost use Rattle.st_model.specs.Step.{step};
ghost use Rattle.st_model.specs.Valid.{IsValid};
ghost use Rattle.st_pool.specs.Answered.{answered};
ghost use Rattle.st_pool.specs.View.{PoolView};
ghost use Rattle.st_table.specs.Steps.{StandsFor, with_other};
ghost use Rattle.st_table.specs.Table.{knows};
ghost use Rattle.st_board.specs.Ran.{AreAll, HasRun};
ghost use Rattle.st_stopping.specs.Stopped.{DidStop};

use crate::info::halted_info;
use crate::tables;
use st_board::EngineBoard;
use st_cells::the_started_pools;
use st_ghost::Ghost;
use st_leaving::{changed, one_has_stopped, refused, unchanged};
use st_model::{EngineState, TableState};
use st_outcomes::{stops, the_table_tells};
use st_pool::{Pool, PoolReply};
use st_rack::Rack;
use st_ran::{Ran, no_memory, none_has_run, place_of};
use st_table::Table;
use st_units::{Cause, Name, NoMemory, RoomyList};
use std::alloc::Global;

/// Runs StopPool on every started pool and the board. It calls no device.
pub fn stop<R: Rack>(
    alloc: Global,
    cells: &mut RoomyList<Pool<R>>,
    board: EngineBoard<R>,
    before: &Ghost<EngineState>,
    name: &Name,
) -> Ran<R>
    requires all { AreAll R.devs R.moment R.state_at R.faults before.now.value cells.old.items board }
    ensures ran { HasRun R.devs R.moment R.state_at R.faults before.now.value (StopPool name.now) result.answer cells.old.items board cells.new.items result.board }
    ensures did { DidStop name.now cells.old.items board cells.new.items result.board }
    ensures places { length cells.old.items + cells.old.room ≤ length cells.new.items + cells.new.room }
{
    the_table_tells();
    stops();
    none_has_run::<R>();
    match place_of(cells.items(), name) {
        None => {
            let answer = unstarted(&board.table, name);
            Ran { board, answer }
        }
        Some(place) => stop_at(alloc, cells, board, before, place, name),
    }
}

/// Runs it where the started pool of the name stands at this place.
fn stop_at<R: Rack>(
    alloc: Global,
    cells: &mut RoomyList<Pool<R>>,
    board: EngineBoard<R>,
    before: &Ghost<EngineState>,
    place: usize,
    name: &Name,
) -> Ran<R>
    requires all { AreAll R.devs R.moment R.state_at R.faults before.now.value cells.old.items board }
    requires at { (c : PoolView R) × (slice_get cells.old.items place ≡ Some c) × (c.pool.name ≡ name.now) }
    ensures ran { HasRun R.devs R.moment R.state_at R.faults before.now.value (StopPool name.now) result.answer cells.old.items board cells.new.items result.board }
    ensures did { DidStop name.now cells.old.items board cells.new.items result.board }
    ensures places { length cells.old.items + cells.old.room ≤ length cells.new.items + cells.new.room }
{
    the_started_pools();
    none_has_run::<R>();
    match table_after(alloc, &board.table, before, cells.at(place), name) {
        Err(_) => Ran {
            board,
            answer: no_memory(),
        },
        Ok(table) => run_at(cells, board, before, place, table, name),
    }
}

/// The table of the state after the stop of a started pool, with an info to give.
fn table_after<R: Rack>(
    alloc: Global,
    table: &Table,
    before: &Ghost<EngineState>,
    pool: &Pool<R>,
    name: &Name,
) -> Result<Table, NoMemory>
    requires named { pool.now.pool.name ≡ name.now }
    requires started { IsValid before.now.value × StandsFor table.now before.now.value × (own name.now before.now.value ≡ Some pool.now.pool) }
    ensures { IfOk result (λ other. (other.spare ≡ true) × StandsFor other (with_other name.now (halted pool.now.pool) before.now.value)) }
{
    the_table_tells();
    stops();
    let info = halted_info(alloc, pool)?;
    tables::halted(alloc, table, name, info)
}

/// Stops the pool at this place, and has the board tell so.
fn run_at<R: Rack>(
    cells: &mut RoomyList<Pool<R>>,
    board: EngineBoard<R>,
    before: &Ghost<EngineState>,
    place: usize,
    table: Table,
    name: &Name,
) -> Ran<R>
    requires all { AreAll R.devs R.moment R.state_at R.faults before.now.value cells.old.items board }
    requires at { (c : PoolView R) × (slice_get cells.old.items place ≡ Some c) × (c.pool.name ≡ name.now) × (table.spare ≡ true) × StandsFor table (with_other name.now (halted c.pool) before.now.value) }
    ensures ran { HasRun R.devs R.moment R.state_at R.faults before.now.value (StopPool name.now) result.answer cells.old.items board cells.new.items result.board }
    ensures did { DidStop name.now cells.old.items board cells.new.items result.board }
    ensures places { length cells.old.items + cells.old.room ≤ length cells.new.items + cells.new.room }
{
    the_started_pools();
    stops();
    one_has_stopped::<R>();
    let pool = cells.take_at(place);
    let answer = changed(pool.view().serial);
    let state = state_after(before, name);
    let board = board.stopped(table, pool.stop(), state);
    Ran { board, answer }
}

/// What the table stands for after the stop.
fn state_after(before: &Ghost<EngineState>, name: &Name) -> Ghost<TableState>
    ensures { result.value ≡ table_of (step before.now.value (StopPool name.now) Plain).1 }
{
    Ghost::new(before, name)
}

/// The answer where no started pool has the name.
fn unstarted(table: &Table, name: &Name) -> PoolReply
    ensures known { knows name.now table.now.pools ≡ true → result ≡ answered Plain (Answer.accepted (Changed false None)) }
    ensures unknown { knows name.now table.now.pools ≡ false → result ≡ answered Plain (Answer.refused NoSuchPool) }
{
    if table.is_known(name) {
        unchanged()
    } else {
        refused(Cause::NoSuchPool, Cause::NoSuchPool)
    }
}
