ghost use Rattle.std.specs.Prelude.{◌≡◌, ◌+◌, ◌≤◌, true, false, length, slice_get, None, Some, IfNone, IfSome};
ghost use Rattle.st_model.specs.declared.call.Call.TheVariants.{RenamePool};
ghost use Rattle.st_model.specs.declared.entry.Env.TheVariants as envs;
ghost use Rattle.st_model.specs.declared.state.EngineState.{EngineState};
ghost use Rattle.st_model.specs.declared.state.PoolState.{PoolState};
ghost use Rattle.st_pool.specs.View.{PoolView};
ghost use Rattle.st_table.specs.Stands.{Stands};
ghost use Rattle.st_board.specs.Changes.{HasTurned};
ghost use Rattle.st_board.specs.Ran.{AreAll, HasRun};
ghost use Rattle.st_renaming.specs.Renames.{DidRename};
ghost use Rattle.st_renaming.specs.inner.Ready.{IsPlan};

use crate::answers::unstarted;
use crate::ready::{Next, Plan, Ready, make_ready};
use st_beside::beside_others;
use st_board::EngineBoard;
use st_ghost::Ghost;
use st_model::{EngineState, Env, Named};
use st_pool::Pool;
use st_rack::Rack;
use st_ran::{Ran, place_of};
use st_table::{tells_as_the_model, tells_of_each_pool};
use st_units::{Name, RoomyList};
use std::alloc::Global;

/// Runs RenamePool on every started pool and the board, in this state.
#[tactic(none)]
pub fn rename<R: Rack>(
    alloc: Global,
    cells: &mut RoomyList<Pool<R>>,
    board: EngineBoard<R>,
    before: &Ghost<EngineState>,
    name: &Name,
    new: &Name,
) -> Ran<R>
    requires all { AreAll R.devs R.moment R.state_at R.faults before.now.value cells.old.items board }
    ensures ran { HasRun R.devs R.moment R.state_at R.faults before.now.value (RenamePool name.now new.now) result.answer cells.old.items board cells.new.items result.board }
    ensures did { DidRename R.devs R.moment R.state_at R.faults name.now new.now result.answer cells.old.items board cells.new.items result.board }
    ensures places { length cells.old.items + cells.old.room ≤ length cells.new.items + cells.new.room }
{
    tells_as_the_model();
    tells_of_each_pool();
    match place_of(cells.items(), name) {
        None => {
            let answer = unstarted(&board.table, name, new);
            Ran { board, answer }
        }
        Some(place) => match make_ready(alloc, &board.table, before, name, new) {
            Ready::Answered(answer) => Ran { board, answer },
            Ready::Planned(plan) => run_at(alloc, cells, board, before, place, name, plan),
        },
    }
}

/// Has the started pool at a place renamed, and the board tell of what it has become.
#[tactic(none)]
fn run_at<R: Rack>(
    alloc: Global,
    cells: &mut RoomyList<Pool<R>>,
    board: EngineBoard<R>,
    before: &Ghost<EngineState>,
    place: usize,
    name: &Name,
    plan: Plan,
) -> Ran<R>
    requires all { AreAll R.devs R.moment R.state_at R.faults before.now.value cells.old.items board }
    requires at { (c : PoolView R) × (slice_get cells.old.items place ≡ Some c) × (c.pool.name ≡ name.now) }
    requires plan { IsPlan before.now.value name.now plan.new plan }
    ensures ran { HasRun R.devs R.moment R.state_at R.faults before.now.value (RenamePool name.now plan.new) result.answer cells.old.items board cells.new.items result.board }
    ensures did { DidRename R.devs R.moment R.state_at R.faults name.now plan.new result.answer cells.old.items board cells.new.items result.board }
    ensures places { length cells.old.items + cells.old.room ≤ length cells.new.items + cells.new.room }
{
    beside_others();
    let Plan { new, done, down } = plan;
    let mut pool = cells.take_at(place);
    let answer = pool.rename(alloc, new);
    let same = pool.name().bytes() == name.bytes();
    let board = told(board, next_of(&answer.env, same, done, down));
    cells.put(pool);
    Ran { board, answer }
}

/// The table for what a rename met, None where the pool has the name as before.
fn next_of(env: &Env, same: bool, done: Next, down: Next) -> Option<Next>
    ensures failed { env.now ≡ envs.FaultWrite → result ≡ Some down }
    ensures same { (env.now ≡ envs.FaultWrite → ⊥) → same ≡ true → result ≡ None }
    ensures done { (env.now ≡ envs.FaultWrite → ⊥) → same ≡ false → result ≡ Some done }
{
    match env {
        Env::FaultWrite => Some(down),
        _ => { if same { None } else { Some(done) } }
    }
}

/// The board with the next table, if there is one.
fn told<R: Rack>(board: EngineBoard<R>, next: Option<Next>) -> EngineBoard<R>
    requires turned { IfSome next (λ next. (q : PoolState) × HasTurned board.state next.state.value true q) }
    requires tells { IfSome next (λ next. Stands next.table next.state.value) }
    ensures none { IfNone next (result ≡ board) }
    ensures some { IfSome next (λ next. result ≡ record board { state = next.state.value; spare = next.table.spare }) }
{
    match next {
        None => board,
        Some(Next { table, state }) => board.other(table, state),
    }
}
