ghost use Rattle.std.specs.Prelude.{◌≡◌, ◌+◌, ◌<◌, ◌≤◌};
ghost use Rattle.st_board.specs.Ran.{AreAll};
ghost use Rattle.st_board.specs.View.{faults_with, last, slack_of};
ghost use Rattle.st_closing.specs.Kept.{KeptRack};

use crate::gather::{join_halted, join_started};
use st_board::EngineBoard;
use st_cells::the_started_pools;
use st_ghost::Ghost;
use st_model::EngineState;
use st_pool::Pool;
use st_rack::Rack;
use st_units::RoomyList;

/// Puts all devices of the engine into one rack, which keeps its state. It takes no memory.
pub fn close_board<R: Rack>(
    cells: RoomyList<Pool<R>>,
    board: EngineBoard<R>,
    state: &Ghost<EngineState>,
) -> R
    requires { AreAll R.devs R.moment R.state_at R.faults state.now.value cells.items board }
    ensures kept { KeptRack state.now.value (R.devs result) (R.state_at result (R.moment result)) }
    // Each fault that was answered was counted by a rack.
    ensures counts { R.faults result < last → slack_of R.faults board + faults_with cells.items board ≤ R.faults result }
{
    the_started_pools();
    let _ = state;
    let EngineBoard {
        table: _,
        free,
        mut halted,
        past: _,
        state: _,
    } = board;
    let mut rack = free;
    let mut cells = cells;
    join_halted(&mut rack, &mut halted);
    join_started(&mut rack, &mut cells);
    halted.finish();
    cells.finish();
    rack
}
