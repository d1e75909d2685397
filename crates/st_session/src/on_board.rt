ghost use Rattle.std.specs.Prelude.{◌≡◌, ◌+◌, ◌<◌, ◌≤◌, [], IfOk, length};
ghost use Rattle.st_limits.specs.declared.TheConstants.{MAX_LINES};
ghost use Rattle.st_board.specs.View.{last, slack_of};
ghost use Rattle.st_history.specs.Failures.{failures};
ghost use Rattle.st_laning.specs.inner.Running.{AreAnswers};
ghost use Rattle.st_running.specs.Calls.{runs};
ghost use Rattle.st_session.specs.inner.Ended.{HasRun, IsFresh};

use st_alone::{Closed, Home};
use st_board::EngineBoard;
use st_closing::close_board;
use st_ghost::Ghost;
use st_history::Log;
use st_laning::{Answer, RanLines, run_lines};
use st_lines::Lines;
use st_model::{EngineState, Gate};
use st_pool::Pool;
use st_rack::Rack;
use st_running::board_keeps;
use st_units::{ItemList, NoMemory, RoomyList};
use std::alloc::Global;

/// What lines leave that were run: all devices in one rack, the log, and what became of each line.
pub(crate) struct Ended<R> {
    pub rack: R,
    pub log: Log,
    pub answers: Result<ItemList<Answer>, NoMemory>,
}

#[tactic(none)]
/// Runs the lines on a board that stands for this state, in which no pool is started, and puts all devices into one rack.
pub(crate) fn run_board<R: Rack, G: Gate>(
    alloc: Global,
    gate: &G,
    lanes: u8,
    board: EngineBoard<R>,
    state: Ghost<EngineState>,
    lines: &Lines,
) -> Ended<R>
    requires fresh { IsFresh state.value board }
    requires few { length lines.now ≤ MAX_LINES }
    ensures run { HasRun R.devs R.moment R.state_at lanes lines.now state.value result.log.items result.rack }
    ensures counts { R.faults result.rack < last → slack_of R.faults board + failures result.log.items ≤ R.faults result.rack }
    ensures answers { IfOk result.answers (λ answers. AreAnswers runs lanes lines.now result.log.items answers) }
    ensures all { IfOk result.answers (λ answers. length answers ≡ length lines.now) }
{
    board_keeps(&board);
    match Home::begin(alloc, board, state) {
        Ok(home) => run_home(alloc, gate, lanes, home, lines),
        Err((board, state)) => {
            let cells = RoomyList::make(alloc);
            let rack = close_board(cells, board, &state);
            let log = Log::make(alloc);
            Ended {
                rack,
                log,
                answers: Err(NoMemory),
            }
        }
    }
}

#[tactic(none)]
/// Runs the lines on a book that has just begun.
fn run_home<R: Rack, G: Gate>(
    alloc: Global,
    gate: &G,
    lanes: u8,
    home: Home<Pool<R>, EngineBoard<R>>,
    lines: &Lines,
) -> Ended<R>
    requires new { (home.log ≡ []) × (home.tickets ≡ 0) }
    requires few { length lines.now ≤ MAX_LINES }
    ensures run { HasRun R.devs R.moment R.state_at lanes lines.now home.opening result.log.items result.rack }
    ensures counts { R.faults result.rack < last → home.base + failures result.log.items ≤ R.faults result.rack }
    ensures answers { IfOk result.answers (λ answers. AreAnswers runs lanes lines.now result.log.items answers) }
    ensures all { IfOk result.answers (λ answers. length answers ≡ length lines.now) }
{
    let RanLines { home, answers } = run_lines(alloc, gate, lanes, home, lines);
    let Closed {
        table,
        cells,
        log,
        state,
    } = home.close();
    let rack = close_board(cells, table, &state);
    Ended { rack, log, answers }
}
