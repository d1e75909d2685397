ghost use Rattle.std.specs.Prelude.{◌≡◌, ◌+◌, ◌≤◌, true, length};
ghost use Rattle.st_limits.specs.declared.TheConstants.{MAX_POOLS};
ghost use Rattle.st_running.specs.Calls.{runs};
ghost use Rattle.st_running.specs.Part.{HasRunOn, IsPart};

use crate::laws::board_keeps;
use crate::on_all::on_all;
use crate::report::answer_report;
use st_board::EngineBoard;
use st_book::{InfoList, Part};
use st_ghost::Ghost;
use st_model::{Call, EngineState};
use st_pool::{Pool, PoolReply};
use st_rack::Rack;
use st_ran::Ran;
use std::alloc::Global;

/// What a ticket of the engine has.
pub type EnginePart<R> = Part<Pool<R>, EngineBoard<R>>;

/// What a ticket has after its call, and what the call is answered.
pub struct RanOn<R: Rack> {
    pub part: EnginePart<R>,
    pub answer: PoolReply,
}

/// Runs the call on what its ticket has. Where its part is short, memory is refused.
pub fn run_on<R: Rack>(
    alloc: Global,
    call: &Call,
    part: EnginePart<R>,
    before: &Ghost<EngineState>,
) -> RanOn<R>
    requires runs { runs call.now ≡ true }
    requires part { IsPart R.devs R.moment R.state_at R.faults before.now.value call.now part.cells.items part.table part.infos.items part.table_info part.short }
    requires places { MAX_POOLS ≤ length part.cells.items + part.cells.room }
    ensures { HasRunOn R.devs R.moment R.state_at R.faults before.now.value call.now result.answer part.cells.items part.table result.part.cells.items result.part.table }
{
    let Part {
        table,
        table_info,
        mut cells,
        infos,
        short,
    } = part;
    match table {
        Some(board) => {
            let Ran { board, answer } = on_all(alloc, call, &mut cells, board, before);
            board_keeps(&board);
            let part = Part {
                table: Some(board),
                table_info,
                cells,
                infos,
                short,
            };
            RanOn { part, answer }
        }
        None => {
            let answer = answer_report(alloc, table_info, infos, short, before);
            let part = Part {
                table: None,
                table_info: None,
                cells,
                infos: InfoList::make(alloc),
                short,
            };
            RanOn { part, answer }
        }
    }
}
