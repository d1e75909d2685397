ghost use Rattle.std.specs.Prelude.{◌≡◌, ◌+◌, ◌≤◌, true, length};
ghost use Rattle.st_limits.specs.declared.TheConstants.{MAX_POOLS};
ghost use Rattle.st_wants.specs.declared.want.Want.TheVariants.{All};
ghost use Rattle.st_wants.specs.declared.want.Mode.TheVariants.{Write};
ghost use Rattle.st_model.specs.Wanted.{want_of};
ghost use Rattle.st_board.specs.Ran.{AreAll, HasRun};
ghost use Rattle.st_running.specs.Calls.{runs};

use st_board::EngineBoard;
use st_create::create;
use st_ending::destroy;
use st_ghost::Ghost;
use st_model::{Call, EngineState};
use st_pool::Pool;
use st_rack::Rack;
use st_ran::Ran;
use st_renaming::rename;
use st_stopping::stop;
use st_units::RoomyList;
use st_waking::start;
use std::alloc::Global;

/// Runs the call on every started pool and the board.
pub(crate) fn on_all<R: Rack>(
    alloc: Global,
    call: &Call,
    cells: &mut RoomyList<Pool<R>>,
    board: EngineBoard<R>,
    before: &Ghost<EngineState>,
) -> Ran<R>
    requires wants { want_of call.now ≡ All Write }
    requires runs { runs call.now ≡ true }
    requires all { AreAll R.devs R.moment R.state_at R.faults before.now.value cells.old.items board }
    requires places { MAX_POOLS ≤ length cells.old.items + cells.old.room }
    ensures { HasRun R.devs R.moment R.state_at R.faults before.now.value call.now result.answer cells.old.items board cells.new.items result.board }
{
    match call {
        Call::CreatePool { name, devices } => create(alloc, cells, board, before, name, devices),
        Call::DestroyPool { name } => destroy(alloc, cells, board, before, name),
        Call::StopPool { name } => stop(alloc, cells, board, before, name),
        Call::StartPool { id } => start(alloc, cells, board, before, id),
        Call::RenamePool { name, new } => rename(alloc, cells, board, before, name, new),
        _ => unreachable!(),
    }
}
