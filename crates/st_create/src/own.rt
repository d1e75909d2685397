ghost use Rattle.std.specs.Prelude.{◌≡◌, option_copied, option_map};
ghost use Rattle.st_model.specs.Parts as parts;
ghost use Rattle.st_model.specs.Pieces.{ArePools, every};
ghost use Rattle.st_model.specs.Shown.{pool_info};
ghost use Rattle.st_model.specs.Valid.{IsValid};
ghost use Rattle.st_board.specs.View.{pools_of};

use st_cells::the_started_pools;
use st_ghost::Ghost;
use st_model::{EngineState, PoolInfo};
use st_pool::Pool;
use st_rack::Rack;
use st_ran::place_of;
use st_units::Name;

/// What is shown of the started pool of this name, None where there is none. These are all started pools of the state.
pub(crate) fn own_info<'a, R: Rack>(
    cells: &'a [Pool<R>],
    state: &Ghost<EngineState>,
    name: &Name,
) -> Option<&'a PoolInfo>
    requires valid { IsValid state.now.value }
    requires pools { ArePools every state.now.value (pools_of cells.now) }
    ensures { option_copied result ≡ option_map pool_info (parts.own name.now state.now.value) }
{
    the_started_pools();
    match place_of(cells, name) {
        Some(place) => Some(cells[place].view()),
        None => None,
    }
}
