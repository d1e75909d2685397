ghost use Rattle.std.specs.Prelude.{◌≡◌, None, Some, IfNone, IfSome, slice_get};
ghost use Rattle.std.specs.List.{position};
ghost use Rattle.st_model.specs.Look.{is_called};
ghost use Rattle.st_model.specs.Parts.{pool_at};
ghost use Rattle.st_pool.specs.View.{PoolView};
ghost use Rattle.st_board.specs.View.{pools_of};

use st_model::Named;
use st_pool::Pool;
use st_rack::Rack;
use st_units::Name;

fn place_in<R: Rack>(cells: &[Pool<R>], name: &Name) -> Option<usize>
    ensures { result ≡ position (λ (c : PoolView R). is_called name.now c.pool) cells.now }
{
    cells
        .iter()
        .position(|pool| pool.name().bytes() == name.bytes())
}

/// Where the started pool of this name stands among these, None where there is none.
pub fn place_of<R: Rack>(cells: &[Pool<R>], name: &Name) -> Option<usize>
    ensures some { IfSome result (λ i. (c : PoolView R) × (slice_get cells.now i ≡ Some c) × (c.pool.name ≡ name.now)) }
    ensures none { IfNone result (pool_at name.now (pools_of cells.now) ≡ None) }
{
    place_in(cells, name)
}
