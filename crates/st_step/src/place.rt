ghost use Rattle.std.specs.Prelude.{◌≡◌};
ghost use Rattle.std.specs.List.{position};
ghost use Rattle.st_model.specs.Look.{is_called};

use st_model::{PoolState, look};
use st_units::Name;

/// The place of the pool of this name.
pub(crate) fn place_of(pools: &[PoolState], name: &Name) -> Option<usize>
    ensures { result ≡ position (is_called name.now) pools.now }
{
    pools.iter().position(|pool| look::is_called(pool, name))
}
