ghost use Rattle.st_leaving.specs.Leaving.{OneHasGone, OneHasStopped};

use st_cells::the_started_pools;
use st_rack::Rack;

/// Where one started pool has been stopped, the call has run.
pub fn one_has_stopped<R: Rack>()
    ensures { OneHasStopped R.devs R.moment R.state_at R.faults }
{
    the_started_pools();
}

/// Where one started pool is gone, the call has run.
pub fn one_has_gone<R: Rack>()
    ensures { OneHasGone R.devs R.moment R.state_at R.faults }
{
    the_started_pools();
}
