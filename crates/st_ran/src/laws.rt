ghost use Rattle.st_ran.specs.One.{NoneHasRun, OneHasRun};

use st_cells::the_started_pools;
use st_rack::Rack;

/// Where one started pool did the call, and the board tells of what it has become, the call has run.
pub fn one_has_run<R: Rack>()
    ensures { OneHasRun R.devs R.moment R.state_at R.faults }
{
    the_started_pools();
}

/// Where the call changes nothing, it has run on what stays as it is.
pub fn none_has_run<R: Rack>()
    ensures { NoneHasRun R.devs R.moment R.state_at R.faults }
{
    the_started_pools();
}
