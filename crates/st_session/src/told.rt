ghost use Rattle.std.specs.Prelude.{◌≡◌};
ghost use Rattle.st_rack.specs.Device.{held};
ghost use Rattle.st_image.specs.Rack.{RackStands};
ghost use Rattle.st_onestate.specs.Once.{TheState};
ghost use Rattle.st_onestate.proofs.Once.{the_state_prop};

use st_ghost::Ghost;
use st_model::EngineState;
use st_rack::Rack;
use std::snapshot::Snapshot;

/// A rack as it was, with the state that its devices stood for.
struct Told<R: Rack> {
    was: Snapshot<R>,
    ghost is: { TheState (R.devs was.value) (held (R.state_at was.value (R.moment was.value))) } by { the_state_prop (R.devs was.value) (held (R.state_at was.value (R.moment was.value))) },
}

/// The state that the devices of a rack stood for.
pub(crate) fn state_of<R: Rack>(was: Snapshot<R>) -> Ghost<EngineState>
    requires { (e : EngineState) × RackStands (R.devs was.value) (held (R.state_at was.value (R.moment was.value))) e }
    ensures { (e : EngineState) → RackStands (R.devs was.value) (held (R.state_at was.value (R.moment was.value))) e → result.value ≡ e }
{
    let told = told_of(was);
    let state = state_in(&told);
    let Told { was: _ } = told;
    state
}

fn told_of<R: Rack>(was: Snapshot<R>) -> Told<R>
    requires { (e : EngineState) × RackStands (R.devs was.value) (held (R.state_at was.value (R.moment was.value))) e }
    ensures { result.was.value ≡ was.value }
{
    Told { was }
}

fn state_in<R: Rack>(told: &Told<R>) -> Ghost<EngineState>
    ensures { result.value ≡ told.now.is.0 }
{
    Ghost::new(told, told)
}
