ghost use Rattle.std.specs.Prelude.{◌≡◌};
ghost use Rattle.st_model.specs.declared.state.EngineState.{EngineState};
ghost use Rattle.st_model.specs.Parts.{table_of};
ghost use Rattle.st_rack.specs.Device.{held};
ghost use Rattle.st_image.specs.Rack.{RackStands};
ghost use Rattle.st_onestate.specs.Once.{TheState};
ghost use Rattle.st_onestate.proofs.Once.{the_state_prop};

use st_ghost::Ghost;
use st_model::TableState;
use st_rack::Rack;
use std::snapshot::Snapshot;

/// A rack, with the state that its devices stand for.
pub(crate) struct Told<R: Rack> {
    pub opened: Snapshot<R>,
    ghost is: { TheState (R.devs opened.value) (held (R.state_at opened.value (R.moment opened.value))) } by { the_state_prop (R.devs opened.value) (held (R.state_at opened.value (R.moment opened.value))) },
}

/// The table of the state that the devices stand for, with this next serial.
pub(crate) fn table_on<R: Rack>(rack: &R, next: u64) -> Ghost<TableState>
    requires { (e : EngineState) × RackStands (R.devs rack.now) (held (R.state_at rack.now (R.moment rack.now))) e }
    ensures { (e : EngineState) → RackStands (R.devs rack.now) (held (R.state_at rack.now (R.moment rack.now))) e → result.value ≡ record (table_of e) { next = next } }
{
    let told = told_of(rack);
    let table = table_in(&told, next);
    let Told { opened: _ } = told;
    table
}

fn told_of<R: Rack>(rack: &R) -> Told<R>
    requires { (e : EngineState) × RackStands (R.devs rack.now) (held (R.state_at rack.now (R.moment rack.now))) e }
    ensures { result.opened.value ≡ rack.now }
{
    Told {
        opened: Snapshot::of(rack),
    }
}

fn table_in<R: Rack>(told: &Told<R>, next: u64) -> Ghost<TableState>
    ensures { result.value ≡ record (table_of told.now.is.0) { next = next } }
{
    Ghost::new(told, &next)
}
