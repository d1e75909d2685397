ghost use Rattle.std.specs.Prelude.{◌≡◌, ◌≤◌, map, ℕ, IfOk};
ghost use Rattle.st_units.specs.Causes.{Rose};
ghost use Rattle.st_rack.specs.Device.{held};
ghost use Rattle.st_rack.specs.Calls.{Rises};
ghost use Rattle.st_looks.specs.Looked.{looked};
ghost use Rattle.st_assemble.specs.inner.Told.{IsTold, StandsForNothing};

use crate::fault::FoundFault;
use crate::whole::read_whole;
use st_judge::{FoundRow, GoneRow, Verdict, judge};
use st_looks::DevLook;
use st_rack::Rack;
use st_slots::SlotFault;
use st_units::PoolSerial;
use std::alloc::Global;

/// What the devices tell of one pool.
#[derive(Drop)]
pub enum Told {
    /// There is none.
    Nothing,
    Gone(GoneRow),
    Known(FoundRow),
}

/// What the devices, which show this, tell of the pool of a serial.
pub fn told_of<R: Rack>(
    alloc: Global,
    rack: &mut R,
    looks: &[DevLook],
    serial: PoolSerial,
) -> Result<Told, FoundFault>
    requires rises { Rises (R.devs rack.old) }
    requires looks { looks.now ≡ map (looked (held (R.state_at rack.old (R.moment rack.old)))) (R.devs rack.old) }
    ensures told { IfOk result (IsTold serial (R.devs rack.old) (held (R.state_at rack.old (R.moment rack.old)))) }
    ensures foreign { (n : ℕ) → result ≡ Err (FoundFault.Foreign n) → (n ≡ serial) × StandsForNothing serial (R.devs rack.old) (held (R.state_at rack.old (R.moment rack.old))) }
    ensures cause { result ≡ Err FoundFault.Fault → Rose (R.faults rack.old) (R.faults rack.new) }
    ensures faults { R.faults rack.old ≤ R.faults rack.new }
    ensures devs { R.devs rack.new ≡ R.devs rack.old }
    ensures clock { R.moment rack.new ≡ R.moment rack.old }
    ensures states { R.state_at rack.new ≡ R.state_at rack.old }
    ensures spare { R.spare rack.new ≡ R.spare rack.old }
{
    let said = judge(alloc, looks, serial)?;
    match said {
        Verdict::Nothing => Ok(Told::Nothing),
        Verdict::Gone(row) => Ok(Told::Gone(row)),
        Verdict::Lacking(row) => Ok(Told::Known(row)),
        Verdict::Here(generation, rec) => {
            let whole = match read_whole(alloc, rack, serial, generation, rec) {
                Ok(whole) => whole,
                Err(SlotFault::Fault) => return Err(FoundFault::Fault),
                Err(SlotFault::OutOfMemory) => return Err(FoundFault::OutOfMemory),
            };
            match whole {
                None => Err(FoundFault::Foreign(serial.number())),
                Some(row) => Ok(Told::Known(row)),
            }
        }
        Verdict::Breaks => Err(FoundFault::Foreign(serial.number())),
    }
}
