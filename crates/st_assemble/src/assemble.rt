ghost use Rattle.std.specs.Prelude.{◌≡◌, ◌≤◌, ℕ, map, Some, IfOk, OnOk};
ghost use Rattle.st_units.specs.Causes.{Rose};
ghost use Rattle.st_rack.specs.Device.{held};
ghost use Rattle.st_rack.specs.Calls.{Rises};
ghost use Rattle.st_looks.specs.Looked.{looked};
ghost use Rattle.st_looks.specs.Serials.{IsNextOf};
ghost use Rattle.st_image.specs.Rack.{IsSerial, IsForeign};
ghost use Rattle.st_assemble.specs.Found.{IsFound};
ghost use Rattle.st_assemble.specs.inner.SoFar.{PoolsUpTo};
ghost use Rattle.st_assemble.specs.inner.Taken.{Takes};

use crate::fault::FoundFault;
use crate::taking::{Found, put_in};
use crate::told::told_of;
use st_judge::{FoundList, GoneList};
use st_limits::MAX_POOL_SERIAL;
use st_looks::{DevLook, look_at_all, next_serial, serial_above};
use st_rack::Rack;
use st_slots::SlotFault;
use st_units::PoolSerial;
use std::alloc::Global;

/// What the devices of the rack stand for, as reads give them. The rack is read and nothing else.
///
/// `Foreign` comes exactly where they stand for no state, with the least serial that breaks a rule.
pub fn found<R: Rack>(alloc: Global, rack: &mut R) -> Result<Found, FoundFault>
    ensures found { IfOk result (IsFound (R.devs rack.old) (held (R.state_at rack.old (R.moment rack.old)))) }
    ensures foreign { (n : ℕ) → result ≡ Err (FoundFault.Foreign n) → IsForeign (R.devs rack.old) (held (R.state_at rack.old (R.moment rack.old))) n }
    ensures cause { result ≡ Err FoundFault.Fault → Rose (R.faults rack.old) (R.faults rack.new) }
    ensures faults { R.faults rack.old ≤ R.faults rack.new }
    ensures devs { R.devs rack.new ≡ R.devs rack.old }
    ensures clock { R.moment rack.new ≡ R.moment rack.old }
    ensures states { R.state_at rack.new ≡ R.state_at rack.old }
    ensures spare { R.spare rack.new ≡ R.spare rack.old }
{
    paths_rise(rack);
    let looks = match look_at_all(alloc, rack) {
        Ok(looks) => looks,
        Err(SlotFault::Fault) => return Err(FoundFault::Fault),
        Err(SlotFault::OutOfMemory) => return Err(FoundFault::OutOfMemory),
    };
    let shown = looks.items();
    let mut found = Found {
        pools: FoundList::make(alloc),
        gone: GoneList::make(alloc),
        next: next_serial(shown),
    };
    let mut last = 0;
    for _ in 0..MAX_POOL_SERIAL + 1 {
        match serial_above(shown, last) {
            None => return Ok(found),
            Some(serial) => {
                let number = serial.number();
                match take_in(alloc, rack, shown, serial, &mut found) {
                    Err(fault) => return Err(fault),
                    Ok(()) => last = number,
                }
            }
        }
    }
    Ok(found)
}

/// Takes in what the devices, which show this, tell of the pool of the next serial.
fn take_in<R: Rack>(
    alloc: Global,
    rack: &mut R,
    looks: &[DevLook],
    serial: PoolSerial,
    found: &mut Found,
) -> Result<(), FoundFault>
    requires rises { Rises (R.devs rack.old) }
    requires looks { looks.now ≡ map (looked (held (R.state_at rack.old (R.moment rack.old)))) (R.devs rack.old) }
    ensures taken { OnOk result (Takes (R.devs rack.old) (held (R.state_at rack.old (R.moment rack.old))) looks.now serial found.old found.new) }
    ensures foreign { (n : ℕ) → result ≡ Err (FoundFault.Foreign n) → (last : ℕ) → IsSerial serial → IsNextOf last looks.now (Some serial) → PoolsUpTo (R.devs rack.old) (held (R.state_at rack.old (R.moment rack.old))) last found.old.pools
        → IsForeign (R.devs rack.old) (held (R.state_at rack.old (R.moment rack.old))) n }
    ensures next { found.new.next ≡ found.old.next }
    ensures cause { result ≡ Err FoundFault.Fault → Rose (R.faults rack.old) (R.faults rack.new) }
    ensures faults { R.faults rack.old ≤ R.faults rack.new }
    ensures devs { R.devs rack.new ≡ R.devs rack.old }
    ensures clock { R.moment rack.new ≡ R.moment rack.old }
    ensures states { R.state_at rack.new ≡ R.state_at rack.old }
    ensures spare { R.spare rack.new ≡ R.spare rack.old }
{
    match told_of(alloc, rack, looks, serial) {
        Err(fault) => Err(fault),
        Ok(told) => put_in(found, told),
    }
}

/// The paths of a rack rise, which its number of devices tells.
fn paths_rise<R: Rack>(rack: &R)
    ensures { Rises (R.devs rack.now) }
{
    let _ = rack.devices();
}
