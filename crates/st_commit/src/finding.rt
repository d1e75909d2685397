ghost use Rattle.std.specs.Prelude.{◌≡◌, ◌<◌, ◌≤◌, ℕ, IfOk, length};
ghost use Rattle.st_rack.specs.Device.{Path, held};
ghost use Rattle.st_units.specs.Causes.{Rose};
ghost use Rattle.st_slots.specs.Places.{Lies};
ghost use Rattle.st_deltalog.specs.Log.{serial_in};
ghost use Rattle.st_commit.specs.Standing.{keep, candidate, newest_over};
ghost use Rattle.st_commit.specs.Ready.{IsOf};

use st_deltalog::serial_of;
use st_rack::Rack;
use st_slots::{Area, SlotFault, newer_of, read_place};
use st_units::{Bytes, DevList, DevPath};
use std::alloc::Global;

/// The newest record of a pool's serial on these devices, that of the first such device.
///
/// `None` exactly where no device has a record of the serial.
pub fn newest_of<R: Rack>(
    alloc: Global,
    rack: &mut R,
    devs: &DevList,
    pool: &Area,
    serial: u64,
) -> Result<Option<(u64, Bytes)>, SlotFault>
    requires { (d : Path) → IsOf devs.now d → Lies (R.devs rack.old) d pool.now }
    ensures found { IfOk result (λ found. found ≡ newest_over pool.now serial devs.now (held (R.state_at rack.old (R.moment rack.old)))) }
    ensures cause { result ≡ Err SlotFault.Fault → Rose (R.faults rack.old) (R.faults rack.new) }
    ensures faults { R.faults rack.old ≤ R.faults rack.new }
    ensures devs { R.devs rack.new ≡ R.devs rack.old }
    ensures clock { R.moment rack.new ≡ R.moment rack.old }
    ensures states { R.state_at rack.new ≡ R.state_at rack.old }
    ensures spare { R.spare rack.new ≡ R.spare rack.old }
{
    let mut newest = None;
    for i in 0..devs.len() {
        let here = candidate_of(alloc, rack, devs.at(i), pool, serial)?;
        newest = newer_of(newest, here);
    }
    Ok(newest)
}

/// The newest record of the serial on one device.
fn candidate_of<R: Rack>(
    alloc: Global,
    rack: &mut R,
    dev: &DevPath,
    pool: &Area,
    serial: u64,
) -> Result<Option<(u64, Bytes)>, SlotFault>
    requires { Lies (R.devs rack.old) dev.now pool.now }
    ensures found { IfOk result (λ found. found ≡ candidate pool.now serial (R.state_at rack.old (R.moment rack.old) dev.now).holds) }
    ensures cause { result ≡ Err SlotFault.Fault → Rose (R.faults rack.old) (R.faults rack.new) }
    ensures faults { R.faults rack.old ≤ R.faults rack.new }
    ensures devs { R.devs rack.new ≡ R.devs rack.old }
    ensures clock { R.moment rack.new ≡ R.moment rack.old }
    ensures states { R.state_at rack.new ≡ R.state_at rack.old }
    ensures spare { R.spare rack.new ≡ R.spare rack.old }
{
    let even = if_of(serial, read_place(alloc, rack, dev, pool, 0)?);
    let odd = if_of(serial, read_place(alloc, rack, dev, pool, 1)?);
    Ok(newer_of(even, odd))
}

/// What was found, if its body begins with the serial.
fn if_of(serial: u64, found: Option<(u64, Bytes)>) -> Option<(u64, Bytes)>
    ensures { result ≡ keep serial found }
{
    match found {
        None => None,
        Some(found) => {
            if serial_of(found.1.items()) == serial {
                Some(found)
            } else {
                None
            }
        }
    }
}
