ghost use Rattle.std.specs.Prelude.{◌≡◌, ◌≤◌, map, IfOk};
ghost use Rattle.st_units.specs.Causes.{Rose};
ghost use Rattle.st_rack.specs.Device.{held};
ghost use Rattle.st_looks.specs.Looked.{looked};

use crate::device::look_at;
use crate::look::Looks;
use st_rack::Rack;
use st_slots::SlotFault;
use st_units::NoMemory;
use std::alloc::Global;

/// What each device of the rack shows, in order of the devices. Each header and each slot is read once.
pub fn look_at_all<R: Rack>(alloc: Global, rack: &mut R) -> Result<Looks, SlotFault>
    ensures found { IfOk result (λ looks. looks ≡ map (looked (held (R.state_at rack.old (R.moment rack.old)))) (R.devs rack.old)) }
    ensures cause { result ≡ Err SlotFault.Fault → Rose (R.faults rack.old) (R.faults rack.new) }
    ensures faults { R.faults rack.old ≤ R.faults rack.new }
    ensures devs { R.devs rack.new ≡ R.devs rack.old }
    ensures clock { R.moment rack.new ≡ R.moment rack.old }
    ensures states { R.state_at rack.new ≡ R.state_at rack.old }
    ensures spare { R.spare rack.new ≡ R.spare rack.old }
{
    let mut looks = Looks::make(alloc);
    for i in 0..rack.devices() {
        let dev = rack.path_of(i).copy()?;
        let sectors = rack.sectors(&dev).unwrap_or(0);
        let look = look_at(alloc, rack, &dev, sectors)?;
        match looks.push(look) {
            Ok(()) => {}
            Err((_, NoMemory)) => return Err(SlotFault::OutOfMemory),
        }
    }
    Ok(looks)
}
