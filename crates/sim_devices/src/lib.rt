//! The simulated devices that a program or a test runs on.
#![tactic(auto)]

ghost use Rattle.std.specs.Prelude.{◌≡◌, ◌<◌, ◌≤◌, [], ◌∷◌, ◌++◌, take, Some, IfOk, OnOk, slice_get};
ghost use Rattle.st_rack.specs.Calls.{IsFit};
ghost use Rattle.st_memrack.specs.Blank.{IsBlank};
ghost use Rattle.sim_devices.specs.Devices.{AreOurs, has_device, the_devices};

use st_memrack::NoFaultRack;
use st_rack::Rack;
use st_units::{DevPath, NoMemory};
use std::alloc::Global;

/// The sectors of each device.
const SECTORS: u64 = 65_536;

/// The paths of the devices, in byte order.
const PATHS: [&str; 12] = [
    "/dev/sim0",
    "/dev/sim1",
    "/dev/sim10",
    "/dev/sim11",
    "/dev/sim2",
    "/dev/sim3",
    "/dev/sim4",
    "/dev/sim5",
    "/dev/sim6",
    "/dev/sim7",
    "/dev/sim8",
    "/dev/sim9",
];

fn path_at(index: usize) -> &'static str
    requires { index < 12 }
    ensures { slice_get the_devices index ≡ Some (result.now, 65536) }
{
    PATHS[index]
}

fn has_device(devs: &[(DevPath, u64)], path: &DevPath) -> bool
    ensures { result ≡ has_device path.now devs.now }
{
    devs.iter().any(|dev| dev.0.bytes() == path.bytes())
}

/// Puts one more device into the list, which is refused where its path is there.
fn put_device(alloc: Global, devs: &mut Vec<(DevPath, u64)>, text: &str) -> Result<(), NoMemory>
    requires { AreOurs devs.old.items }
    ensures ours { AreOurs devs.new.items }
    ensures one { OnOk result (devs.new.items ≡ devs.old.items ++ (text.now, 65536) ∷ []) }
{
    let Ok(path) = DevPath::read(alloc, text.as_bytes()) else {
        return Err(NoMemory);
    };
    if has_device(devs.as_slice(), &path) {
        return Err(NoMemory);
    }
    devs.push((path, SECTORS))?;
    Ok(())
}

fn devices(alloc: Global, count: usize) -> Result<Vec<(DevPath, u64)>, NoMemory>
    requires { count ≤ 12 }
    ensures ours { IfOk result (λ devs. AreOurs devs.items) }
    ensures all { IfOk result (λ devs. devs.items ≡ take count the_devices) }
{
    let mut list = Vec::new(alloc);
    for i in 0..count {
        put_device(alloc, &mut list, path_at(i))?;
    }
    Ok(list)
}

/// A blank rack of the first `count` devices, as a run may be handed it.
pub fn rack(alloc: Global, count: usize) -> Result<NoFaultRack, NoMemory>
    requires { count ≤ 12 }
    ensures fit { IfOk result (λ rack. IsFit (⟦<NoFaultRack as Rack>⟧.devs rack)) }
    ensures devices { IfOk result (λ rack. ⟦<NoFaultRack as Rack>⟧.devs rack ≡ take count the_devices) }
    ensures blank { IfOk result (IsBlank ⟦<NoFaultRack as Rack>⟧.devs ⟦<NoFaultRack as Rack>⟧.moment ⟦<NoFaultRack as Rack>⟧.state_at ⟦<NoFaultRack as Rack>⟧.reads (take count the_devices)) }
{
    let devs = devices(alloc, count)?;
    NoFaultRack::blank(alloc, devs.as_slice())
}
