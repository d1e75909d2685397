ghost use Rattle.std.specs.Prelude.{◌≡◌, ◌∷◌, [], map};
ghost use Rattle.st_table.specs.inner.Sound.{marked, path_in};
ghost use Rattle.st_order.specs.Sorted.{IsRising};

use st_order::{Keyed, search};
use st_units::{DevPath, DevRow};

/// A device of the rack, marked with the pool that uses it.
#[derive(Drop)]
pub(crate) struct Device {
    pub row: DevRow,
    /// The serial of that pool.
    pub user: Option<u64>,
}

impl Keyed for Device {
    ghost text = { λ device. device.row.path };

    fn key(&self) -> &[u8] {
        self.row.path.bytes()
    }
}

/// Marks the device of this path, where the rack has it.
fn mark_one(devices: &mut [Device], path: &DevPath, user: Option<u64>)
    requires { IsRising (map path_in devices.old) }
    ensures { devices.new ≡ map (marked (path.now ∷ []) user) devices.old }
{
    if let Ok(i) = search(devices, path.bytes()) {
        devices[i].user = user;
    }
}

/// Marks the devices of these paths.
pub(crate) fn mark(devices: &mut [Device], paths: &[DevPath], user: Option<u64>)
    requires { IsRising (map path_in devices.old) }
    ensures { devices.new ≡ map (marked paths.now user) devices.old }
{
    for path in paths {
        mark_one(devices, path, user);
    }
}
