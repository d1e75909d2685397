ghost use Rattle.std.specs.Prelude.{◌≡◌, ◌<◌, ◌≤◌, ℕ, OnOk, length, Some, slice_get};
ghost use Rattle.st_units.specs.Causes.{HasCause};
ghost use Rattle.st_rack.specs.Device.{Path};
ghost use Rattle.st_rack.specs.Calls.{Has};
ghost use Rattle.st_rack.specs.Moments.{Goes};
ghost use Rattle.st_deltalog.specs.Bearing.{IsSettled};
ghost use Rattle.st_commit.specs.Ready.{AreDistinct, IsOf, Settles};

use st_rack::{DevFault, Rack};
use st_units::DevList;

/// Syncs each device.
pub fn sync_all<R: Rack>(rack: &mut R, devs: &DevList) -> Result<(), DevFault>
    requires distinct { AreDistinct devs.now }
    requires there { (d : Path) → IsOf devs.now d → (n : ℕ) × Has (R.devs rack.old) d n }
    ensures devs { R.devs rack.new ≡ R.devs rack.old }
    ensures reads { R.reads rack.new ≡ R.reads rack.old }
    ensures spare { R.spare rack.new ≡ R.spare rack.old }
    ensures cause { HasCause (R.faults rack.old) (R.faults rack.new) result }

    // At each moment of the call each device is what it was, or that and settled: nothing is left that could not be left before.
    ensures time { Goes R.moment R.state_at Settles rack.old rack.new }

    // After an `Ok` all of each device is settled, and holds what it held.
    ensures done { OnOk result ((d : Path) → IsOf devs.now d → IsSettled (R.state_at rack.new (R.moment rack.new) d)) }
    ensures holds { (d : Path) → (R.state_at rack.new (R.moment rack.new) d).holds ≡ (R.state_at rack.old (R.moment rack.old) d).holds }
{
    for i in 0..devs.len() {
        rack.sync(devs.at(i))?;
    }
    Ok(())
}
