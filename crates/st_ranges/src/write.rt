ghost use Rattle.std.specs.Prelude.{◌≡◌, ◌*◌, ◌∷◌, [], length, OnOk};
ghost use Rattle.st_units.specs.Causes.{HasCause};
ghost use Rattle.st_rack.specs.Calls.{IsWithin};
ghost use Rattle.st_rack.specs.Device.{IsSure, held};
ghost use Rattle.st_rack.specs.Moments.{Goes};
ghost use Rattle.st_rack.specs.Steps.{put_on};
ghost use Rattle.st_ranges.specs.Ranges.{Works};

use st_rack::{DevFault, Rack};
use st_units::DevPath;

/// Writes these bytes at a sector.
pub fn write_bytes<R: Rack>(
    rack: &mut R,
    dev: &DevPath,
    sector: u64,
    bytes: &[u8],
) -> Result<(), DevFault>
    requires { IsWithin (R.devs rack.old) dev.now sector (length bytes.now) }
    ensures devs { R.devs rack.new ≡ R.devs rack.old }
    ensures reads { R.reads rack.new ≡ R.reads rack.old }
    ensures spare { R.spare rack.new ≡ R.spare rack.old }
    ensures cause { HasCause (R.faults rack.old) (R.faults rack.new) result }

    // At each moment of the call nothing but their range was touched.
    ensures time { Goes R.moment R.state_at (Works ((dev.now, 512 * sector, length bytes.now) ∷ [])) rack.old rack.new }
    ensures held { OnOk result (held (R.state_at rack.new (R.moment rack.new)) ≡ put_on dev.now (512 * sector) bytes.now (held (R.state_at rack.old (R.moment rack.old)))) }
{
    rack.write(dev, sector, bytes)
}

/// Writes these bytes at a sector, and syncs the device.
pub fn write_synced<R: Rack>(
    rack: &mut R,
    dev: &DevPath,
    sector: u64,
    bytes: &[u8],
) -> Result<(), DevFault>
    requires { IsWithin (R.devs rack.old) dev.now sector (length bytes.now) }
    ensures devs { R.devs rack.new ≡ R.devs rack.old }
    ensures reads { R.reads rack.new ≡ R.reads rack.old }
    ensures spare { R.spare rack.new ≡ R.spare rack.old }
    ensures cause { HasCause (R.faults rack.old) (R.faults rack.new) result }

    // At each moment of the call nothing but their range was touched.
    ensures time { Goes R.moment R.state_at (Works ((dev.now, 512 * sector, length bytes.now) ∷ [])) rack.old rack.new }
    ensures held { OnOk result (held (R.state_at rack.new (R.moment rack.new)) ≡ put_on dev.now (512 * sector) bytes.now (held (R.state_at rack.old (R.moment rack.old)))) }
    ensures sure { OnOk result (IsSure (R.state_at rack.new (R.moment rack.new) dev.now)) }
{
    write_bytes(rack, dev, sector, bytes)?;
    rack.sync(dev)
}
