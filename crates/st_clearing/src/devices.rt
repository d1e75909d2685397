ghost use Rattle.std.specs.Prelude.{◌≡◌, ◌≤◌, ◌<◌, ◌*◌, ℕ, [], ◌∷◌, replicate, OnOk};
ghost use Rattle.st_units.specs.Causes.{HasCause};
ghost use Rattle.st_rack.specs.Device.{Path};
ghost use Rattle.st_rack.specs.Calls.{Has};
ghost use Rattle.st_rack.specs.Moments.{Goes, OnDevice};
ghost use Rattle.st_commit.specs.Ready.{AreDistinct, IsOf};
ghost use Rattle.st_clearing.specs.Clearing.{Clearing, Cleared, AllClearing, AllCleared, places, zeros};

use st_rack::{DevFault, Rack};
use st_slots::write_synced;
use st_units::{DevList, DevPath};

/// Writes zeros over one sector and then over another, each with a sync.
fn clear_two<R: Rack>(
    rack: &mut R,
    dev: &DevPath,
    first: u64,
    second: u64,
    sector: &[u8; 512],
) -> Result<(), DevFault>
    requires large { (n : ℕ) × Has (R.devs rack.old) dev.now n × (8192 ≤ n) }
    requires first { first < 8192 }
    requires second { second < 8192 }
    requires zeros { sector.now ≡ zeros }
    ensures devs { R.devs rack.new ≡ R.devs rack.old }
    ensures reads { R.reads rack.new ≡ R.reads rack.old }
    ensures spare { R.spare rack.new ≡ R.spare rack.old }
    ensures cause { HasCause (R.faults rack.old) (R.faults rack.new) result }
    ensures time { Goes R.moment R.state_at (OnDevice dev.now (Clearing (512 * first ∷ 512 * second ∷ []))) rack.old rack.new }
    ensures done { OnOk result (OnDevice dev.now (Cleared (512 * first ∷ 512 * second ∷ [])) (R.state_at rack.old (R.moment rack.old)) (R.state_at rack.new (R.moment rack.new))) }
{
    write_synced(rack, dev, first, sector)?;
    write_synced(rack, dev, second, sector)
}

/// Clears a device: the copies of its header, the second one first, so that a torn copy never lets an older one count, and then its slots.
fn clear_device<R: Rack>(rack: &mut R, dev: &DevPath, sector: &[u8; 512]) -> Result<(), DevFault>
    requires large { (n : ℕ) × Has (R.devs rack.old) dev.now n × (8192 ≤ n) }
    requires zeros { sector.now ≡ zeros }
    ensures devs { R.devs rack.new ≡ R.devs rack.old }
    ensures reads { R.reads rack.new ≡ R.reads rack.old }
    ensures spare { R.spare rack.new ≡ R.spare rack.old }
    ensures cause { HasCause (R.faults rack.old) (R.faults rack.new) result }
    ensures time { Goes R.moment R.state_at (OnDevice dev.now (Clearing places)) rack.old rack.new }
    ensures done { OnOk result (OnDevice dev.now (Cleared places) (R.state_at rack.old (R.moment rack.old)) (R.state_at rack.new (R.moment rack.new))) }
{
    clear_two(rack, dev, 9, 1, sector)?;
    clear_two(rack, dev, 16, 80, sector)
}

/// Clears these devices, one after the other.
pub fn clear<R: Rack>(rack: &mut R, devs: &DevList) -> Result<(), DevFault>
    requires distinct { AreDistinct devs.now }
    requires large { (d : Path) → IsOf devs.now d → (n : ℕ) × Has (R.devs rack.old) d n × (8192 ≤ n) }
    ensures devs { R.devs rack.new ≡ R.devs rack.old }
    ensures reads { R.reads rack.new ≡ R.reads rack.old }
    ensures spare { R.spare rack.new ≡ R.spare rack.old }
    ensures cause { HasCause (R.faults rack.old) (R.faults rack.new) result }

    // At each moment each of the devices is on its way, and no other device was touched.
    ensures time { Goes R.moment R.state_at (AllClearing devs.now) rack.old rack.new }

    // After an `Ok` each of them is cleared.
    ensures done { OnOk result (AllCleared devs.now (R.state_at rack.old (R.moment rack.old)) (R.state_at rack.new (R.moment rack.new))) }
{
    let sector = [0; 512];
    for i in 0..devs.len() {
        clear_device(rack, devs.at(i), &sector)?;
    }
    Ok(())
}
