ghost use Rattle.std.specs.Prelude.{◌≡◌, ◌≤◌, ◌^◌, ℕ, OnOk, Some, slice_get};
ghost use Rattle.st_units.specs.Causes.{HasCause};
ghost use Rattle.st_rack.specs.Device.{Path};
ghost use Rattle.st_rack.specs.Calls.{Has};
ghost use Rattle.st_rack.specs.Moments.{Goes, OnDevice};
ghost use Rattle.st_commit.specs.Ready.{AreDistinct};
ghost use Rattle.st_image.specs.Bears.{paths};
ghost use Rattle.st_books.specs.Ready.{AreThere, rows_of};
ghost use Rattle.st_making.specs.inner.Heading.{Heading, Headed, AllHeading, AllHeaded};

use st_header::header_bytes;
use st_poolrec::PoolRec;
use st_rack::{DevFault, Rack};
use st_slots::write_synced;
use st_units::{DevPath, PoolSerial};

/// Writes the header of each device of a new pool.
pub fn write_headers<R: Rack>(rack: &mut R, rec: &PoolRec) -> Result<(), DevFault>
    requires from { 1 ≤ rec.now.serial }
    requires until { rec.now.serial ≤ 2 ^ 48 }
    requires distinct { AreDistinct (paths (rows_of rec.now)) }
    requires there { AreThere (R.devs rack.old) (rows_of rec.now) }
    requires large { (k : ℕ) (d : Path × ℕ) → slice_get (rows_of rec.now) k ≡ Some d → 8192 ≤ d.1 }
    ensures devs { R.devs rack.new ≡ R.devs rack.old }
    ensures reads { R.reads rack.new ≡ R.reads rack.old }
    ensures spare { R.spare rack.new ≡ R.spare rack.old }
    ensures cause { HasCause (R.faults rack.old) (R.faults rack.new) result }
    ensures time { Goes R.moment R.state_at (AllHeading rec.now.serial (rows_of rec.now)) rack.old rack.new }
    ensures done { OnOk result (AllHeaded rec.now.serial (rows_of rec.now) (R.state_at rack.old (R.moment rack.old)) (R.state_at rack.new (R.moment rack.new))) }
{
    let serial = PoolSerial::of(rec.serial);
    for i in 0..rec.devs.len() {
        let row = rec.devs.at(i);
        write_header(rack, &row.path, &header_bytes(serial, row.sectors))?;
    }
    Ok(())
}

/// Writes both copies of a header, the second one first, so that a torn copy never lets an older one count.
fn write_header<R: Rack>(rack: &mut R, dev: &DevPath, bytes: &[u8; 512]) -> Result<(), DevFault>
    requires large { (n : ℕ) × Has (R.devs rack.old) dev.now n × (8192 ≤ n) }
    ensures devs { R.devs rack.new ≡ R.devs rack.old }
    ensures reads { R.reads rack.new ≡ R.reads rack.old }
    ensures spare { R.spare rack.new ≡ R.spare rack.old }
    ensures cause { HasCause (R.faults rack.old) (R.faults rack.new) result }
    ensures time { Goes R.moment R.state_at (OnDevice dev.now (Heading bytes.now)) rack.old rack.new }
    ensures done { OnOk result (OnDevice dev.now (Headed bytes.now) (R.state_at rack.old (R.moment rack.old)) (R.state_at rack.new (R.moment rack.new))) }
{
    write_synced(rack, dev, 9, bytes)?;
    write_synced(rack, dev, 1, bytes)
}
