ghost use Rattle.std.specs.Prelude.{◌≡◌, ◌⊎◌, ◌+◌, ◌*◌, ◌%◌, ◌≤◌, ◌<◌, ◌^◌, ℕ, length, Some, OnOk};
ghost use Rattle.st_fields.specs.Slot.{slot_bytes, padded};
ghost use Rattle.st_units.specs.Causes.{HasCause};
ghost use Rattle.st_rack.specs.Calls.{IsWithin};
ghost use Rattle.st_rack.specs.Device.{Leaves};
ghost use Rattle.st_rack.specs.Story.{Content};
ghost use Rattle.st_rack.specs.Moments.{LeftSince, Goes, Keeps, OnDevice};
ghost use Rattle.st_rack.specs.Steps.{Rewriting, Rewritten, LeavesOutside};
ghost use Rattle.st_slots.specs.Places.{place_at, slot_at, Lies};
ghost use Rattle.st_slots.specs.Reading.{newest_in, read_any, read_slot};
ghost use Rattle.st_slots.specs.Writing.{LeavesFor, MeantAsHeld, Precedes, Steady, Torn};

use crate::head::fill;
use crate::spot::Area;
use st_rack::{DevFault, Rack};
use st_units::DevPath;

/// Writes these bytes at a sector, and syncs the device.
pub fn write_synced<R: Rack>(
    rack: &mut R,
    dev: &DevPath,
    sector: u64,
    bytes: &[u8],
) -> Result<(), DevFault>
    requires { IsWithin (R.devs rack.old) dev.now sector (length bytes.now) }

    ensures devs { R.devs rack.new ≡ R.devs rack.old }
    ensures reads { R.reads rack.new ≡ R.reads rack.old }
    ensures spare { R.spare rack.new ≡ R.spare rack.old }
    ensures cause { HasCause (R.faults rack.old) (R.faults rack.new) result }

    // At each moment of the call the bytes were written and then synced, or some of that, and nothing else was done.
    ensures time { Goes R.moment R.state_at (OnDevice dev.now (Rewriting (512 * sector) bytes.now)) rack.old rack.new }

    // After an `Ok` they were written and synced.
    ensures done { OnOk result (OnDevice dev.now (Rewritten (512 * sector) bytes.now) (R.state_at rack.old (R.moment rack.old)) (R.state_at rack.new (R.moment rack.new))) }
{
    rack.write(dev, sector, bytes)?;
    rack.sync(dev)
}

/// Writes the sealed text of a generation and a body at a sector, filled up to whole sectors, and syncs the device. `work` is a buffer
/// of so many bytes, and holds what was written afterwards.
pub fn write_sealed<R: Rack>(
    rack: &mut R,
    dev: &DevPath,
    sector: u64,
    magic: &[u8; 8],
    generation: u64,
    body: &[u8],
    work: &mut [u8],
) -> Result<(), DevFault>
    requires within { IsWithin (R.devs rack.old) dev.now sector (length work.old) }
    requires room { length work.old ≡ padded (64 + length body.now) }

    ensures devs { R.devs rack.new ≡ R.devs rack.old }
    ensures reads { R.reads rack.new ≡ R.reads rack.old }
    ensures spare { R.spare rack.new ≡ R.spare rack.old }
    ensures cause { HasCause (R.faults rack.old) (R.faults rack.new) result }
    ensures eight { length magic.now ≡ 8 }
    ensures text { work.new ≡ slot_bytes magic.now generation body.now }

    // At each moment of the call the bytes were written and then synced, or some of that, and nothing else was done.
    ensures time { Goes R.moment R.state_at (OnDevice dev.now (Rewriting (512 * sector) (slot_bytes magic.now generation body.now))) rack.old rack.new }

    // After an `Ok` they were written and synced.
    ensures done { OnOk result (OnDevice dev.now (Rewritten (512 * sector) (slot_bytes magic.now generation body.now)) (R.state_at rack.old (R.moment rack.old)) (R.state_at rack.new (R.moment rack.new))) }
{
    fill(work, magic, generation, body);
    write_synced(rack, dev, sector, work)
}

/// Writes a record of any generation into the slot in this place, 0 or 1, and syncs the device. `work` is a buffer of the slot's text,
/// filled up to whole sectors, and holds it afterwards.
pub fn write_at<R: Rack>(
    rack: &mut R,
    dev: &DevPath,
    area: &Area,
    slot: usize,
    generation: u64,
    body: &[u8],
    work: &mut [u8],
) -> Result<(), DevFault>
    requires lies { Lies (R.devs rack.old) dev.now area.now }
    requires place { slot < 2 }
    requires first { 1 ≤ generation }
    requires last { generation ≤ 2 ^ 48 }
    requires fits { 64 + length body.now ≤ 512 * area.now.slot }
    requires room { length work.old ≡ padded (64 + length body.now) }

    ensures devs { R.devs rack.new ≡ R.devs rack.old }
    ensures reads { R.reads rack.new ≡ R.reads rack.old }
    ensures spare { R.spare rack.new ≡ R.spare rack.old }
    ensures cause { HasCause (R.faults rack.old) (R.faults rack.new) result }
    ensures eight { length area.now.magic ≡ 8 }
    ensures text { work.new ≡ slot_bytes area.now.magic generation body.now }

    // At each moment of the call the slot's bytes were written and then synced, or some of that, and nothing else was done.
    ensures time { Goes R.moment R.state_at (OnDevice dev.now (Rewriting (place_at area.now slot) (slot_bytes area.now.magic generation body.now))) rack.old rack.new }

    // After an `Ok` they were written and synced.
    ensures done { OnOk result (OnDevice dev.now (Rewritten (place_at area.now slot) (slot_bytes area.now.magic generation body.now)) (R.state_at rack.old (R.moment rack.old)) (R.state_at rack.new (R.moment rack.new))) }

    // Outside the slot a crash leaves what a crash at the start could leave.
    ensures outside { LeavesOutside dev.now (place_at area.now slot) (padded (64 + length body.now)) (R.state_at rack.old (R.moment rack.old))
        (LeftSince R.moment R.state_at rack.new (R.moment rack.old)) }

    // Whenever the call is cut off, the slot reads as nothing, as before or as what is written, whatever the other slot holds.
    ensures torn { MeantAsHeld (read_any area.now slot) (R.state_at rack.old (R.moment rack.old) dev.now)
        → Keeps R.moment R.state_at (λ s. (f : Content) → LeavesFor (read_any area.now slot) (s dev.now) f
        → Torn (read_any area.now slot (R.state_at rack.old (R.moment rack.old) dev.now).holds) (Some (generation, body.now)) (read_any area.now slot f)) rack.old rack.new }

    // After an `Ok` it reads as what was written, whatever a crash leaves.
    ensures written { OnOk result ((f : Content) → Leaves (R.state_at rack.new (R.moment rack.new) dev.now) f → read_any area.now slot f ≡ Some (generation, body.now)) }
{
    let sector = area.at + slot as u64 * area.slot;
    write_sealed(rack, dev, sector, &area.magic, generation, body, work)
}

/// Writes a record into the slot of its generation, and syncs the device. `work` is a buffer of the slot's text, filled up to whole
/// sectors, and holds it afterwards.
pub fn write_next<R: Rack>(
    rack: &mut R,
    dev: &DevPath,
    area: &Area,
    generation: u64,
    body: &[u8],
    work: &mut [u8],
) -> Result<(), DevFault>
    requires lies { Lies (R.devs rack.old) dev.now area.now }
    requires first { 1 ≤ generation }
    requires last { generation ≤ 2 ^ 48 }
    requires fits { 64 + length body.now ≤ 512 * area.now.slot }
    requires room { length work.old ≡ padded (64 + length body.now) }

    ensures devs { R.devs rack.new ≡ R.devs rack.old }
    ensures reads { R.reads rack.new ≡ R.reads rack.old }
    ensures spare { R.spare rack.new ≡ R.spare rack.old }
    ensures cause { HasCause (R.faults rack.old) (R.faults rack.new) result }
    ensures eight { length area.now.magic ≡ 8 }
    ensures text { work.new ≡ slot_bytes area.now.magic generation body.now }

    // At each moment of the call the slot's bytes were written and then synced, or some of that, and nothing else was done.
    ensures time { Goes R.moment R.state_at (OnDevice dev.now (Rewriting (slot_at area.now generation) (slot_bytes area.now.magic generation body.now))) rack.old rack.new }

    // After an `Ok` they were written and synced.
    ensures done { OnOk result (OnDevice dev.now (Rewritten (slot_at area.now generation) (slot_bytes area.now.magic generation body.now)) (R.state_at rack.old (R.moment rack.old)) (R.state_at rack.new (R.moment rack.new))) }

    // Outside the slot a crash leaves what a crash at the start could leave.
    ensures outside { LeavesOutside dev.now (slot_at area.now generation) (padded (64 + length body.now)) (R.state_at rack.old (R.moment rack.old))
        (LeftSince R.moment R.state_at rack.new (R.moment rack.old)) }

    // Whenever the call is cut off, the slot reads as nothing, as before or as what is written, whatever the other slot holds.
    ensures torn { MeantAsHeld (read_slot area.now (generation % 2)) (R.state_at rack.old (R.moment rack.old) dev.now)
        → Keeps R.moment R.state_at (λ s. (f : Content) → LeavesFor (read_slot area.now (generation % 2)) (s dev.now) f
        → Torn (read_slot area.now (generation % 2) (R.state_at rack.old (R.moment rack.old) dev.now).holds) (Some (generation, body.now)) (read_slot area.now (generation % 2) f)) rack.old rack.new }

    // After an `Ok` it reads as what was written, whatever a crash leaves.
    ensures written { OnOk result ((f : Content) → Leaves (R.state_at rack.new (R.moment rack.new) dev.now) f → read_slot area.now (generation % 2) f ≡ Some (generation, body.now)) }

    // The newest record after a crash is the old one or the new one, where the two slots were steady before.
    ensures old_or_new { Steady area.now 0 (R.state_at rack.old (R.moment rack.old) dev.now) → Steady area.now 1 (R.state_at rack.old (R.moment rack.old) dev.now)
        → Precedes (newest_in area.now (R.state_at rack.old (R.moment rack.old) dev.now).holds) generation
        → Keeps R.moment R.state_at (λ s. (f : Content) → LeavesFor (read_slot area.now (generation % 2)) (s dev.now) f
        → (newest_in area.now f ≡ newest_in area.now (R.state_at rack.old (R.moment rack.old) dev.now).holds) ⊎ (newest_in area.now f ≡ Some (generation, body.now))) rack.old rack.new }

    // After an `Ok` it is the new one.
    ensures new { OnOk result (Steady area.now 0 (R.state_at rack.old (R.moment rack.old) dev.now) → Steady area.now 1 (R.state_at rack.old (R.moment rack.old) dev.now)
        → Precedes (newest_in area.now (R.state_at rack.old (R.moment rack.old) dev.now).holds) generation
        → (f : Content) → Leaves (R.state_at rack.new (R.moment rack.new) dev.now) f → newest_in area.now f ≡ Some (generation, body.now)) }
{
    let slot = (generation % 2) as usize;
    write_at(rack, dev, area, slot, generation, body, work)
}
