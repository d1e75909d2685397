ghost use Rattle.std.specs.Prelude.{◌≡◌, ◌+◌, ◌*◌, ◌/◌, ◌^◌, ◌<◌, ◌≤◌, ℕ, length, Some, OnOk, IfOk, OnErr};
ghost use Rattle.st_fields.specs.Slot.{slot_bytes, padded};
ghost use Rattle.st_units.specs.Causes.{HasCause};
ghost use Rattle.st_rack.specs.Story.{Content};
ghost use Rattle.st_rack.specs.Device.{Leaves, State};
ghost use Rattle.st_rack.specs.Moments.{Goes, Keeps, LeftSince, OnDevice};
ghost use Rattle.st_rack.specs.Steps.{Rewriting, Rewritten, LeavesOutside};
ghost use Rattle.st_slots.specs.Places.{place_at, Lies};
ghost use Rattle.st_slots.specs.Writing.{LeavesFor};
ghost use Rattle.st_deltalog.specs.Log.{Log, serial_in, sectors_of, checkpoint_in, sector_at, begun, grown, log_at};
ghost use Rattle.st_deltalog.specs.Bearing.{Bears, IsTail, Loses, Rests, other};

use crate::area::{FlexArea, Tail};
use st_rack::{DevFault, Rack};
use st_slots::{write_at, write_sealed};
use st_units::DevPath;

/// Writes a checkpoint of a generation into a slot, and syncs the device.
pub fn checkpoint<R: Rack>(
    rack: &mut R,
    dev: &DevPath,
    flex: &FlexArea,
    slot: usize,
    generation: u64,
    body: &[u8],
    work: &mut [u8],
) -> Result<Tail, DevFault>
    requires lies { Lies (R.devs rack.old) dev.now flex.now.area }
    requires place { slot < 2 }
    requires first { 1 ≤ generation }
    requires last { generation ≤ 2 ^ 48 }
    requires fits { 64 + length body.now ≤ 512 * flex.now.area.slot }
    requires room { length work.old ≡ padded (64 + length body.now) }

    ensures devs { R.devs rack.new ≡ R.devs rack.old }
    ensures reads { R.reads rack.new ≡ R.reads rack.old }
    ensures spare { R.spare rack.new ≡ R.spare rack.old }
    ensures cause { HasCause (R.faults rack.old) (R.faults rack.new) result }
    ensures eight { length flex.now.area.magic ≡ 8 }

    // At each moment of the call the slot's bytes were written and then synced, or some of that, and nothing else was done.
    ensures time { Goes R.moment R.state_at (OnDevice dev.now (Rewriting (place_at flex.now.area slot) (slot_bytes flex.now.area.magic generation body.now))) rack.old rack.new }
    ensures done { OnOk result (OnDevice dev.now (Rewritten (place_at flex.now.area slot) (slot_bytes flex.now.area.magic generation body.now)) (R.state_at rack.old (R.moment rack.old)) (R.state_at rack.new (R.moment rack.new))) }

    // Outside the slot a crash leaves what a crash at the start could leave.
    ensures outside { LeavesOutside dev.now (place_at flex.now.area slot) (padded (64 + length body.now)) (R.state_at rack.old (R.moment rack.old)) (LeftSince R.moment R.state_at rack.new (R.moment rack.old)) }

    // At each moment of the call the log of an earlier generation in the other slot is there, and whatever is fairly left reads as it.
    ensures stays { (p up g : ℕ) (log : Log) → Rests flex.now p up g log (R.state_at rack.old (R.moment rack.old) dev.now) → slot ≡ other log.slot → g < generation
        → Keeps R.moment R.state_at (λ s. Bears flex.now p g g log (s dev.now)) rack.old rack.new }
    ensures old_read { (p up g : ℕ) (log : Log) → Rests flex.now p up g log (R.state_at rack.old (R.moment rack.old) dev.now) → slot ≡ other log.slot → g < generation
        → Keeps R.moment R.state_at (λ s. (f : Content) → LeavesFor (checkpoint_in flex.now (other log.slot)) (s dev.now) f → log_at flex.now p g f ≡ Some log) rack.old rack.new }

    // After an `Ok` the log of this generation is the checkpoint, over a log of an earlier generation in the other slot for every
    // generation, and else as long as what the other slot held loses.
    ensures over { OnOk result ((p up g : ℕ) (log : Log) → Rests flex.now p up g log (R.state_at rack.old (R.moment rack.old) dev.now) → slot ≡ other log.slot → g < generation → serial_in body.now ≡ p
        → Rests flex.now p (2 ^ 48) generation (begun slot (generation, body.now)) (R.state_at rack.new (R.moment rack.new) dev.now)) }
    ensures new { OnOk result ((p up : ℕ) → serial_in body.now ≡ p → generation ≤ up → Loses p up slot generation (checkpoint_in flex.now (other slot) (R.state_at rack.old (R.moment rack.old) dev.now).holds)
        → Rests flex.now p up generation (begun slot (generation, body.now)) (R.state_at rack.new (R.moment rack.new) dev.now)) }

    // Then whatever is left reads as the new log, with no premise on chance.
    ensures new_read { OnOk result ((p up : ℕ) → serial_in body.now ≡ p → generation ≤ up → Loses p up slot generation (checkpoint_in flex.now (other slot) (R.state_at rack.old (R.moment rack.old) dev.now).holds)
        → (f : Content) → Leaves (R.state_at rack.new (R.moment rack.new) dev.now) f → log_at flex.now p generation f ≡ Some (begun slot (generation, body.now))) }
    ensures tail { IfOk result (λ tail. IsTail tail.slot tail.next (begun slot (generation, body.now))) }
{
    write_at(rack, dev, &flex.area, slot, generation, body, work)?;
    Ok(Tail {
        slot,
        next: (work.len() / 512) as u64,
    })
}

/// Writes a delta of a generation behind a log, and syncs the device.
pub fn append<R: Rack>(
    rack: &mut R,
    dev: &DevPath,
    flex: &FlexArea,
    tail: &mut Tail,
    generation: u64,
    body: &[u8],
    work: &mut [u8],
) -> Result<(), DevFault>
    requires lies { Lies (R.devs rack.old) dev.now flex.now.area }
    requires place { tail.old.slot < 2 }
    requires left { tail.old.next < flex.now.area.slot }
    requires first { 1 ≤ generation }
    requires last { generation ≤ 2 ^ 48 }
    requires fits { 64 + length body.now ≤ 512 }
    requires room { length work.old ≡ 512 }

    ensures devs { R.devs rack.new ≡ R.devs rack.old }
    ensures reads { R.reads rack.new ≡ R.reads rack.old }
    ensures spare { R.spare rack.new ≡ R.spare rack.old }
    ensures cause { HasCause (R.faults rack.old) (R.faults rack.new) result }
    ensures eight { length flex.now.delta ≡ 8 }
    ensures eight_area { length flex.now.area.magic ≡ 8 }
    ensures raised { OnOk result (tail.new.next ≡ tail.old.next + 1) }
    ensures unraised { OnErr result (tail.new.next ≡ tail.old.next) }
    ensures slot { tail.new.slot ≡ tail.old.slot }

    // At each moment of the call the sector's bytes were written and then synced, or some of that, and nothing else was done.
    ensures time { Goes R.moment R.state_at (OnDevice dev.now (Rewriting (sector_at flex.now tail.old.slot tail.old.next) (slot_bytes flex.now.delta generation body.now))) rack.old rack.new }
    ensures done { OnOk result (OnDevice dev.now (Rewritten (sector_at flex.now tail.old.slot tail.old.next) (slot_bytes flex.now.delta generation body.now)) (R.state_at rack.old (R.moment rack.old)) (R.state_at rack.new (R.moment rack.new))) }

    // Outside the sector a crash leaves what a crash at the start could leave.
    ensures outside { LeavesOutside dev.now (sector_at flex.now tail.old.slot tail.old.next) 512 (R.state_at rack.old (R.moment rack.old)) (LeftSince R.moment R.state_at rack.new (R.moment rack.old)) }

    // At each moment of the call the log is there, and whatever is fairly left reads as it.
    ensures stays { (p up g : ℕ) (log : Log) → IsTail tail.old.slot tail.old.next log → Rests flex.now p up g log (R.state_at rack.old (R.moment rack.old) dev.now)
        → Keeps R.moment R.state_at (λ s. Rests flex.now p up g log (s dev.now)) rack.old rack.new }
    ensures old_read { (p up g : ℕ) (log : Log) → IsTail tail.old.slot tail.old.next log → Rests flex.now p up g log (R.state_at rack.old (R.moment rack.old) dev.now)
        → Keeps R.moment R.state_at (λ s. (f : Content) → LeavesFor (checkpoint_in flex.now (other log.slot)) (s dev.now) f → log_at flex.now p g f ≡ Some log) rack.old rack.new }

    // After an `Ok` the log of the next generation is the log with the delta.
    ensures new { OnOk result ((p up g : ℕ) (log : Log) → IsTail tail.old.slot tail.old.next log → Rests flex.now p up g log (R.state_at rack.old (R.moment rack.old) dev.now)
        → generation ≡ g + 1 → generation ≤ up → Rests flex.now p up generation (grown log body.now) (R.state_at rack.new (R.moment rack.new) dev.now)) }

    // Then whatever is left reads as it, with no premise on chance.
    ensures new_read { OnOk result ((p up g : ℕ) (log : Log) → IsTail tail.old.slot tail.old.next log → Rests flex.now p up g log (R.state_at rack.old (R.moment rack.old) dev.now)
        → generation ≡ g + 1 → generation ≤ up
        → (f : Content) → Leaves (R.state_at rack.new (R.moment rack.new) dev.now) f → log_at flex.now p generation f ≡ Some (grown log body.now)) }
{
    is_eight(&flex.area.magic);
    let sector = flex.area.at + tail.slot as u64 * flex.area.slot + tail.next;
    write_sealed(rack, dev, sector, &flex.delta, generation, body, work)?;
    tail.next += 1;
    Ok(())
}

/// What contracts know of a magic only where it was read.
fn is_eight(magic: &[u8; 8])
    ensures { length magic.now ≡ 8 }
{
    let bytes = *magic;
    let _ = bytes;
}
