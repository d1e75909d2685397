ghost use Rattle.std.specs.Prelude.{◌≡◌, ◌+◌, ◌*◌, ◌<◌, ◌≤◌, ◌^◌, length, IfOk, OnOk};
ghost use Rattle.st_units.specs.Causes.{HasCause, Rose};
ghost use Rattle.st_fields.specs.Slot.{padded};
ghost use Rattle.st_model.specs.declared.state.EngineState.{EngineState};
ghost use Rattle.st_rack.specs.Device.{Path, held};
ghost use Rattle.st_rack.specs.Moments.{Keeps, OnDevice};
ghost use Rattle.st_slots.specs.Places.{Lies};
ghost use Rattle.st_commit.specs.Ready.{AreDistinct, IsOf};
ghost use Rattle.st_image.specs.Looks.{pool_area};
ghost use Rattle.st_parting.specs.Found.{IsFoundOn};
ghost use Rattle.st_assemble.specs.Found.{AreGone};
ghost use Rattle.st_finishing.specs.Finishing.{FoundStill, LeavesStill, StoriesGrow};
ghost use Rattle.st_finishing.specs.inner.Writing.{IsWritten, LeavesWrite, WritesOn};

use st_image::pool_area;
use st_judge::{GoneList, GoneRow};
use st_rack::{DevFault, Rack};
use st_slots::{SlotFault, write_next};
use st_units::{DevPath, NoMemory};
use std::alloc::Global;

/// Writes the newest record of each pool that is gone to each of its devices that lacks it, and syncs the device.
pub fn finish<R: Rack>(alloc: Global, rack: &mut R, gone: &GoneList) -> Result<(), SlotFault>
    requires { AreGone (R.devs rack.old) (held (R.state_at rack.old (R.moment rack.old))) gone.now }
    ensures devs { R.devs rack.new ≡ R.devs rack.old }
    ensures reads { R.reads rack.new ≡ R.reads rack.old }
    ensures spare { R.spare rack.new ≡ R.spare rack.old }
    ensures cause { result ≡ Err SlotFault.Fault → Rose (R.faults rack.old) (R.faults rack.new) }
    ensures faults { R.faults rack.old ≤ R.faults rack.new }

    // At each moment whatever a crash leaves stands for the state that the devices stood for, but for a next serial that may be lower.
    ensures during { (e : EngineState) → IsFoundOn (R.devs rack.old) (R.state_at rack.old (R.moment rack.old)) e → Keeps R.moment R.state_at (LeavesStill e (R.devs rack.old)) rack.old rack.new }
    ensures grows { Keeps R.moment R.state_at (StoriesGrow (R.state_at rack.old (R.moment rack.old))) rack.old rack.new }

    // After an `Ok` the devices stand for it as they read, nothing is pending, and each device bears the record that it lacked.
    ensures done { OnOk result ((e : EngineState) → IsFoundOn (R.devs rack.old) (R.state_at rack.old (R.moment rack.old)) e → FoundStill e (R.devs rack.old) (R.state_at rack.new (R.moment rack.new))) }
{
    let _ = rack.devices();
    for i in 0..gone.len() {
        finish_pool(alloc, rack, gone.at(i))?;
    }
    Ok(())
}

/// Writes the record to each device of the row.
fn finish_pool<R: Rack>(alloc: Global, rack: &mut R, row: &GoneRow) -> Result<(), SlotFault>
    requires distinct { AreDistinct row.now.devs }
    requires lie { (d : Path) → IsOf row.now.devs d → Lies (R.devs rack.old) d pool_area }
    requires first { 1 ≤ row.now.generation }
    requires last { row.now.generation ≤ 2 ^ 48 }
    requires fits { 64 + length row.now.rec ≤ 32768 }
    ensures devs { R.devs rack.new ≡ R.devs rack.old }
    ensures reads { R.reads rack.new ≡ R.reads rack.old }
    ensures spare { R.spare rack.new ≡ R.spare rack.old }
    ensures cause { result ≡ Err SlotFault.Fault → Rose (R.faults rack.old) (R.faults rack.new) }
    ensures faults { R.faults rack.old ≤ R.faults rack.new }
    ensures during { Keeps R.moment R.state_at (WritesOn row.now.generation row.now.rec row.now.devs (R.state_at rack.old (R.moment rack.old))) rack.old rack.new }
    ensures done { OnOk result ((d : Path) → IsOf row.now.devs d → IsWritten row.now.generation row.now.rec (R.state_at rack.old (R.moment rack.old) d) (R.state_at rack.new (R.moment rack.new) d)) }
{
    let mut work = work_for(alloc, row.rec.items())?;
    write_all(rack, row, work.as_mut_slice())?;
    Ok(())
}

/// Writes the record to each device of the row, with a buffer for its text.
fn write_all<R: Rack>(rack: &mut R, row: &GoneRow, work: &mut [u8]) -> Result<(), DevFault>
    requires distinct { AreDistinct row.now.devs }
    requires lie { (d : Path) → IsOf row.now.devs d → Lies (R.devs rack.old) d pool_area }
    requires first { 1 ≤ row.now.generation }
    requires last { row.now.generation ≤ 2 ^ 48 }
    requires fits { 64 + length row.now.rec ≤ 32768 }
    requires room { length work.old ≡ padded (64 + length row.now.rec) }
    ensures devs { R.devs rack.new ≡ R.devs rack.old }
    ensures reads { R.reads rack.new ≡ R.reads rack.old }
    ensures spare { R.spare rack.new ≡ R.spare rack.old }
    ensures cause { HasCause (R.faults rack.old) (R.faults rack.new) result }
    ensures during { Keeps R.moment R.state_at (WritesOn row.now.generation row.now.rec row.now.devs (R.state_at rack.old (R.moment rack.old))) rack.old rack.new }
    ensures done { OnOk result ((d : Path) → IsOf row.now.devs d → IsWritten row.now.generation row.now.rec (R.state_at rack.old (R.moment rack.old) d) (R.state_at rack.new (R.moment rack.new) d)) }
{
    let rec = row.rec.items();
    for i in 0..row.devs.len() {
        write_on(rack, row.devs.at(i), row.generation, rec, work)?;
    }
    Ok(())
}

/// Writes the record to a device.
fn write_on<R: Rack>(
    rack: &mut R,
    dev: &DevPath,
    generation: u64,
    rec: &[u8],
    work: &mut [u8],
) -> Result<(), DevFault>
    requires lies { Lies (R.devs rack.old) dev.now pool_area }
    requires first { 1 ≤ generation }
    requires last { generation ≤ 2 ^ 48 }
    requires fits { 64 + length rec.now ≤ 32768 }
    requires room { length work.old ≡ padded (64 + length rec.now) }
    ensures devs { R.devs rack.new ≡ R.devs rack.old }
    ensures reads { R.reads rack.new ≡ R.reads rack.old }
    ensures spare { R.spare rack.new ≡ R.spare rack.old }
    ensures cause { HasCause (R.faults rack.old) (R.faults rack.new) result }
    ensures work { length work.new ≡ length work.old }
    ensures during { Keeps R.moment R.state_at (OnDevice dev.now (LeavesWrite generation rec.now) (R.state_at rack.old (R.moment rack.old))) rack.old rack.new }
    ensures done { OnOk result (IsWritten generation rec.now (R.state_at rack.old (R.moment rack.old) dev.now) (R.state_at rack.new (R.moment rack.new) dev.now)) }
{
    write_next(rack, dev, &pool_area(), generation, rec, work)
}

/// A buffer for the text of a record of so many bytes.
fn work_for(alloc: Global, rec: &[u8]) -> Result<Vec<u8>, NoMemory>
    requires { length rec.now < 2 ^ 40 }
    ensures { IfOk result (λ work. length work.items ≡ padded (64 + length rec.now)) }
{
    let sectors = (64 + rec.len() + 511) / 512;
    Ok(vec![in alloc; 0u8; 512 * sectors]?)
}
