ghost use Rattle.std.specs.Prelude.{◌≡◌, ◌+◌, ◌*◌, ◌%◌, ◌<◌, ◌≤◌, ◌^◌, ℕ, List, length, OnOk, Some, IsTrue, ◌↔◌};
ghost use Rattle.st_fields.specs.Slot.{slot_bytes, padded};
ghost use Rattle.st_units.specs.Causes.{Rose};
ghost use Rattle.st_rack.specs.Device.{Path};
ghost use Rattle.st_rack.specs.Moments.{Goes, Keeps, OnDevice};
ghost use Rattle.st_rack.specs.Steps.{Rewriting};
ghost use Rattle.st_slots.specs.Places.{Lies, slot_at};
ghost use Rattle.st_slots.specs.Reading.{read_any};
ghost use Rattle.st_deltalog.specs.declared.area.FlexArea.{FlexArea};
ghost use Rattle.st_deltalog.specs.Log.{Log};
ghost use Rattle.st_deltalog.specs.Bearing.{IsSettled, Rests};
ghost use Rattle.st_commit.specs.Ready.{IsOf, BearsRecord, IsSound, AreApart, Spares, AllSlots, Ranked};
ghost use Rattle.st_commit.specs.Repair.{Newest, NewestOnly, Mended, AllSure};

use st_rack::Rack;
use st_slots::{Area, SlotFault, read_at, write_next};
use st_units::{Bytes, DevList, DevPath};
use std::alloc::Global;

/// Writes the newest record of a pool to each of its devices that lacks it.
pub fn repair<R: Rack>(
    alloc: Global,
    rack: &mut R,
    devs: &DevList,
    pool: &Area,
    generation: u64,
    rec: &[u8],
    work: &mut [u8],
) -> Result<(), SlotFault>
    requires lie { (d : Path) → IsOf devs.now d → Lies (R.devs rack.old) d pool.now }
    requires from { 1 ≤ generation }
    requires until { generation ≤ 2 ^ 48 }
    requires fits { 64 + length rec.now ≤ 512 * pool.now.slot }
    requires room { length work.old ≡ padded (64 + length rec.now) }
    ensures devs { R.devs rack.new ≡ R.devs rack.old }
    ensures spare { R.spare rack.new ≡ R.spare rack.old }
    ensures cause { result ≡ Err SlotFault.Fault → Rose (R.faults rack.old) (R.faults rack.new) }
    ensures faults { R.faults rack.old ≤ R.faults rack.new }

    // Bytes outside the slots of this generation stay what they were, other devices are untouched, and stories only grow.
    ensures spares { Goes R.moment R.state_at (Spares pool.now generation devs.now) rack.old rack.new }

    // At each moment it is the newest record, whatever a crash leaves.
    ensures during { (p : ℕ) (h : ℕ → List ℕ) (bearer : Path) → Newest pool.now p h devs.now bearer generation rec.now (R.state_at rack.old (R.moment rack.old))
        → Keeps R.moment R.state_at (NewestOnly pool.now p devs.now generation rec.now) rack.old rack.new }

    // And all that was meant for the slots is of that history.
    ensures slots { (p : ℕ) (h : ℕ → List ℕ) (bearer : Path) → Newest pool.now p h devs.now bearer generation rec.now (R.state_at rack.old (R.moment rack.old))
        → Keeps R.moment R.state_at (AllSlots pool.now devs.now (Ranked p h generation)) rack.old rack.new }

    // A log on one of the devices stays.
    ensures logs { (flex : FlexArea) (p up g : ℕ) (log : Log) (first : Path) → IsSound flex → AreApart pool.now flex.area → Rests flex p up g log (R.state_at rack.old (R.moment rack.old) first)
        → Keeps R.moment R.state_at (λ s. Rests flex p up g log (s first)) rack.old rack.new }

    // After an `Ok` it is whole on each device, where each was sure of its slot.
    ensures done { OnOk result ((p : ℕ) (h : ℕ → List ℕ) (bearer : Path) → Newest pool.now p h devs.now bearer generation rec.now (R.state_at rack.old (R.moment rack.old)) → AllSure pool.now devs.now generation (R.state_at rack.old (R.moment rack.old))
        → Newest pool.now p h devs.now bearer generation rec.now (R.state_at rack.new (R.moment rack.new)) × ((d : Path) → IsOf devs.now d → BearsRecord pool.now generation rec.now (R.state_at rack.new (R.moment rack.new) d))) }

    // Then each device on which nothing was pending is so still.
    ensures settled { OnOk result ((d : Path) → IsSettled (R.state_at rack.old (R.moment rack.old) d) → IsSettled (R.state_at rack.new (R.moment rack.new) d)) }
{
    for i in 0..devs.len() {
        mend(alloc, rack, devs.at(i), pool, generation, rec, work)?;
    }
    Ok(())
}

/// Writes the record to a device, if it lacks it.
fn mend<R: Rack>(
    alloc: Global,
    rack: &mut R,
    dev: &DevPath,
    pool: &Area,
    generation: u64,
    rec: &[u8],
    work: &mut [u8],
) -> Result<(), SlotFault>
    requires lies { Lies (R.devs rack.old) dev.now pool.now }
    requires from { 1 ≤ generation }
    requires until { generation ≤ 2 ^ 48 }
    requires fits { 64 + length rec.now ≤ 512 * pool.now.slot }
    requires room { length work.old ≡ padded (64 + length rec.now) }
    ensures devs { R.devs rack.new ≡ R.devs rack.old }
    ensures spare { R.spare rack.new ≡ R.spare rack.old }
    ensures cause { result ≡ Err SlotFault.Fault → Rose (R.faults rack.old) (R.faults rack.new) }
    ensures faults { R.faults rack.old ≤ R.faults rack.new }
    ensures eight { length pool.now.magic ≡ 8 }
    ensures time { Goes R.moment R.state_at (OnDevice dev.now (Rewriting (slot_at pool.now generation) (slot_bytes pool.now.magic generation rec.now))) rack.old rack.new }
    ensures kept { read_any pool.now (generation % 2) (R.state_at rack.old (R.moment rack.old) dev.now).holds ≡ Some (generation, rec.now) → (R.moment rack.new ≡ R.moment rack.old) × (R.state_at rack.new ≡ R.state_at rack.old) }
    ensures done { OnOk result (Mended pool.now dev.now generation rec.now (R.state_at rack.old (R.moment rack.old)) (R.state_at rack.new (R.moment rack.new))) }
{
    let magic = pool.magic;
    let _ = magic;
    let found = read_at(alloc, rack, dev, pool, (generation % 2) as usize)?;
    if is_record(&found, generation, rec) {
        return Ok(());
    }
    write_next(rack, dev, pool, generation, rec, work)?;
    Ok(())
}

fn is_record(found: &Option<(u64, Bytes)>, generation: u64, rec: &[u8]) -> bool
    ensures { IsTrue result ↔ (found.now ≡ Some (generation, rec.now)) }
{
    match found {
        None => false,
        Some(found) => found.0 == generation && found.1.items() == rec,
    }
}
