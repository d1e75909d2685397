ghost use Rattle.std.specs.Prelude.{◌≡◌, ◌+◌, ◌*◌, ◌<◌, ◌≤◌, ◌^◌, ℕ, List, length, OnOk, Option, Some, slice_get};
ghost use Rattle.st_rack.specs.Device.{Path};
ghost use Rattle.st_units.specs.Causes.{HasCause};
ghost use Rattle.st_rack.specs.Moments.{Keeps, Goes};
ghost use Rattle.st_fields.specs.Slot.{padded, slot_bytes};
ghost use Rattle.st_slots.specs.Places.{Lies};
ghost use Rattle.st_deltalog.specs.declared.area.FlexArea.{FlexArea};
ghost use Rattle.st_deltalog.specs.Log.{Log};
ghost use Rattle.st_deltalog.specs.Bearing.{IsSettled};
ghost use Rattle.st_commit.specs.Standing.{OneOf, standing_of};
ghost use Rattle.st_commit.specs.Ready.{IsOf, Ready, BearsRecord, IsSound, AreApart, AreDistinct, next, Before, NoOther, Spares};
ghost use Rattle.st_commit.specs.inner.Spreading.{SettledDone, Spread, SpreadDone, SpreadKnown};

use st_rack::{DevFault, Rack};
use st_slots::{Area, write_next, write_synced};
use st_units::DevList;

/// Writes the pool record of a generation to each device, the first one first. The log of that generation stands already on the first
/// device.
pub fn commit<R: Rack>(
    rack: &mut R,
    devs: &DevList,
    pool: &Area,
    generation: u64,
    rec: &[u8],
    work: &mut [u8],
) -> Result<(), DevFault>
    requires some { 0 < length devs.now }
    requires distinct { AreDistinct devs.now }
    requires lie { (d : Path) → IsOf devs.now d → Lies (R.devs rack.old) d pool.now }
    requires from { 1 ≤ generation }
    requires until { generation ≤ 2 ^ 48 }
    requires fits { 64 + length rec.now ≤ 512 * pool.now.slot }
    requires room { length work.old ≡ padded (64 + length rec.now) }

    ensures devs { R.devs rack.new ≡ R.devs rack.old }
    ensures reads { R.reads rack.new ≡ R.reads rack.old }
    ensures spare { R.spare rack.new ≡ R.spare rack.old }
    ensures cause { HasCause (R.faults rack.old) (R.faults rack.new) result }

    // Bytes outside the slots of this generation stay what they were, other devices are untouched, and stories only grow.
    ensures spares { Goes R.moment R.state_at (Spares pool.now generation devs.now) rack.old rack.new }

    // No other record appears: whatever a slot reads as, it is this record, or it was meant for that slot or stood there before.
    ensures others { Keeps R.moment R.state_at (NoOther pool.now devs.now generation rec.now (R.state_at rack.old (R.moment rack.old))) rack.old rack.new }

    // A crash at any moment of the call leaves slots of one history, and the old generation or the new one, each with its log; the old
    // one may be none.
    ensures during { (flex : FlexArea) (p up g : ℕ) (h : ℕ → List ℕ) (first : Path) (old : Option Log) (log : Log) → IsSound flex → AreApart pool.now flex.area
        → Before pool.now flex p up h devs.now first g old generation rec.now log (R.state_at rack.old (R.moment rack.old))
        → Keeps R.moment R.state_at (OneOf pool.now flex p devs.now first (standing_of g (h g) old) (standing_of generation rec.now (Some log))) rack.old rack.new }

    // After an `Ok` it is the new one, with the record whole on each device.
    ensures done { OnOk result ((flex : FlexArea) (p up g : ℕ) (h : ℕ → List ℕ) (first : Path) (old : Option Log) (log : Log) → IsSound flex → AreApart pool.now flex.area
        → Before pool.now flex p up h devs.now first g old generation rec.now log (R.state_at rack.old (R.moment rack.old))
        → Ready pool.now flex p up (next generation rec.now h) devs.now first generation (Some log) (R.state_at rack.new (R.moment rack.new))
        × ((d : Path) → IsOf devs.now d → BearsRecord pool.now generation rec.now (R.state_at rack.new (R.moment rack.new) d))) }

    // Then nothing is pending on any of them.
    ensures settled { OnOk result ((d : Path) → IsOf devs.now d → IsSettled (R.state_at rack.new (R.moment rack.new) d)) }
{
    write_next(rack, devs.at(0), pool, generation, rec, work)?;
    spread(rack, devs, pool, generation, rec, work)
}

/// Writes the record to each device but the first, which bears it. `text` is its sealed text, filled up to whole sectors.
fn spread<R: Rack>(
    rack: &mut R,
    devs: &DevList,
    pool: &Area,
    generation: u64,
    rec: &[u8],
    text: &[u8],
) -> Result<(), DevFault>
    requires distinct { AreDistinct devs.now }
    requires lie { (d : Path) → IsOf devs.now d → Lies (R.devs rack.old) d pool.now }
    requires from { 1 ≤ generation }
    requires until { generation ≤ 2 ^ 48 }
    requires fits { 64 + length rec.now ≤ 512 * pool.now.slot }
    requires small { pool.now.at + 2 * pool.now.slot ≤ 2 ^ 32 }
    requires eight { length pool.now.magic ≡ 8 }
    requires text { text.now ≡ slot_bytes pool.now.magic generation rec.now }
    ensures devs { R.devs rack.new ≡ R.devs rack.old }
    ensures reads { R.reads rack.new ≡ R.reads rack.old }
    ensures spare { R.spare rack.new ≡ R.spare rack.old }
    ensures cause { HasCause (R.faults rack.old) (R.faults rack.new) result }
    ensures spares { Goes R.moment R.state_at (Spares pool.now generation devs.now) rack.old rack.new }
    ensures others { SpreadKnown R.moment R.state_at pool.now devs.now generation rec.now rack.old rack.new }
    ensures during { Spread R.moment R.state_at pool.now devs.now generation rec.now rack.old rack.new }
    ensures done { OnOk result (SpreadDone R.moment R.state_at pool.now devs.now generation rec.now (length devs.now) rack.old rack.new) }
    ensures settled { OnOk result (SettledDone R.moment R.state_at devs.now (length devs.now) rack.old rack.new) }
{
    let _ = rec;
    let sector = pool.at + generation % 2 * pool.slot;
    for i in 1..devs.len() {
        write_synced(rack, devs.at(i), sector, text)?;
    }
    Ok(())
}
