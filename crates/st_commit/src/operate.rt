ghost use Rattle.std.specs.Prelude.{◌≡◌, ◌+◌, ◌*◌, ◌<◌, ◌≤◌, ◌^◌, ℕ, List, length, IfOk, OnOk, IsTrue, Some, None, slice_get};
ghost use Rattle.st_units.specs.Causes.{HasCause};
ghost use Rattle.st_rack.specs.Device.{Path};
ghost use Rattle.st_rack.specs.Moments.{Goes, Keeps};
ghost use Rattle.st_fields.specs.Slot.{padded};
ghost use Rattle.st_slots.specs.Places.{Lies};
ghost use Rattle.st_deltalog.specs.Log.{Log, serial_in, begun, grown, log_at};
ghost use Rattle.st_deltalog.specs.Choice.{GoesByRule, chosen, chosen_up};
ghost use Rattle.st_deltalog.specs.Bearing.{IsSettled, IsTail, other};
ghost use Rattle.st_commit.specs.Standing.{OneOf, standing_of};
ghost use Rattle.st_commit.specs.Ready.{IsOf, Ready, BearsRecord, AreApart, AreDistinct, Moves, NoOther, next};

use crate::write::commit;
use st_deltalog::{FlexArea, Tail, append, checkpoint, may_follow};
use st_rack::{DevFault, Rack};
use st_slots::Area;
use st_units::DevList;

/// A whole commit with a delta: the delta to the first device, and then the record to each.
pub fn commit_delta<R: Rack>(
    rack: &mut R,
    devs: &DevList,
    pool: &Area,
    flex: &FlexArea,
    tail: &mut Tail,
    generation: u64,
    delta: &[u8],
    rec: &[u8],
    flex_work: &mut [u8],
    work: &mut [u8],
) -> Result<(), DevFault>
    requires some { 0 < length devs.now }
    requires distinct { AreDistinct devs.now }
    requires lie { (d : Path) → IsOf devs.now d → Lies (R.devs rack.old) d pool.now }
    requires flex_lies { (d : Path) → slice_get devs.now 0 ≡ Some d → Lies (R.devs rack.old) d flex.now.area }
    requires apart { AreApart pool.now flex.now.area }
    requires place { tail.old.slot < 2 }
    requires left { tail.old.next < flex.now.area.slot }
    requires from { 1 ≤ generation }
    requires until { generation ≤ 2 ^ 48 }
    requires delta_fits { 64 + length delta.now ≤ 512 }
    requires flex_room { length flex_work.old ≡ 512 }
    requires fits { 64 + length rec.now ≤ 512 * pool.now.slot }
    requires room { length work.old ≡ padded (64 + length rec.now) }

    ensures devs { R.devs rack.new ≡ R.devs rack.old }
    ensures reads { R.reads rack.new ≡ R.reads rack.old }
    ensures spare { R.spare rack.new ≡ R.spare rack.old }
    ensures cause { HasCause (R.faults rack.old) (R.faults rack.new) result }

    // Nothing but the pool's slots is touched, and no other record appears in them.
    ensures moves { Goes R.moment R.state_at (Moves pool.now flex.now generation devs.now) rack.old rack.new }
    ensures others { Keeps R.moment R.state_at (NoOther pool.now devs.now generation rec.now (R.state_at rack.old (R.moment rack.old))) rack.old rack.new }

    // A crash at any moment of the call leaves the old generation or the new one, each with its log.
    ensures during { (p up g : ℕ) (h : ℕ → List ℕ) (first : Path) (log : Log) → slice_get devs.now 0 ≡ Some first → IsTail tail.old.slot tail.old.next log → generation ≡ g + 1 → generation ≤ up → serial_in rec.now ≡ p
        → Ready pool.now flex.now p up h devs.now first g (Some log) (R.state_at rack.old (R.moment rack.old))
        → Keeps R.moment R.state_at (OneOf pool.now flex.now p devs.now first (standing_of g (h g) (Some log)) (standing_of generation rec.now (Some (grown log delta.now)))) rack.old rack.new }

    // After an `Ok` it is the new one, on each device.
    ensures done { OnOk result ((p up g : ℕ) (h : ℕ → List ℕ) (first : Path) (log : Log) → slice_get devs.now 0 ≡ Some first → IsTail tail.old.slot tail.old.next log → generation ≡ g + 1 → generation ≤ up → serial_in rec.now ≡ p
        → Ready pool.now flex.now p up h devs.now first g (Some log) (R.state_at rack.old (R.moment rack.old))
        → Ready pool.now flex.now p up (next generation rec.now h) devs.now first generation (Some (grown log delta.now)) (R.state_at rack.new (R.moment rack.new))
        × ((d : Path) → IsOf devs.now d → BearsRecord pool.now generation rec.now (R.state_at rack.new (R.moment rack.new) d))) }
    ensures tail { OnOk result ((log : Log) → IsTail tail.old.slot tail.old.next log → IsTail tail.new.slot tail.new.next (grown log delta.now)) }
    ensures settled { OnOk result ((d : Path) → IsOf devs.now d → IsSettled (R.state_at rack.new (R.moment rack.new) d)) }
{
    append(rack, devs.at(0), flex, tail, generation, delta, flex_work)?;
    commit(rack, devs, pool, generation, rec, work)
}

/// A whole commit with a checkpoint: the checkpoint to the first device, in the slot that isn't in use, and then the record to each.
pub fn commit_checkpoint<R: Rack>(
    rack: &mut R,
    devs: &DevList,
    pool: &Area,
    flex: &FlexArea,
    slot: usize,
    generation: u64,
    body: &[u8],
    rec: &[u8],
    flex_work: &mut [u8],
    work: &mut [u8],
) -> Result<Tail, DevFault>
    requires some { 0 < length devs.now }
    requires distinct { AreDistinct devs.now }
    requires lie { (d : Path) → IsOf devs.now d → Lies (R.devs rack.old) d pool.now }
    requires flex_lies { (d : Path) → slice_get devs.now 0 ≡ Some d → Lies (R.devs rack.old) d flex.now.area }
    requires apart { AreApart pool.now flex.now.area }
    requires place { slot < 2 }
    requires from { 1 ≤ generation }
    requires until { generation ≤ 2 ^ 48 }
    requires flex_fits { 64 + length body.now ≤ 512 * flex.now.area.slot }
    requires flex_room { length flex_work.old ≡ padded (64 + length body.now) }
    requires fits { 64 + length rec.now ≤ 512 * pool.now.slot }
    requires room { length work.old ≡ padded (64 + length rec.now) }

    ensures devs { R.devs rack.new ≡ R.devs rack.old }
    ensures reads { R.reads rack.new ≡ R.reads rack.old }
    ensures spare { R.spare rack.new ≡ R.spare rack.old }
    ensures cause { HasCause (R.faults rack.old) (R.faults rack.new) result }

    // Nothing but the pool's slots is touched, and no other record appears in them.
    ensures moves { Goes R.moment R.state_at (Moves pool.now flex.now generation devs.now) rack.old rack.new }
    ensures others { Keeps R.moment R.state_at (NoOther pool.now devs.now generation rec.now (R.state_at rack.old (R.moment rack.old))) rack.old rack.new }

    // A crash at any moment of the call leaves the old generation or the new one, each with its log.
    ensures during { (p up g : ℕ) (h : ℕ → List ℕ) (first : Path) (log : Log) → slice_get devs.now 0 ≡ Some first → slot ≡ other log.slot → generation ≡ g + 1 → serial_in rec.now ≡ p → serial_in body.now ≡ p
        → Ready pool.now flex.now p up h devs.now first g (Some log) (R.state_at rack.old (R.moment rack.old))
        → Keeps R.moment R.state_at (OneOf pool.now flex.now p devs.now first (standing_of g (h g) (Some log)) (standing_of generation rec.now (Some (begun slot (generation, body.now))))) rack.old rack.new }

    // After an `Ok` it is the new one, on each device, and for every later generation a delta may follow.
    ensures done { OnOk result ((p up g : ℕ) (h : ℕ → List ℕ) (first : Path) (log : Log) → slice_get devs.now 0 ≡ Some first → slot ≡ other log.slot → generation ≡ g + 1 → serial_in rec.now ≡ p → serial_in body.now ≡ p
        → Ready pool.now flex.now p up h devs.now first g (Some log) (R.state_at rack.old (R.moment rack.old))
        → Ready pool.now flex.now p (2 ^ 48) (next generation rec.now h) devs.now first generation (Some (begun slot (generation, body.now))) (R.state_at rack.new (R.moment rack.new))
        × ((d : Path) → IsOf devs.now d → BearsRecord pool.now generation rec.now (R.state_at rack.new (R.moment rack.new) d))) }
    ensures tail { IfOk result (λ tail. IsTail tail.slot tail.next (begun slot (generation, body.now))) }
    ensures settled { OnOk result ((d : Path) → IsOf devs.now d → IsSettled (R.state_at rack.new (R.moment rack.new) d)) }
{
    let tail = checkpoint(rack, devs.at(0), flex, slot, generation, body, flex_work)?;
    commit(rack, devs, pool, generation, rec, work)?;
    Ok(tail)
}

/// The first commit of a pool, of generation 1: a checkpoint in slot 1 of the first device, and then the record to each. No slot of the
/// pool's serial stands on its devices; those of other pools may.
pub fn commit_first<R: Rack>(
    rack: &mut R,
    devs: &DevList,
    pool: &Area,
    flex: &FlexArea,
    body: &[u8],
    rec: &[u8],
    flex_work: &mut [u8],
    work: &mut [u8],
) -> Result<Tail, DevFault>
    requires some { 0 < length devs.now }
    requires distinct { AreDistinct devs.now }
    requires lie { (d : Path) → IsOf devs.now d → Lies (R.devs rack.old) d pool.now }
    requires flex_lies { (d : Path) → slice_get devs.now 0 ≡ Some d → Lies (R.devs rack.old) d flex.now.area }
    requires apart { AreApart pool.now flex.now.area }
    requires flex_fits { 64 + length body.now ≤ 512 * flex.now.area.slot }
    requires flex_room { length flex_work.old ≡ padded (64 + length body.now) }
    requires fits { 64 + length rec.now ≤ 512 * pool.now.slot }
    requires room { length work.old ≡ padded (64 + length rec.now) }

    ensures devs { R.devs rack.new ≡ R.devs rack.old }
    ensures reads { R.reads rack.new ≡ R.reads rack.old }
    ensures spare { R.spare rack.new ≡ R.spare rack.old }
    ensures cause { HasCause (R.faults rack.old) (R.faults rack.new) result }

    // Nothing but the pool's slots is touched, and no other record appears in them.
    ensures moves { Goes R.moment R.state_at (Moves pool.now flex.now 1 devs.now) rack.old rack.new }
    ensures others { Keeps R.moment R.state_at (NoOther pool.now devs.now 1 rec.now (R.state_at rack.old (R.moment rack.old))) rack.old rack.new }

    // A crash at any moment of the call leaves no generation or the first. Nothing is asked of the flex area.
    ensures during { (p up : ℕ) (h : ℕ → List ℕ) (first : Path) → slice_get devs.now 0 ≡ Some first → serial_in rec.now ≡ p → serial_in body.now ≡ p
        → Ready pool.now flex.now p up h devs.now first 0 None (R.state_at rack.old (R.moment rack.old))
        → Keeps R.moment R.state_at (OneOf pool.now flex.now p devs.now first None (standing_of 1 rec.now (Some (begun 1 (1, body.now))))) rack.old rack.new }

    // After an `Ok` it is the first, on each device. What slot 0 holds may be of a later generation, so a delta may not follow.
    ensures done { OnOk result ((p up : ℕ) (h : ℕ → List ℕ) (first : Path) → slice_get devs.now 0 ≡ Some first → serial_in rec.now ≡ p → serial_in body.now ≡ p
        → Ready pool.now flex.now p up h devs.now first 0 None (R.state_at rack.old (R.moment rack.old))
        → Ready pool.now flex.now p 1 (next 1 rec.now h) devs.now first 1 (Some (begun 1 (1, body.now))) (R.state_at rack.new (R.moment rack.new))
        × ((d : Path) → IsOf devs.now d → BearsRecord pool.now 1 rec.now (R.state_at rack.new (R.moment rack.new) d))) }
    ensures tail { IfOk result (λ tail. IsTail tail.slot tail.next (begun 1 (1, body.now))) }
    ensures settled { OnOk result ((d : Path) → IsOf devs.now d → IsSettled (R.state_at rack.new (R.moment rack.new) d)) }
{
    let tail = checkpoint(rack, devs.at(0), flex, 1, 1, body, flex_work)?;
    commit(rack, devs, pool, 1, rec, work)?;
    Ok(tail)
}

/// A whole commit by the rule: with a delta where one may follow, else with a checkpoint in the slot that isn't in use.
pub fn commit_by_rule<R: Rack>(
    rack: &mut R,
    devs: &DevList,
    pool: &Area,
    flex: &FlexArea,
    tail: &mut Tail,
    same_rows: bool,
    has_committed: bool,
    generation: u64,
    delta: &[u8],
    body: &[u8],
    rec: &[u8],
    delta_work: &mut [u8],
    body_work: &mut [u8],
    work: &mut [u8],
) -> Result<(), DevFault>
    requires some { 0 < length devs.now }
    requires distinct { AreDistinct devs.now }
    requires lie { (d : Path) → IsOf devs.now d → Lies (R.devs rack.old) d pool.now }
    requires flex_lies { (d : Path) → slice_get devs.now 0 ≡ Some d → Lies (R.devs rack.old) d flex.now.area }
    requires apart { AreApart pool.now flex.now.area }
    requires place { tail.old.slot < 2 }
    requires from { 1 ≤ generation }
    requires until { generation ≤ 2 ^ 48 }
    requires delta_fits { 64 + length delta.now ≤ 512 }
    requires delta_room { length delta_work.old ≡ 512 }
    requires body_fits { 64 + length body.now ≤ 512 * flex.now.area.slot }
    requires body_room { length body_work.old ≡ padded (64 + length body.now) }
    requires fits { 64 + length rec.now ≤ 512 * pool.now.slot }
    requires room { length work.old ≡ padded (64 + length rec.now) }

    ensures devs { R.devs rack.new ≡ R.devs rack.old }
    ensures reads { R.reads rack.new ≡ R.reads rack.old }
    ensures spare { R.spare rack.new ≡ R.spare rack.old }
    ensures cause { HasCause (R.faults rack.old) (R.faults rack.new) result }

    // Nothing but the pool's slots is touched, and no other record appears in them.
    ensures moves { Goes R.moment R.state_at (Moves pool.now flex.now generation devs.now) rack.old rack.new }
    ensures others { Keeps R.moment R.state_at (NoOther pool.now devs.now generation rec.now (R.state_at rack.old (R.moment rack.old))) rack.old rack.new }

    // A crash at any moment of the call leaves the old generation or the new one, each with its log.
    ensures during { (p up g : ℕ) (h : ℕ → List ℕ) (first : Path) (log : Log) → slice_get devs.now 0 ≡ Some first → IsTail tail.old.slot tail.old.next log → generation ≡ g + 1 → (IsTrue has_committed → generation ≤ up) → serial_in rec.now ≡ p → serial_in body.now ≡ p
        → Ready pool.now flex.now p up h devs.now first g (Some log) (R.state_at rack.old (R.moment rack.old))
        → Keeps R.moment R.state_at (OneOf pool.now flex.now p devs.now first (standing_of g (h g) (Some log)) (standing_of generation rec.now (Some (chosen flex.now same_rows has_committed log generation delta.now body.now)))) rack.old rack.new }

    // After an `Ok` it is the new one, on each device.
    ensures done { OnOk result ((p up g : ℕ) (h : ℕ → List ℕ) (first : Path) (log : Log) → slice_get devs.now 0 ≡ Some first → IsTail tail.old.slot tail.old.next log → generation ≡ g + 1 → (IsTrue has_committed → generation ≤ up) → serial_in rec.now ≡ p → serial_in body.now ≡ p
        → Ready pool.now flex.now p up h devs.now first g (Some log) (R.state_at rack.old (R.moment rack.old))
        → Ready pool.now flex.now p (chosen_up flex.now same_rows has_committed log up) (next generation rec.now h) devs.now first generation (Some (chosen flex.now same_rows has_committed log generation delta.now body.now)) (R.state_at rack.new (R.moment rack.new))
        × (((d : Path) → IsOf devs.now d → BearsRecord pool.now generation rec.now (R.state_at rack.new (R.moment rack.new) d))
        × GoesByRule flex.now same_rows has_committed log (log_at flex.now p generation (R.state_at rack.new (R.moment rack.new) first).holds))) }
    ensures tail { OnOk result ((log : Log) → IsTail tail.old.slot tail.old.next log → IsTail tail.new.slot tail.new.next (chosen flex.now same_rows has_committed log generation delta.now body.now)) }
    ensures settled { OnOk result ((d : Path) → IsOf devs.now d → IsSettled (R.state_at rack.new (R.moment rack.new) d)) }
{
    if may_follow(flex, tail, same_rows, has_committed) {
        return commit_delta(
            rack, devs, pool, flex, tail, generation, delta, rec, delta_work, work,
        );
    }
    let slot = 1 - tail.slot;
    *tail = commit_checkpoint(
        rack, devs, pool, flex, slot, generation, body, rec, body_work, work,
    )?;
    Ok(())
}
