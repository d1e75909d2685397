ghost use Rattle.std.specs.Prelude.{◌≡◌, ◌<◌, ◌≤◌, ◌^◌, length, None, IfOk};
ghost use Rattle.std.specs.List.{list_all};
ghost use Rattle.st_units.specs.Causes.{Rose};
ghost use Rattle.st_rack.specs.Device.{held};
ghost use Rattle.st_rack.specs.Calls.{Rises};
ghost use Rattle.st_seg.specs.Blocks.{blocks_of};
ghost use Rattle.st_judge.specs.Verdicts.{IsHere, row_of};
ghost use Rattle.st_assemble.specs.inner.Told.{IsWhole};
ghost use Rattle.st_assemble.specs.inner.Places.{have_places, is_same};

use st_flexat::flex_at;
use st_flexlog::Mapping;
use st_image::flex_area;
use st_judge::FoundRow;
use st_poolrec::PoolRec;
use st_rack::Rack;
use st_slots::SlotFault;
use st_units::{PoolSerial, SegList, Segment};
use std::alloc::Global;

/// The row of a known pool of which all devices are there, by its log on the first of them; `None` exactly where the log breaks a rule.
pub fn read_whole<R: Rack>(
    alloc: Global,
    rack: &mut R,
    serial: PoolSerial,
    generation: u64,
    rec: PoolRec,
) -> Result<Option<FoundRow>, SlotFault>
    requires rises { Rises (R.devs rack.old) }
    requires here { IsHere serial (R.devs rack.old) (held (R.state_at rack.old (R.moment rack.old))) generation rec }
    ensures whole { IfOk result (IsWhole serial (R.devs rack.old) (held (R.state_at rack.old (R.moment rack.old)))) }
    ensures cause { result ≡ Err SlotFault.Fault → Rose (R.faults rack.old) (R.faults rack.new) }
    ensures faults { R.faults rack.old ≤ R.faults rack.new }
    ensures devs { R.devs rack.new ≡ R.devs rack.old }
    ensures clock { R.moment rack.new ≡ R.moment rack.old }
    ensures states { R.state_at rack.new ≡ R.state_at rack.old }
    ensures spare { R.spare rack.new ≡ R.spare rack.old }
{
    let first = &rec.devs.at(0).path;
    let read = flex_at(
        alloc,
        rack,
        first,
        &flex_area(),
        serial.number(),
        generation,
    )?;
    match read {
        None => Ok(None),
        Some((state, _)) => {
            if !is_same(state.version2, rec.version2) {
                return Ok(None);
            }
            let mappings = state.mappings.items();
            if !have_places(mappings, &rec.segments) {
                return Ok(None);
            }
            Ok(Some(row_of(serial, rec)))
        }
    }
}

/// Whether two marks are the same.
fn is_same(first: bool, second: bool) -> bool
    ensures { result ≡ is_same first second }
{
    if first { second } else { !second }
}

/// The row of a pool that lacks no device.
fn row_of(serial: PoolSerial, rec: PoolRec) -> FoundRow
    requires { rec.serial ≡ serial }
    ensures { result ≡ row_of rec None }
{
    FoundRow {
        serial,
        name: rec.name,
        devs: rec.devs,
        missing: None,
    }
}

/// Whether the place of each mapping is allocated.
fn have_places(mappings: &[Mapping], segments: &SegList) -> bool
    ensures { result ≡ have_places (length (blocks_of segments.now)) mappings.now }
{
    let allocated = allocated_in(segments);
    mappings
        .iter()
        .all(|mapping| u128::from(mapping.place) < allocated)
}

/// The blocks of all segments.
fn allocated_in(segments: &SegList) -> u128
    ensures { result ≡ length (blocks_of segments.now) }
{
    let mut sum = 0;
    for i in 0..segments.len() {
        let blocks = count_blocks(segments.at(i));
        sum += blocks;
    }
    sum
}

/// The blocks of a segment.
fn count_blocks(segment: &Segment) -> u128
    ensures value { result ≡ segment.now.blocks }
    ensures small { result < 2 ^ 32 }
{
    u128::from(segment.blocks)
}
