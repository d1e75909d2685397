ghost use Rattle.std.specs.Prelude.{◌≡◌, ◌*◌, ◌<◌, ◌≤◌, ◌^◌, IfOk};
ghost use Rattle.st_units.specs.Causes.{Rose};
ghost use Rattle.st_rack.specs.Device.{cells};
ghost use Rattle.st_rack.specs.Calls.{IsWithin};
ghost use Rattle.st_slots.specs.Places.{Lies};
ghost use Rattle.st_slots.specs.Reading.{IsRead};
ghost use Rattle.st_deltalog.specs.Finding.{IsWithinSlot};
ghost use Rattle.st_flexat.specs.FlexAt.{IsFlexAt};
ghost use Rattle.st_flexat.specs.inner.Following.{IsFollowed, IsReadOn};

use crate::replay::{SECTOR, replay};
use st_deltalog::{Begun, FlexArea, Tail, begun_at, sectors_of};
use st_flexlog::FlexState;
use st_rack::Rack;
use st_slots::SlotFault;
use st_units::{Bytes, DevPath};
use std::alloc::Global;

/// What a pool's log on this device says at a generation, and the place behind the log.
///
/// `None` exactly where it says nothing: there is no log of the serial and the generation, or it isn't a flex record with deltas that
/// apply. The device is read and nothing else. Memory is taken for the checkpoints, the deltas and the state.
pub fn flex_at<R: Rack>(
    alloc: Global,
    rack: &mut R,
    dev: &DevPath,
    flex: &FlexArea,
    serial: u64,
    generation: u64,
) -> Result<Option<(FlexState, Tail)>, SlotFault>
    requires { Lies (R.devs rack.old) dev.now flex.now.area }
    ensures found { IfOk result (IsFlexAt flex.now serial generation (R.state_at rack.old (R.moment rack.old) dev.now).holds) }
    ensures cause { result ≡ Err SlotFault.Fault → Rose (R.faults rack.old) (R.faults rack.new) }
    ensures faults { R.faults rack.old ≤ R.faults rack.new }
    ensures same { IsRead R.devs R.moment R.state_at R.spare R.reads dev.now rack.old rack.new }
{
    match begun_at(alloc, rack, dev, flex, serial, generation)? {
        None => Ok(None),
        Some(begun) => follow_log(alloc, rack, dev, flex, &begun, generation),
    }
}

/// What the log that this checkpoint begins says at a generation, and the place behind it. `None` exactly where it says nothing.
fn follow_log<R: Rack>(
    alloc: Global,
    rack: &mut R,
    dev: &DevPath,
    flex: &FlexArea,
    begun: &Begun,
    generation: u64,
) -> Result<Option<(FlexState, Tail)>, SlotFault>
    requires lies { Lies (R.devs rack.old) dev.now flex.now.area }
    requires begins { IsWithinSlot flex.now generation begun.now }
    ensures found { IfOk result (IsFollowed flex.now begun.now generation (R.state_at rack.old (R.moment rack.old) dev.now).holds) }
    ensures cause { result ≡ Err SlotFault.Fault → Rose (R.faults rack.old) (R.faults rack.new) }
    ensures faults { R.faults rack.old ≤ R.faults rack.new }
    ensures same { IsReadOn R.devs R.moment R.state_at R.spare R.reads dev.now rack.old rack.new }
{
    let next = sectors_of(begun.body.items());
    let count = generation - begun.generation;
    if count > flex.area.slot - next {
        return Ok(None);
    }
    let sector = flex.area.at + begun.slot as u64 * flex.area.slot + next;
    let deltas = read_sectors(alloc, rack, dev, sector, count)?;
    match replay(alloc, begun, &flex.delta, deltas.items())? {
        None => Ok(None),
        Some(state) => Ok(Some((
            state,
            Tail {
                slot: begun.slot,
                next: next + count,
            },
        ))),
    }
}

/// The bytes of so many sectors, read by one call; none where there are none.
fn read_sectors<R: Rack>(
    alloc: Global,
    rack: &mut R,
    dev: &DevPath,
    sector: u64,
    count: u64,
) -> Result<Bytes, SlotFault>
    requires few { count ≤ 2 ^ 32 }
    requires there { 0 < count → IsWithin (R.devs rack.old) dev.now sector (512 * count) }
    ensures bytes { IfOk result (λ bytes. bytes ≡ cells (R.state_at rack.old (R.moment rack.old) dev.now).holds (512 * sector) (512 * count)) }
    ensures cause { result ≡ Err SlotFault.Fault → Rose (R.faults rack.old) (R.faults rack.new) }
    ensures faults { R.faults rack.old ≤ R.faults rack.new }
    ensures same { IsReadOn R.devs R.moment R.state_at R.spare R.reads dev.now rack.old rack.new }
{
    if count == 0 {
        return Ok(Bytes::make(alloc));
    }
    let mut bytes = vec![in alloc; 0u8; SECTOR * count as usize]?;
    rack.read(dev, sector, bytes.as_mut_slice())?;
    Ok(Bytes::of(bytes))
}
