ghost use Rattle.std.specs.Prelude.{◌≡◌, ◌+◌, ◌*◌, ◌<◌, ◌≤◌, ◌^◌, ℕ, IfOk, length, Option, Some, None};
ghost use Rattle.st_units.specs.Causes.{Rose};
ghost use Rattle.st_slots.specs.Places.{Lies};
ghost use Rattle.st_slots.specs.Reading.{IsRead};
ghost use Rattle.st_deltalog.specs.Log.{usable, later, serial_in, sectors_of, begun, begun_in};
ghost use Rattle.st_deltalog.specs.Finding.{Fits, begun_of, log_of};

use crate::area::FlexArea;
use st_fields::u64_at;
use st_rack::Rack;
use st_slots::{SlotFault, read_at};
use st_units::{Bytes, DevPath};
use std::alloc::Global;

/// A checkpoint that was read: the log that it begins has its deltas behind it.
#[derive(Drop)]
pub struct Begun {
    /// Its slot, 0 or 1.
    pub slot: usize,
    pub generation: u64,
    pub body: Bytes,
}

/// The sectors that a checkpoint with this body takes.
pub fn sectors_of(body: &[u8]) -> u64
    ensures { result ≡ sectors_of body.now }
{
    // The sum of the length and the head's 64 bytes may not fit a number.
    let count = body.len();
    (count / 512 + (count % 512 + 575) / 512) as u64
}

/// The serial with which a body begins.
pub fn serial_of(body: &[u8]) -> u64
    ensures { result ≡ serial_in body.now }
{
    if body.len() < 8 {
        return 0;
    }
    u64_at(body, 0)
}

/// The checkpoint that is taken for a pool's serial at this generation: of those that begin with the serial and are of this generation
/// at most, the one of greater generation, and that in slot 1 on a tie.
///
/// `None` exactly where there is no such checkpoint.
pub fn begun_at<R: Rack>(
    alloc: Global,
    rack: &mut R,
    dev: &DevPath,
    flex: &FlexArea,
    serial: u64,
    generation: u64,
) -> Result<Option<Begun>, SlotFault>
    requires { Lies (R.devs rack.old) dev.now flex.now.area }
    ensures found { IfOk result (λ found. begun_of found ≡ begun_in flex.now serial generation (R.state_at rack.old (R.moment rack.old) dev.now).holds) }
    ensures fits { IfOk result (Fits flex.now generation) }
    ensures cause { result ≡ Err SlotFault.Fault → Rose (R.faults rack.old) (R.faults rack.new) }
    ensures faults { R.faults rack.old ≤ R.faults rack.new }
    ensures same { IsRead R.devs R.moment R.state_at R.spare R.reads dev.now rack.old rack.new }
{
    let first = if_usable(
        serial,
        generation,
        read_at(alloc, rack, dev, &flex.area, 0)?,
    );
    let second = if_usable(
        serial,
        generation,
        read_at(alloc, rack, dev, &flex.area, 1)?,
    );
    Ok(later_of(first, second))
}

/// What was found, if its body begins with the serial and it is of this generation at most.
fn if_usable(serial: u64, generation: u64, found: Option<(u64, Bytes)>) -> Option<(u64, Bytes)>
    ensures { result ≡ usable serial generation found }
{
    match found {
        None => None,
        Some(found) => {
            if serial_of(found.1.items()) == serial && found.0 <= generation {
                Some(found)
            } else {
                None
            }
        }
    }
}

/// The checkpoint of greater generation, that in slot 1 on a tie.
fn later_of(first: Option<(u64, Bytes)>, second: Option<(u64, Bytes)>) -> Option<Begun>
    ensures { begun_of result ≡ later first second }
{
    match (first, second) {
        (None, None) => None,
        (Some(first), None) => Some(in_slot(0, first)),
        (None, Some(second)) => Some(in_slot(1, second)),
        (Some(first), Some(second)) => {
            if second.0 < first.0 {
                Some(in_slot(0, first))
            } else {
                Some(in_slot(1, second))
            }
        }
    }
}

fn in_slot(slot: usize, found: (u64, Bytes)) -> Begun
    ensures { log_of result ≡ begun slot found }
{
    Begun {
        slot,
        generation: found.0,
        body: found.1,
    }
}
