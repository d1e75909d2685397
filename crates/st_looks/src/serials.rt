ghost use Rattle.std.specs.Prelude.{ℕ, ◌≡◌, ◌+◌, ◌≤◌, ◌^◌, max, map, unwrap_or};
ghost use Rattle.st_rack.specs.Device.{Image};
ghost use Rattle.st_rack.specs.Calls.{Devices};
ghost use Rattle.st_image.specs.Rack.{greatest_over, slot_serial};
ghost use Rattle.st_looks.specs.Looked.{looked};
ghost use Rattle.st_looks.specs.Serials.{header_serial, greatest_in, greatest_among, IsNextOf, nearer};

use crate::look::DevLook;
use st_deltalog::serial_of;
use st_limits::MAX_POOL_SERIAL;
use st_units::{Bytes, PoolSerial};

/// The serial for the next pool: one above the greatest in any header, or at the beginning of any slot's body.
#[tactic(auto, using(crate::proofs::Naming::all_looked))]
pub fn next_serial(looks: &[DevLook]) -> u64
    ensures next { result ≡ greatest_among looks.now + 1 }
    ensures of_devices { (devs : Devices) (c : Image) → looks.now ≡ map (looked c) devs → result ≡ greatest_over devs c + 1 }
    ensures small { result ≤ 2 ^ 48 + 1 }
{
    let mut greatest = 0;
    for i in 0..looks.len() {
        greatest = greater(greatest, greatest_in(&looks[i]));
    }
    greatest + 1
}

/// The least serial above this one that a header names; `None` exactly where no header names one.
pub fn serial_above(looks: &[DevLook], above: u64) -> Option<PoolSerial>
    ensures { IsNextOf above looks.now result }
{
    let mut next = None;
    for i in 0..looks.len() {
        next = nearer(next, looks[i].header, above);
    }
    next
}

/// The one of two serials that is nearer above, if the second one is above at all.
fn nearer(next: Option<PoolSerial>, header: Option<PoolSerial>, above: u64) -> Option<PoolSerial>
    ensures { result ≡ nearer next (unwrap_or header 0) above }
{
    let Some(serial) = header else {
        return next;
    };
    if serial.number() <= above {
        return next;
    }
    match next {
        None => Some(serial),
        Some(other) => {
            if serial.number() < other.number() {
                Some(serial)
            } else {
                Some(other)
            }
        }
    }
}

/// The serial in the header, 0 without one.
fn header_serial(look: &DevLook) -> u64
    ensures value { result ≡ header_serial look.now }
    ensures small { result ≤ 2 ^ 48 }
{
    match look.header {
        None => 0,
        Some(serial) => serial.number(),
    }
}

/// The serial with which a slot's body begins, 0 where it is no pool's.
fn slot_serial(slot: &Option<(u64, Bytes)>) -> u64
    ensures value { result ≡ slot_serial slot.now }
    ensures small { result ≤ 2 ^ 48 }
{
    match slot {
        None => 0,
        Some(found) => {
            let serial = serial_of(found.1.items());
            if serial <= MAX_POOL_SERIAL { serial } else { 0 }
        }
    }
}

/// The greatest serial that the device names.
fn greatest_in(look: &DevLook) -> u64
    ensures value { result ≡ greatest_in look.now }
    ensures small { result ≤ 2 ^ 48 }
{
    greater(
        header_serial(look),
        greater(slot_serial(&look.even), slot_serial(&look.odd)),
    )
}

/// The greater of two serials.
fn greater(first: u64, second: u64) -> u64
    ensures { result ≡ max first second }
{
    if first < second { second } else { first }
}
