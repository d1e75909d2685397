ghost use Rattle.std.specs.Prelude.{◌≡◌, option_copied};
ghost use Rattle.std.specs.List.{list_all};
ghost use Rattle.st_commit.specs.Standing.{keep};
ghost use Rattle.st_slots.specs.Reading.{newer};
ghost use Rattle.st_image.specs.Looks.{is_serial};
ghost use Rattle.st_judge.specs.Candidates.{even_of, odd_of, newest_in, newest_among, agrees, looks_agree, are_one};

use st_deltalog::serial_of;
use st_looks::DevLook;
use st_units::{Bytes, PoolSerial};

/// Whether the device's header is for this pool.
pub fn is_of(look: &DevLook, serial: PoolSerial) -> bool
    ensures { result ≡ is_serial serial look.now.header }
{
    match look.header {
        None => false,
        Some(own) => own.number() == serial.number(),
    }
}

/// What the slot holds, if its body begins with the serial.
pub fn kept(slot: &Option<(u64, Bytes)>, serial: PoolSerial) -> Option<&(u64, Bytes)>
    ensures { option_copied result ≡ keep serial slot.now }
{
    match slot {
        None => None,
        Some(found) => {
            if serial_of(found.1.items()) == serial.number() {
                Some(found)
            } else {
                None
            }
        }
    }
}

/// The candidate of the pool in the slot of even generations.
pub fn even_of(look: &DevLook, serial: PoolSerial) -> Option<&(u64, Bytes)>
    ensures { option_copied result ≡ even_of serial look.now }
{
    if is_of(look, serial) {
        kept(&look.even, serial)
    } else {
        None
    }
}

/// The candidate of the pool in the slot of odd generations.
pub fn odd_of(look: &DevLook, serial: PoolSerial) -> Option<&(u64, Bytes)>
    ensures { option_copied result ≡ odd_of serial look.now }
{
    if is_of(look, serial) {
        kept(&look.odd, serial)
    } else {
        None
    }
}

/// The newer of two candidates, the first one where they have one generation.
fn newer<'a>(
    first: Option<&'a (u64, Bytes)>,
    second: Option<&'a (u64, Bytes)>,
) -> Option<&'a (u64, Bytes)>
    ensures { option_copied result ≡ newer (option_copied first.entry) (option_copied second.entry) }
{
    match (first, second) {
        (None, second) => second,
        (Some(first), None) => Some(first),
        (Some(first), Some(second)) => {
            if first.0 < second.0 {
                Some(second)
            } else {
                Some(first)
            }
        }
    }
}

/// The newest candidate of the pool on these devices, that of the first such device; `None` exactly where there is none.
pub fn newest_among(looks: &[DevLook], serial: PoolSerial) -> Option<&(u64, Bytes)>
    ensures { option_copied result ≡ newest_among serial looks.now }
{
    let mut newest = None;
    for i in 0..looks.len() {
        let look = &looks[i];
        newest = newer(newest, newer(even_of(look, serial), odd_of(look, serial)));
    }
    newest
}

/// Whether two candidates have other generations, or one body.
fn agrees(first: Option<&(u64, Bytes)>, second: Option<&(u64, Bytes)>) -> bool
    ensures { result ≡ agrees (option_copied first.entry) (option_copied second.entry) }
{
    match (first, second) {
        (Some(first), Some(second)) => {
            first.0 != second.0 || first.1.items() == second.1.items()
        }
        _ => true,
    }
}

/// Whether the candidates of two devices do.
fn looks_agree(serial: PoolSerial, first: &DevLook, second: &DevLook) -> bool
    ensures { result ≡ looks_agree serial first.now second.now }
{
    let (even, odd) = (even_of(second, serial), odd_of(second, serial));
    agrees(even_of(first, serial), even)
        && agrees(even_of(first, serial), odd)
        && agrees(odd_of(first, serial), even)
        && agrees(odd_of(first, serial), odd)
}

/// Whether the candidates of one device agree with those of all.
fn agrees_with_all(looks: &[DevLook], serial: PoolSerial, first: &DevLook) -> bool
    ensures { result ≡ list_all (looks_agree serial first.now) looks.now }
{
    looks
        .iter()
        .all(|second| looks_agree(serial, first, second))
}

/// Whether no two candidates of the pool have one generation and different bodies.
pub fn are_one(looks: &[DevLook], serial: PoolSerial) -> bool
    ensures { result ≡ are_one serial looks.now }
{
    looks
        .iter()
        .all(|first| agrees_with_all(looks, serial, first))
}
