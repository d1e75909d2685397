ghost use Rattle.std.specs.Prelude.{◌≡◌, ◌+◌, ◌-◌, ◌<◌, ◌≤◌, ◌++◌, ℕ, List, [], length, filter, not, true, false, insert, MatchOption, IsNone, vec_len, vec_capacity, slice_get};
ghost use Rattle.std.specs.List.{AllWithin};
ghost use Rattle.std.specs.Str.{bytes_eq};
ghost use Rattle.st_rack.specs.Calls.{Rises, Has, sectors_of, names};
ghost use Rattle.st_shelf.specs.Shelf.{comes_before, rows_of, IsFirst, insert_in, join_in};

use crate::Device;
use st_units::{DevList, DevPath};

fn is_before(path: &DevPath, other: &DevPath) -> bool
    ensures { result ≡ comes_before path.now other.now }
{
    path.bytes().cmp(other.bytes()).is_lt()
}

fn is_at<D: Device>(device: &D, dev: &DevPath) -> bool
    ensures { result ≡ bytes_eq (D.path_of device.now) dev.now }
{
    device.path().bytes() == dev.bytes()
}

// How many devices come before this path.
fn place_of<D: Device>(devices: &[D], dev: &DevPath) -> usize
    requires { Rises (rows_of D.path_of D.size devices.now) }
    ensures within { result ≤ length devices.now }
    ensures before { AllWithin (λ d. comes_before (D.path_of d) dev.now ≡ true) devices.now 0 result }
    ensures after { AllWithin (λ d. comes_before (D.path_of d) dev.now ≡ false) devices.now result (length devices.now) }
{
    let mut low = 0;
    let mut high = devices.len();
    while low < high {
        let middle = low + (high - low) / 2;
        if is_before(devices[middle].path(), dev) {
            low = middle + 1;
        } else {
            high = middle;
        }
    }
    low
}

/// The index of a device, by halving.
pub fn find<D: Device>(devices: &[D], dev: &DevPath) -> Option<usize>
    requires { Rises (rows_of D.path_of D.size devices.now) }
    ensures { MatchOption result (IsNone (sectors_of (rows_of D.path_of D.size devices.now) dev.now)) (λ i. (i < length devices.now) × IsFirst D.path_of devices.now dev.now i) }
{
    let place = place_of(devices, dev);
    if place < devices.len() && is_at(&devices[place], dev) {
        Some(place)
    } else {
        None
    }
}

/// The index of a device that is there.
pub fn first_of<D: Device>(devices: &[D], dev: &DevPath) -> usize
    requires order { Rises (rows_of D.path_of D.size devices.now) }
    requires there { (n : ℕ) × Has (rows_of D.path_of D.size devices.now) dev.now n }
    ensures within { result < length devices.now }
    ensures first { IsFirst D.path_of devices.now dev.now result }
{
    let Some(place) = find(devices, dev) else {
        unreachable!();
    };
    place
}

// Where a device belongs.
fn place_for<D: Device>(devices: &[D], dev: &DevPath) -> usize
    ensures within { result ≤ length devices.now }
    ensures items { (d : _) → D.path_of d ≡ dev.now → insert devices.now result d ≡ insert_in D.path_of d devices.now }
{
    let mut place = 0;
    while place < devices.len() && is_before(devices[place].path(), dev) {
        place += 1;
    }
    place
}
/// Puts a device into its place, for which there is room.
pub fn insert<D: Device>(devices: &mut Vec<D>, device: D)
    requires { vec_len devices.old < vec_capacity devices.old }
    ensures items { devices.new.items ≡ insert_in D.path_of device devices.old.items }
    ensures len { vec_len devices.new ≡ vec_len devices.old + 1 }
    ensures capacity { vec_capacity devices.old ≤ vec_capacity devices.new }
{
    let place = place_for(devices, device.path());
    match devices.insert(place, device) {
        Ok(()) => {}
        Err(_) => unreachable!(),
    }
}

/// Moves devices into their places, for which there is room.
pub fn take_in<D: Device>(devices: &mut Vec<D>, others: &mut Vec<D>)
    requires { vec_len devices.old + vec_len others.old ≤ vec_capacity devices.old }
    ensures items { devices.new.items ≡ join_in D.path_of devices.old.items others.old.items }
    ensures len { vec_len devices.new ≡ vec_len devices.old + vec_len others.old }
    ensures capacity { vec_capacity devices.old ≤ vec_capacity devices.new }
{
    while let Some(device) = others.pop() {
        insert(devices, device);
    }
}

fn is_named<D: Device>(device: &D, list: &DevList) -> bool
    ensures { result ≡ names list.now (D.path_of device.now) }
{
    let path = device.path();
    list.items()
        .iter()
        .any(|named| named.bytes() == path.bytes())
}

/// Moves the devices of the list out, into a `Vec` that has room for all.
pub fn take_out<D: Device>(devices: &mut Vec<D>, list: &DevList, part: &mut Vec<D>)
    requires empty { (part.old.items ≡ []) × (vec_len part.old ≡ 0) }
    requires room { vec_len devices.old ≤ vec_capacity part.old }
    ensures stay { devices.new.items ≡ filter (λ d. not (names list.now (D.path_of d))) devices.old.items }
    ensures go { part.new.items ≡ filter (λ d. names list.now (D.path_of d)) devices.old.items }
    ensures capacity { vec_capacity devices.old ≤ vec_capacity devices.new }
    ensures count { vec_len devices.new + vec_len part.new ≡ vec_len devices.old }
{
    let mut i = 0;
    while i < devices.len() {
        if is_named(&devices[i], list) {
            let device = devices.remove(i);
            match part.push(device) {
                Ok(()) => {}
                Err(_) => unreachable!(),
            }
        } else {
            i += 1;
        }
    }
}
