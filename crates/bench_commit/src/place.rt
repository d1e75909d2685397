// A blank rack, and where a pool's records lie on its devices.
ghost use Rattle.std.specs.Prelude.{◌≡◌, ◌<◌, IsTrue, length, Some, slice_get, not};
ghost use Rattle.std.specs.List.{list_all};
ghost use Rattle.st_rack.specs.Device.{Path};
ghost use Rattle.st_slots.specs.Places.{Lies};
ghost use Rattle.st_commit.specs.Ready.{AreApart, AreDistinct, IsOf};
ghost use Rattle.bench_commit.specs.Paths.{differs, all_differ, all_rows_differ};

use st_deltalog::FlexArea;
use st_memrack::NoFaultRack;
use st_rack::Rack;
use st_slots::Area;
use st_units::{DevList, DevPath};
use std::alloc::Global;

/// The sectors of each device.
pub const SECTORS: u64 = 8_192;

/// The slots for the records of a pool on each of its devices.
pub fn pool_area() -> Area
    ensures { result.slot ≡ 64 }
{
    Area {
        at: 16,
        slot: 64,
        magic: *b"STRSPOL1",
    }
}

/// The slots for checkpoints and deltas on the first.
pub fn flex_area() -> FlexArea
    ensures { result.area.slot ≡ 1664 }
{
    FlexArea {
        area: Area {
            at: 256,
            slot: 1664,
            magic: *b"STRSFLX1",
        },
        delta: *b"STRSDLT1",
    }
}

fn differs(path: &DevPath, other: &DevPath) -> bool
    ensures { result ≡ differs path.now other.now }
{
    path.bytes() != other.bytes()
}

fn differs_from_all(path: &DevPath, later: &[DevPath]) -> bool
    ensures { result ≡ list_all (differs path.now) later.now }
{
    later.iter().all(|other| differs(path, other))
}

fn all_differ(paths: &[DevPath]) -> bool
    ensures { result ≡ all_differ paths.now }
{
    match paths {
        [] => true,
        [path, later @ ..] => differs_from_all(path, later) && all_differ(later),
    }
}

fn differs_from_rows(path: &DevPath, later: &[(DevPath, u64)]) -> bool
    ensures { result ≡ list_all (λ other. differs path.now other.0) later.now }
{
    later.iter().all(|other| differs(path, &other.0))
}

fn all_rows_differ(rows: &[(DevPath, u64)]) -> bool
    ensures { result ≡ all_rows_differ rows.now }
{
    match rows {
        [] => true,
        [row, later @ ..] => differs_from_rows(&row.0, later) && all_rows_differ(later),
    }
}

/// The last digit of a number.
fn digit(number: usize) -> u8 {
    b'0' + (number % 10) as u8
}

/// The path `/dev/simNN`.
fn path(alloc: Global, number: usize) -> Option<DevPath> {
    let tens = digit(number / 10);
    let ones = digit(number);
    let text = [b'/', b'd', b'e', b'v', b'/', b's', b'i', b'm', tens, ones];
    DevPath::read(alloc, &text).ok()
}

/// So many blank devices, and their paths.
#[tactic(auto, using(crate::proofs::Distinct::rows_distinct))]
pub fn blank(alloc: Global, count: usize) -> Option<(NoFaultRack, DevList)> {
    let mut devs = DevList::make(alloc);
    let mut rows = Vec::new(alloc);
    for number in 0..count {
        let path = path(alloc, number)?;
        rows.push((path.copy().ok()?, SECTORS)).ok()?;
        devs.push(path).ok()?;
    }
    if !all_rows_differ(rows.as_slice()) {
        return None;
    }
    let rack = NoFaultRack::blank(alloc, rows.as_slice()).ok()?;
    Some((rack, devs))
}

/// Whether both slots of the area lie on each of the devices.
fn lies_on_all<R: Rack>(rack: &R, devs: &DevList, area: &Area) -> bool
    ensures { IsTrue result → (d : Path) → IsOf devs.now d → Lies (R.devs rack.now) d area.now }
{
    for i in 0..devs.len() {
        if !area.lies_on(rack, devs.at(i)) {
            return false;
        }
    }
    true
}

/// Whether a pool may be made on these devices.
#[tactic(auto, using(crate::proofs::Distinct::paths_distinct))]
pub fn is_pool<R: Rack>(rack: &R, devs: &DevList, pool: &Area, flex: &FlexArea) -> bool
    ensures some { IsTrue result → 0 < length devs.now }
    ensures distinct { IsTrue result → AreDistinct devs.now }
    ensures lie { IsTrue result → (d : Path) → IsOf devs.now d → Lies (R.devs rack.now) d pool.now }
    ensures flex_lies { IsTrue result → (d : Path) → slice_get devs.now 0 ≡ Some d → Lies (R.devs rack.now) d flex.now.area }
    ensures apart { IsTrue result → AreApart pool.now flex.now.area }
{
    if devs.len() == 0 || !all_differ(devs.items()) {
        return false;
    }
    if !lies_on_all(rack, devs, pool) || !flex.area.lies_on(rack, devs.at(0)) {
        return false;
    }
    ends_before(pool, &flex.area)
}

/// Whether an area ends where another one begins, or before.
fn ends_before(area: &Area, other: &Area) -> bool
    ensures { IsTrue result → AreApart area.now other.now }
{
    u128::from(area.at) + 2 * u128::from(area.slot) <= u128::from(other.at)
}
