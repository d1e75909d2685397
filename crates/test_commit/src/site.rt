// A pool of two devices, and commits on it.
ghost use Rattle.std.specs.Prelude.{◌≡◌, IsTrue, length, Some, slice_get};
ghost use Rattle.st_rack.specs.Device.{Path};
ghost use Rattle.st_slots.specs.Places.{Lies};
ghost use Rattle.st_commit.specs.Ready.{AreApart, AreDistinct, IsOf};
ghost use Rattle.st_flexlog.specs.Delta.{IsInOrder};

use st_commit::{commit_by_rule, commit_first, newest_of, repair, sync_all};
use st_deltalog::{FlexArea, Tail};
use st_flexat::flex_at;
use st_flexlog::{Delta, DeltaRow, FlexState, encode};
use st_flexrec::{FlexRec, keeps_conditions};
use st_memrack::MemRack;
use st_rack::Rack;
use st_slots::{Area, SlotFault};
use st_units::{Bytes, DevList, DevPath, FsRow, ItemList, Name};
use std::alloc::Global;
use std::test::Fail;

/// The slots for the records of a pool on each of its devices.
pub fn pool_area() -> Area
    ensures { result.slot ≡ 64 }
{
    Area {
        at: 16,
        slot: 64,
        magic: *b"STRSPOL1",
    }
}

/// The slots for checkpoints and deltas on the first.
pub fn flex_area() -> FlexArea
    ensures { result.area.slot ≡ 1664 }
{
    FlexArea {
        area: Area {
            at: 256,
            slot: 1664,
            magic: *b"STRSFLX1",
        },
        delta: *b"STRSDLT1",
    }
}

/// Two blank devices, each with both areas.
pub fn two_devices(alloc: Global) -> Result<(MemRack, DevList), Fail> {
    let first = DevPath::read(alloc, b"/dev/sim0")?;
    let second = DevPath::read(alloc, b"/dev/sim1")?;
    if first.bytes() == second.bytes() {
        return Err("one path".into());
    }
    let mut devs = DevList::make(alloc);
    put_last(&mut devs, first.copy()?)?;
    put_last(&mut devs, second.copy()?)?;
    let rack = MemRack::blank(alloc, &[(first, 8_192), (second, 8_192)])?;
    Ok((rack, devs))
}

/// Whether these are two devices, and the areas lie on them.
pub fn is_pool<R: Rack>(rack: &R, devs: &DevList, pool: &Area, flex: &FlexArea) -> bool
    ensures two { IsTrue result → length devs.now ≡ 2 }
    ensures distinct { IsTrue result → AreDistinct devs.now }
    ensures lie { IsTrue result → (d : Path) → IsOf devs.now d → Lies (R.devs rack.now) d pool.now }
    ensures flex_lies { IsTrue result → (d : Path) → slice_get devs.now 0 ≡ Some d → Lies (R.devs rack.now) d flex.now.area }
    ensures apart { IsTrue result → AreApart pool.now flex.now.area }
{
    if devs.len() != 2 {
        return false;
    }
    let (first, second) = (devs.at(0), devs.at(1));
    if first.bytes() == second.bytes() {
        return false;
    }
    if !pool.lies_on(rack, first) {
        return false;
    }
    if !pool.lies_on(rack, second) {
        return false;
    }
    if !flex.area.lies_on(rack, first) {
        return false;
    }
    ends_before(pool, &flex.area)
}

/// Whether an area ends where another one begins, or before.
fn ends_before(area: &Area, other: &Area) -> bool
    ensures { IsTrue result → AreApart area.now other.now }
{
    u128::from(area.at) + 2 * u128::from(area.slot) <= u128::from(other.at)
}

/// Puts the item last.
fn put_last<T: Drop>(list: &mut ItemList<T>, item: T) -> Result<(), Fail> {
    match list.push(item) {
        Ok(()) => Ok(()),
        Err(_) => Err("no memory".into()),
    }
}

/// The body of a checkpoint of pool 1: filesystem 1 of two blocks, of which none is mapped.
pub fn body_of(alloc: Global, next_cell: u64) -> Result<Bytes, Fail> {
    let mut filesystems = ItemList::make(alloc);
    let row = FsRow {
        serial: 1,
        name: Name::read(alloc, b"a")?,
        size: 256,
        limit: None,
        origin: None,
        merge: false,
    };
    put_last(&mut filesystems, row)?;
    let rec = FlexRec {
        version2: true,
        serial: 1,
        next_fs: 2,
        next_cell,
        filesystems,
        mappings: ItemList::make(alloc),
        cells: ItemList::make(alloc),
    };
    if !keeps_conditions(alloc, &rec)? {
        return Err("no flex record".into());
    }
    Ok(st_flexrec::encode(alloc, &rec)?)
}

/// The record of pool 1 at a generation below 256, as far as commits look at it: its serial, and one byte of its own.
pub fn record_of(generation: u64) -> [u8; 9] {
    [0, 0, 0, 0, 0, 0, 0, 1, (generation % 256) as u8]
}

/// Makes the first commit.
pub fn commit_one(alloc: Global, rack: &mut MemRack, devs: &DevList) -> Result<Tail, Fail> {
    let (pool, flex) = (pool_area(), flex_area());
    let body = body_of(alloc, 1)?;
    if !is_pool(rack, devs, &pool, &flex) || body.len() > 448 {
        return Err("no pool".into());
    }
    let (mut log_work, mut work) = ([0; 512], [0; 512]);
    let rec = record_of(1);
    match commit_first(
        rack,
        devs,
        &pool,
        &flex,
        body.items(),
        &rec,
        &mut log_work,
        &mut work,
    ) {
        Ok(tail) => Ok(tail),
        Err(_) => Err("no first commit".into()),
    }
}

/// A delta that maps this block of filesystem 1 to the cell of this number, in a place of its own.
pub fn delta_of(block: u32, cell: u64) -> Delta
    ensures { IsInOrder result }
{
    Delta {
        serial: 1,
        next_cell: cell.saturating_add(1),
        first: Some(DeltaRow {
            fs: 1,
            block,
            place: 10 + block % 2,
            cell,
        }),
        second: None,
    }
}

/// Makes a commit by the rule, with the rows as last written: a delta that maps a block to the next cell, or a checkpoint that maps
/// none. False where a device failed.
pub fn commit(
    alloc: Global,
    rack: &mut MemRack,
    devs: &DevList,
    tail: &mut Tail,
    generation: u64,
    has_committed: bool,
    block: u32,
    cell: u64,
) -> Result<bool, Fail> {
    let (pool, flex) = (pool_area(), flex_area());
    let body = body_of(alloc, cell)?;
    let delta = encode(&delta_of(block, cell));
    if !is_pool(rack, devs, &pool, &flex)
        || body.len() > 448
        || delta.bytes().len() > 448
        || tail.slot > 1
        || generation == 0
        || generation > 100
    {
        return Err("no pool".into());
    }
    let (mut delta_work, mut body_work, mut work) = ([0; 512], [0; 512], [0; 512]);
    let rec = record_of(generation);
    let done = commit_by_rule(
        rack,
        devs,
        &pool,
        &flex,
        tail,
        true,
        has_committed,
        generation,
        delta.bytes(),
        body.items(),
        &rec,
        &mut delta_work,
        &mut body_work,
        &mut work,
    );
    Ok(done.is_ok())
}

/// What a pool's log says at a generation.
pub fn said_at(
    alloc: Global,
    rack: &mut MemRack,
    dev: &DevPath,
    generation: u64,
) -> Result<Option<(FlexState, Tail)>, Fail> {
    let flex = flex_area();
    if !flex.area.lies_on(rack, dev) {
        return Err("no device".into());
    }
    match flex_at(alloc, rack, dev, &flex, 1, generation) {
        Ok(found) => Ok(found),
        Err(SlotFault::Fault) => Err("a fault".into()),
        Err(SlotFault::OutOfMemory) => Err("no memory".into()),
    }
}

/// What a start finds: the newest generation, the next cell and the number of mappings that its log says, and where the log ends; then
/// each device bears the newest record.
pub fn found(
    alloc: Global,
    rack: &mut MemRack,
    devs: &DevList,
) -> Result<Option<(u64, u64, usize, Tail)>, Fail> {
    let (pool, flex) = (pool_area(), flex_area());
    if !is_pool(rack, devs, &pool, &flex) || sync_all(rack, devs).is_err() {
        return Err("no pool".into());
    }
    let Ok(newest) = newest_of(alloc, rack, devs, &pool, 1) else {
        return Err("not read".into());
    };
    let Some((generation, rec)) = newest else {
        return Ok(None);
    };
    let mut work = [0; 512];
    if generation == 0 || generation > 100 || rec.len() > 448 {
        return Err("no record".into());
    }
    if repair(alloc, rack, devs, &pool, generation, rec.items(), &mut work).is_err() {
        return Err("not repaired".into());
    }
    let Some((state, tail)) = said_at(alloc, rack, devs.at(0), generation)? else {
        return Err("no log".into());
    };
    Ok(Some((generation, state.next_cell, state.mappings.len(), tail)))
}
