ghost use Rattle.std.specs.Prelude.{◌≡◌, ◌+◌, ◌*◌, ◌<◌, ◌≤◌, ◌^◌, map, true, ℕ, IsTrue, ◌↔◌, IfOk, length};
ghost use Rattle.std.specs.List.{list_all};
ghost use Rattle.st_units.specs.Causes.{Rose};
ghost use Rattle.st_fields.specs.Slot.{padded};
ghost use Rattle.st_rack.specs.Device.{Path, held};
ghost use Rattle.st_rack.specs.Calls.{Devices, Has, Rises};
ghost use Rattle.st_rack.specs.Device.{Image};
ghost use Rattle.st_commit.specs.Ready.{IsOf};
ghost use Rattle.st_image.specs.Looks.{is_serial};
ghost use Rattle.st_looks.specs.Looked.{looked};
ghost use Rattle.st_judge.specs.Verdicts.{IsGone, IsHere, IsVerdict};
ghost use Rattle.st_books.specs.Spelled.{IsBare};
ghost use Rattle.st_starting.specs.inner.Finding.{IsFinding, is_of, is_own};

use crate::outcome::Start;
use crate::rows::are_rows;
use st_books::Books;
use st_deltalog::serial_of;
use st_flexat::flex_at;
use st_flexlog::FlexState;
use st_image::flex_area;
use st_judge::{GoneRow, Verdict, judge};
use st_limits::MAX_FILESYSTEMS;
use st_looks::{DevLook, look_at_all};
use st_poolrec::{PoolRec, RecFault, decode, encode};
use st_rack::Rack;
use st_slots::SlotFault;
use st_units::{Bytes, DevList, NoMemory, PoolSerial};
use std::alloc::Global;

/// What was found, and the record to write where it is missing.
#[derive(Drop)]
pub struct Finding {
    pub start: Start,
    pub newest: Option<Newest>,
}

/// The newest record of a pool, with the memory that it takes to write it.
#[derive(Drop)]
pub struct Newest {
    pub generation: u64,
    pub text: Bytes,
    pub work: Vec<u8>,
}

/// What a start finds on the devices of the rack, which is read and nothing else.
#[tactic(none)]
pub fn find<R: Rack>(
    alloc: Global,
    rack: &mut R,
    devs: &DevList,
    serial: PoolSerial,
) -> Result<Finding, SlotFault>
    requires there { (d : Path) → IsOf devs.now d → (n : ℕ) × Has (R.devs rack.old) d n }
    ensures found { IfOk result (IsFinding serial (R.devs rack.old) devs.now (held (R.state_at rack.old (R.moment rack.old)))) }
    ensures cause { result ≡ Err SlotFault.Fault → Rose (R.faults rack.old) (R.faults rack.new) }
    ensures faults { R.faults rack.old ≤ R.faults rack.new }
    ensures devs { R.devs rack.new ≡ R.devs rack.old }
    ensures clock { R.moment rack.new ≡ R.moment rack.old }
    ensures states { R.state_at rack.new ≡ R.state_at rack.old }
    ensures spare { R.spare rack.new ≡ R.spare rack.old }
{
    paths_rise(rack);
    let looks = look_at_all(alloc, rack)?;
    find_among(alloc, rack, looks.items(), devs, serial)
}

/// What is found on devices that show this.
fn find_among<R: Rack>(
    alloc: Global,
    rack: &mut R,
    looks: &[DevLook],
    devs: &DevList,
    serial: PoolSerial,
) -> Result<Finding, SlotFault>
    requires there { (d : Path) → IsOf devs.now d → (n : ℕ) × Has (R.devs rack.old) d n }
    requires rises { Rises (R.devs rack.old) }
    requires looks { looks.now ≡ map (looked (held (R.state_at rack.old (R.moment rack.old)))) (R.devs rack.old) }
    ensures found { IfOk result (IsFinding serial (R.devs rack.old) devs.now (held (R.state_at rack.old (R.moment rack.old)))) }
    ensures cause { result ≡ Err SlotFault.Fault → Rose (R.faults rack.old) (R.faults rack.new) }
    ensures faults { R.faults rack.old ≤ R.faults rack.new }
    ensures devs { R.devs rack.new ≡ R.devs rack.old }
    ensures clock { R.moment rack.new ≡ R.moment rack.old }
    ensures states { R.state_at rack.new ≡ R.state_at rack.old }
    ensures spare { R.spare rack.new ≡ R.spare rack.old }
{
    match judge(alloc, looks, serial) {
        Err(_) => Err(SlotFault::OutOfMemory),
        Ok(said) => find_said(alloc, rack, looks, devs, serial, said),
    }
}

/// What is found where the devices, which show this, say so of the pool.
#[tactic(none)]
fn find_said<R: Rack>(
    alloc: Global,
    rack: &mut R,
    looks: &[DevLook],
    devs: &DevList,
    serial: PoolSerial,
    said: Verdict,
) -> Result<Finding, SlotFault>
    requires there { (d : Path) → IsOf devs.now d → (n : ℕ) × Has (R.devs rack.old) d n }
    requires rises { Rises (R.devs rack.old) }
    requires looks { looks.now ≡ map (looked (held (R.state_at rack.old (R.moment rack.old)))) (R.devs rack.old) }
    requires said { IsVerdict serial (R.devs rack.old) (held (R.state_at rack.old (R.moment rack.old))) said }
    ensures found { IfOk result (IsFinding serial (R.devs rack.old) devs.now (held (R.state_at rack.old (R.moment rack.old)))) }
    ensures cause { result ≡ Err SlotFault.Fault → Rose (R.faults rack.old) (R.faults rack.new) }
    ensures faults { R.faults rack.old ≤ R.faults rack.new }
    ensures devs { R.devs rack.new ≡ R.devs rack.old }
    ensures clock { R.moment rack.new ≡ R.moment rack.old }
    ensures states { R.state_at rack.new ≡ R.state_at rack.old }
    ensures spare { R.spare rack.new ≡ R.spare rack.old }
{
    match said {
        Verdict::Nothing => Ok(only(Start::Nothing)),
        Verdict::Gone(row) => match find_gone(alloc, rack, looks, devs, serial, row) {
            Err(_) => Err(SlotFault::OutOfMemory),
            Ok(finding) => Ok(finding),
        },
        Verdict::Lacking(_) => Ok(only(Start::Broken)),
        Verdict::Here(generation, rec) => find_here(alloc, rack, devs, serial, generation, rec),
        Verdict::Breaks => Ok(only(Start::Broken)),
    }
}

/// The paths of a rack rise, which its number of devices tells.
pub fn paths_rise<R: Rack>(rack: &R)
    ensures { Rises (R.devs rack.now) }
{
    let _ = rack.devices();
}

/// Found, with nothing to write.
fn only(start: Start) -> Finding
    ensures { result ≡ record { start = start; newest = None } }
{
    Finding {
        start,
        newest: None,
    }
}

/// What is found where this record says that the pool is gone.
fn find_gone<R: Rack>(
    alloc: Global,
    rack: &R,
    looks: &[DevLook],
    devs: &DevList,
    serial: PoolSerial,
    row: GoneRow,
) -> Result<Finding, NoMemory>
    requires there { (d : Path) → IsOf devs.now d → (n : ℕ) × Has (R.devs rack.now) d n }
    requires rises { Rises (R.devs rack.now) }
    ensures { IfOk result (λ found. (c : Image) → looks.now ≡ map (looked c) (R.devs rack.now) → IsGone serial (R.devs rack.now) c row → IsFinding serial (R.devs rack.now) devs.now c found) }
{
    let rec = match decode(alloc, row.rec.items()) {
        Err(RecFault::NotARecord) => return Ok(only(Start::Broken)),
        Err(RecFault::OutOfMemory) => return Err(NoMemory),
        Ok(rec) => rec,
    };
    if !are_rows(rack, &rec.devs, devs) {
        return Ok(only(Start::Broken));
    }
    if !are_of(looks, serial, row.generation) {
        return Ok(only(Start::Broken));
    }
    let newest = newest_of(alloc, row.generation, row.rec)?;
    Ok(Finding {
        start: Start::Gone(row.generation),
        newest: Some(newest),
    })
}

/// Whether the header of each device is for this pool, and its slot beside that of a generation holds no other pool's record.
fn are_of(looks: &[DevLook], serial: PoolSerial, generation: u64) -> bool
    ensures { result ≡ list_all (is_of serial generation) looks.now }
{
    looks.iter().all(|look| is_of(look, serial, generation))
}

fn is_of(look: &DevLook, serial: PoolSerial, generation: u64) -> bool
    ensures { result ≡ is_of serial generation look.now }
{
    is_headed(look, serial)
        && is_own(
            if generation % 2 == 0 {
                &look.odd
            } else {
                &look.even
            },
            serial,
        )
}

fn is_headed(look: &DevLook, serial: PoolSerial) -> bool
    ensures { result ≡ is_serial serial look.now.header }
{
    match look.header {
        None => false,
        Some(own) => own.number() == serial.number(),
    }
}

/// Whether the slot holds no record of another pool.
fn is_own(slot: &Option<(u64, Bytes)>, serial: PoolSerial) -> bool
    ensures { result ≡ is_own serial slot.now }
{
    match slot {
        None => true,
        Some(found) => serial_of(found.1.items()) == serial.number(),
    }
}

/// What is found where the pool is known with this record, and its devices are there.
#[tactic(none)]
fn find_here<R: Rack>(
    alloc: Global,
    rack: &mut R,
    devs: &DevList,
    serial: PoolSerial,
    generation: u64,
    rec: PoolRec,
) -> Result<Finding, SlotFault>
    requires there { (d : Path) → IsOf devs.now d → (n : ℕ) × Has (R.devs rack.old) d n }
    requires rises { Rises (R.devs rack.old) }
    requires here { IsHere serial (R.devs rack.old) (held (R.state_at rack.old (R.moment rack.old))) generation rec }
    ensures found { IfOk result (IsFinding serial (R.devs rack.old) devs.now (held (R.state_at rack.old (R.moment rack.old)))) }
    ensures cause { result ≡ Err SlotFault.Fault → Rose (R.faults rack.old) (R.faults rack.new) }
    ensures faults { R.faults rack.old ≤ R.faults rack.new }
    ensures devs { R.devs rack.new ≡ R.devs rack.old }
    ensures clock { R.moment rack.new ≡ R.moment rack.old }
    ensures states { R.state_at rack.new ≡ R.state_at rack.old }
    ensures spare { R.spare rack.new ≡ R.spare rack.old }
{
    if !are_rows(rack, &rec.devs, devs) {
        return Ok(only(Start::Broken));
    }
    let first = &rec.devs.at(0).path;
    let read = flex_at(
        alloc,
        rack,
        first,
        &flex_area(),
        serial.number(),
        generation,
    )?;
    match read {
        None => Ok(only(Start::Broken)),
        Some((flex, tail)) => {
            if !may_go_on(&flex, rec.version2, serial, generation) {
                return Ok(only(Start::Broken));
            }
            let text = encode(alloc, &rec)?;
            let newest = newest_of(alloc, generation, text)?;
            Ok(Finding {
                start: Start::Ready(Books {
                    rec,
                    flex,
                    generation,
                    tail,
                    has_committed: false,
                }),
                newest: Some(newest),
            })
        }
    }
}

/// Whether a log is in this version, and says that the pool has no filesystem.
fn may_go_on(flex: &FlexState, version2: bool, serial: PoolSerial, generation: u64) -> bool
    requires { generation ≤ 2 ^ 48 }
    ensures { IsTrue result ↔ ((flex.now.version2 ≡ version2) × IsBare serial generation flex.now) }
{
    is_same(flex.version2, version2) && is_bare(flex, serial, generation)
}

/// Whether two marks are the same.
fn is_same(first: bool, second: bool) -> bool
    ensures { IsTrue result ↔ (first ≡ second) }
{
    if first { second } else { !second }
}

/// Whether a log at this generation says that the pool has no filesystem.
fn is_bare(flex: &FlexState, serial: PoolSerial, generation: u64) -> bool
    requires { generation ≤ 2 ^ 48 }
    ensures { IsTrue result ↔ IsBare serial generation flex.now }
{
    flex.serial == serial.number()
        && flex.filesystems.len() == 0
        && flex.mappings.len() == 0
        && 1 <= flex.next_cell
        && flex.next_cell <= 2 * generation
        && 1 <= flex.next_fs
        && flex.next_fs <= MAX_FILESYSTEMS * generation
}

/// A record with the memory that it takes to write it.
fn newest_of(alloc: Global, generation: u64, text: Bytes) -> Result<Newest, NoMemory>
    requires { length text < 2 ^ 40 }
    ensures { IfOk result (λ newest. (newest.generation ≡ generation) × (newest.text ≡ text) × (length newest.work.items ≡ padded (64 + length text))) }
{
    let sectors = (64 + text.len() + 511) / 512;
    let work = vec![in alloc; 0u8; 512 * sectors]?;
    Ok(Newest {
        generation,
        text,
        work,
    })
}
