// The calls of any rack in memory, and the rack without faults, with its parts.
ghost use Rattle.std.specs.Prelude.{◌≡◌, ◌∷◌, [], true, IfOk, length};
ghost use Rattle.st_rack.specs.Calls.{IsWithin};

use st_memrack::NoFaultRack;
use st_rack::Rack;
use st_units::{DevList, DevPath, NoMemory};
use std::alloc::Global;
use std::test::Fail;

pub fn path(alloc: Global, text: &str) -> Result<DevPath, Fail> {
    Ok(DevPath::read(alloc, text.as_bytes())?)
}

fn is_within<R: Rack>(rack: &R, dev: &DevPath, sector: u64, bytes: usize) -> bool
    ensures { result ≡ true → IsWithin (R.devs rack.now) dev.now sector bytes }
{
    match rack.sectors(dev) {
        Some(sectors) => {
            bytes > 0
                && bytes % 512 == 0
                && sector < sectors
                && bytes as u64 / 512 <= sectors - sector
        }
        None => false,
    }
}

pub fn read<R: Rack>(rack: &mut R, dev: &DevPath, sector: u64, buf: &mut [u8]) -> bool {
    is_within(rack, dev, sector, buf.len()) && rack.read(dev, sector, buf).is_ok()
}

pub fn write<R: Rack>(rack: &mut R, dev: &DevPath, sector: u64, bytes: &[u8]) -> bool
    ensures { R.devs rack.new ≡ R.devs rack.old }
{
    is_within(rack, dev, sector, bytes.len()) && rack.write(dev, sector, bytes).is_ok()
}

pub fn sync<R: Rack>(rack: &mut R, dev: &DevPath) -> bool {
    rack.sectors(dev).is_some() && rack.sync(dev).is_ok()
}

/// The byte that a sector has throughout.
pub fn fill_of<R: Rack>(rack: &mut R, dev: &DevPath, sector: u64) -> Option<u8> {
    let mut buf = [0xee; 512];
    if !read(rack, dev, sector, &mut buf) {
        return None;
    }
    let first = buf[0];
    if buf.iter().all(|byte| *byte == first) {
        Some(first)
    } else {
        None
    }
}

// The list of one device.
fn just(alloc: Global, dev: &DevPath) -> Result<DevList, NoMemory>
    ensures { IfOk result (λ list. list ≡ dev.now ∷ []) }
{
    let mut list = DevList::make(alloc);
    list.push(dev.copy()?)?;
    Ok(list)
}

/// Takes a device out, writes to it and takes it in again; says what its first sectors then held apart, and if the write was done.
pub fn write_apart<R: Rack>(
    alloc: Global,
    rack: &mut R,
    dev: &DevPath,
    bytes: &[u8],
) -> Result<Option<bool>, NoMemory> {
    let Some(_) = rack.sectors(dev) else {
        return Ok(None);
    };
    let list = just(alloc, dev)?;
    let mut part = rack.split_off(alloc, &list)?;
    let done = write(&mut part, dev, 0, bytes);
    part.cycle();
    rack.absorb(part);
    Ok(Some(done))
}

// The sectors of a device that ends one sector into its fourth block.
const SECTORS: usize = 385;

// A rack without faults, of that device and a small one.
fn without_faults(alloc: Global) -> Result<NoFaultRack, Fail> {
    let first = path(alloc, "/dev/sim0")?;
    let second = path(alloc, "/dev/sim1")?;
    if first.bytes() == second.bytes() {
        return Err("one path".into());
    }
    Ok(NoFaultRack::blank(alloc, &[(first, 64), (second, SECTORS as u64)])?)
}

// Writes a byte to so many sectors, and notes it.
fn fill<R: Rack>(
    alloc: Global,
    rack: &mut R,
    dev: &DevPath,
    row: (usize, usize, u8),
    want: &mut [u8],
) -> Result<bool, Fail> {
    let (sector, sectors, byte) = row;
    if sector > want.len() || sectors > want.len() - sector || want.len() > SECTORS {
        return Ok(false);
    }
    let bytes = vec![in alloc; byte; 512 * sectors]?;
    want[sector..sector + sectors].fill(byte);
    Ok(write(rack, dev, sector as u64, &bytes))
}

// The first sector that isn't as it is wanted, read alone; or one past the last.
fn differs<R: Rack>(rack: &mut R, dev: &DevPath, want: &[u8]) -> usize {
    for (sector, byte) in want.iter().enumerate() {
        if fill_of(rack, dev, sector as u64) != Some(*byte) {
            return sector;
        }
    }
    want.len()
}

// Whether one read of the whole device gives it.
fn gives<R: Rack>(alloc: Global, rack: &mut R, dev: &DevPath, want: &[u8]) -> Result<bool, Fail> {
    if want.len() > SECTORS {
        return Ok(false);
    }
    let mut buf = vec![in alloc; 0xeeu8; 512 * want.len()]?;
    Ok(
        read(rack, dev, 0, &mut buf)
            && buf
                .chunks(512)
                .zip(want.iter())
                .all(|(sector, byte)| sector.iter().all(|held| held == byte)),
    )
}

#[test]
fn a_rack_without_faults_holds_what_was_written(rt: HostRuntime) -> Result<(), Fail> {
    let alloc = rt.alloc();
    let mut rack = without_faults(alloc)?;
    let dev = path(alloc, "/dev/sim1")?;
    let mut want = [0; SECTORS];
    assert_eq!(rt; differs(&mut rack, &dev, &want), SECTORS, "blank");
    // a part of a block, two blocks at once, the last block, over written and unwritten blocks, a whole block, all
    let rows = [
        (300, 1, 1),
        (100, 60, 2),
        (384, 1, 3),
        (250, 10, 4),
        (120, 250, 5),
        (256, 128, 6),
        (0, 385, 7),
        (127, 2, 8),
    ];
    for (at, row) in rows.iter().enumerate() {
        assert!(rt; fill(alloc, &mut rack, &dev, *row, &mut want)?, "row {at}");
        assert_eq!(rt; differs(&mut rack, &dev, &want), SECTORS, "row {at}");
        assert!(rt; gives(alloc, &mut rack, &dev, &want)?, "row {at}");
    }
    Ok(())
}

#[test]
fn memory_is_enough_without_faults(rt: HostRuntime) -> Result<(), Fail> {
    let alloc = rt.alloc();
    let mut rack = without_faults(alloc)?;
    let near = path(alloc, "/dev/sim0")?;
    let far = path(alloc, "/dev/sim1")?;
    assert!(rt; rack.devices() > 1 && rack.path_of(1).as_str() == "/dev/sim1");
    assert_eq!(rt;
        (rack.sectors(&near), rack.sectors(&far)),
        (Some(64), Some(385))
    );
    assert!(rt; rack.reserve(4).is_ok());
    assert!(rt; write(&mut rack, &far, 383, &[6; 1024]));
    assert_eq!(rt; write_apart(alloc, &mut rack, &far, &[7; 512])?, Some(true));
    assert!(rt; sync(&mut rack, &far));
    rack.cycle();
    assert_eq!(rt; rack.devices(), 2);
    for (sector, byte) in [(0, 7), (1, 0), (382, 0), (383, 6), (384, 6)] {
        assert_eq!(rt; fill_of(&mut rack, &far, sector), Some(byte), "{sector}");
    }
    assert_eq!(rt; fill_of(&mut rack, &far, 385), None);
    assert_eq!(rt; fill_of(&mut rack, &near, 0), Some(0));
    Ok(())
}
