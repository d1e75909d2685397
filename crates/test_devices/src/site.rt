// Devices, the calls of them that fail, and devices of one rack that are put into another.
use st_memrack::{How, Kind, MemRack};
use st_rack::Rack;
use st_units::DevPath;
use std::alloc::Global;
use std::test::Fail;

/// The call of this kind that a device fails at once, after so many.
#[derive(Clone, Copy, Debug)]
pub struct Failing {
    pub path: &'static str,
    pub kind: Kind,
    pub skip: u64,
}

/// A blank device.
pub fn one(alloc: Global, path: &str) -> Result<MemRack, Fail> {
    let dev = DevPath::read(alloc, path.as_bytes())?;
    Ok(MemRack::blank(alloc, &[(dev, 8_192)])?)
}

/// Two blank devices, the second of 8,192 sectors.
pub fn two(alloc: Global, sectors: u64) -> Result<MemRack, Fail> {
    let first = DevPath::read(alloc, b"/dev/sim0")?;
    let second = DevPath::read(alloc, b"/dev/sim1")?;
    if first.bytes() == second.bytes() {
        return Err("one path".into());
    }
    Ok(MemRack::blank(alloc, &[(first, sectors), (second, 8_192)])?)
}

/// Lets a call fail that touches a sector up to this one.
pub fn arm(alloc: Global, rack: &mut MemRack, failing: &Failing, last: u64) -> Result<(), Fail> {
    let dev = DevPath::read(alloc, failing.path.as_bytes())?;
    if rack.sectors(&dev).is_none() {
        return Err("no device".into());
    }
    rack.arm(&dev, failing.kind, 0, last, failing.skip, How::Once)?;
    Ok(())
}

fn read(rack: &mut MemRack, dev: &DevPath, sector: u64) -> Result<[u8; 512], Fail> {
    if rack.sectors(dev) != Some(8_192) || sector >= 8_192 {
        return Err("no such sector".into());
    }
    let mut bytes = [0; 512];
    rack.read(dev, sector, &mut bytes)?;
    Ok(bytes)
}

fn write(rack: &mut MemRack, dev: &DevPath, sector: u64, bytes: &[u8]) -> Result<(), Fail> {
    if rack.sectors(dev) != Some(8_192) || sector >= 8_192 || bytes.len() != 512 {
        return Err("no such sector".into());
    }
    rack.write(dev, sector, bytes)?;
    Ok(())
}

/// Copies what a device of the first rack holds to that of the second, which is blank.
pub fn put(alloc: Global, from: &mut MemRack, to: &mut MemRack, path: &str) -> Result<(), Fail> {
    let dev = DevPath::read(alloc, path.as_bytes())?;
    for sector in 0..8_192 {
        let bytes = read(from, &dev, sector)?;
        if bytes != [0; 512] {
            write(to, &dev, sector, &bytes)?;
        }
    }
    if to.sectors(&dev).is_none() {
        return Err("no device".into());
    }
    to.sync(&dev)?;
    Ok(())
}
