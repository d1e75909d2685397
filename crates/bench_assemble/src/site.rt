// A rack with pools, whose records are spelled byte by byte.
ghost use Rattle.std.specs.Prelude.{◌≡◌, ◌≤◌, length};
ghost use Rattle.st_memrack.specs.Blank.{AreDistinct};
ghost use Rattle.sim_devices.specs.Devices.{has_device};

use raw_records::{Flex, Rec, flex_body, header, pool_body, sealed};
use st_memrack::NoFaultRack;
use st_rack::Rack;
use st_units::{DevPath, NoMemory};
use std::alloc::Global;

/// The sectors of each device.
const SECTORS: u64 = 8_192;

const PATHS: [&str; 64] = [
    "/dev/sim00",
    "/dev/sim01",
    "/dev/sim02",
    "/dev/sim03",
    "/dev/sim04",
    "/dev/sim05",
    "/dev/sim06",
    "/dev/sim07",
    "/dev/sim08",
    "/dev/sim09",
    "/dev/sim10",
    "/dev/sim11",
    "/dev/sim12",
    "/dev/sim13",
    "/dev/sim14",
    "/dev/sim15",
    "/dev/sim16",
    "/dev/sim17",
    "/dev/sim18",
    "/dev/sim19",
    "/dev/sim20",
    "/dev/sim21",
    "/dev/sim22",
    "/dev/sim23",
    "/dev/sim24",
    "/dev/sim25",
    "/dev/sim26",
    "/dev/sim27",
    "/dev/sim28",
    "/dev/sim29",
    "/dev/sim30",
    "/dev/sim31",
    "/dev/sim32",
    "/dev/sim33",
    "/dev/sim34",
    "/dev/sim35",
    "/dev/sim36",
    "/dev/sim37",
    "/dev/sim38",
    "/dev/sim39",
    "/dev/sim40",
    "/dev/sim41",
    "/dev/sim42",
    "/dev/sim43",
    "/dev/sim44",
    "/dev/sim45",
    "/dev/sim46",
    "/dev/sim47",
    "/dev/sim48",
    "/dev/sim49",
    "/dev/sim50",
    "/dev/sim51",
    "/dev/sim52",
    "/dev/sim53",
    "/dev/sim54",
    "/dev/sim55",
    "/dev/sim56",
    "/dev/sim57",
    "/dev/sim58",
    "/dev/sim59",
    "/dev/sim60",
    "/dev/sim61",
    "/dev/sim62",
    "/dev/sim63",
];

/// So many pools, each on so many devices of its own, at most four.
#[derive(Clone, Copy)]
pub struct Site {
    pub pools: usize,
    pub each: usize,
    /// The newest record of each pool says that it is gone.
    pub ended: bool,
}

/// Puts a device last whose path isn't there yet.
fn put_device(list: &mut Vec<(DevPath, u64)>, path: DevPath) -> Result<(), NoMemory>
    requires { AreDistinct list.old.items }
    ensures { AreDistinct list.new.items }
{
    if has_device(list.as_slice(), &path) {
        return Err(NoMemory);
    }
    list.push((path, SECTORS))?;
    Ok(())
}

fn has_device(devs: &[(DevPath, u64)], path: &DevPath) -> bool
    ensures { result ≡ has_device path.now devs.now }
{
    devs.iter().any(|dev| dev.0.bytes() == path.bytes())
}

/// The first so many devices, with nothing on them.
#[tactic(auto, using(crate::proofs::Distinct::distinct_none))]
fn blank(alloc: Global, count: usize) -> Option<NoFaultRack> {
    let mut list = Vec::new(alloc);
    for path in &PATHS[..count.min(64)] {
        let path = DevPath::read(alloc, path.as_bytes()).ok()?;
        put_device(&mut list, path).ok()?;
    }
    NoFaultRack::blank(alloc, list.as_slice()).ok()
}

/// Writes whole sectors, where they lie on the device.
fn write(rack: &mut NoFaultRack, dev: &DevPath, sector: u64, bytes: &[u8]) -> Option<()> {
    let sectors = bytes.len() as u64 / 512;
    let size = rack.sectors(dev)?;
    if bytes.len() % 512 != 0 || sectors == 0 || sectors > size || sector > size - sectors {
        return None;
    }
    rack.write(dev, sector, bytes).ok()
}

/// A device of a pool: its header, its two newest records, and the newest checkpoint.
fn put_on(
    alloc: Global,
    rack: &mut NoFaultRack,
    path: &str,
    old: &Rec,
    new: &Rec,
    flex: Option<&Flex>,
) -> Option<()> {
    let dev = DevPath::read(alloc, path.as_bytes()).ok()?;
    write(rack, &dev, 1, &header(alloc, new.serial, SECTORS).ok()?)?;
    let body = pool_body(alloc, old).ok()?;
    write(rack, &dev, 80, &sealed(alloc, "STRSPOL1", 1, &body).ok()?)?;
    let body = pool_body(alloc, new).ok()?;
    write(rack, &dev, 16, &sealed(alloc, "STRSPOL1", 2, &body).ok()?)?;
    if let Some(flex) = flex {
        let body = flex_body(alloc, flex).ok()?;
        write(rack, &dev, 256, &sealed(alloc, "STRSFLX1", 2, &body).ok()?)?;
    }
    Some(())
}

/// The pool of this number, whose serial is one above; its devices begin at this one.
fn put_pool(
    alloc: Global,
    rack: &mut NoFaultRack,
    site: &Site,
    number: usize,
    first: usize,
) -> Option<()>
    requires { number ≤ 64 }
{
    let devs = PATHS.get(first..)?.get(..site.each)?;
    let old = Rec {
        serial: number as u64 + 1,
        flags: 6,
        name: devs.first()?.get(5..)?,
        devs,
        blocks: 32,
        longer: false,
    };
    let new = Rec {
        flags: if site.ended { 7 } else { 6 },
        ..old
    };
    let flex = Flex {
        serial: old.serial,
        version: 2,
        place: None,
        longer: false,
    };
    let mut first = true;
    for path in devs {
        if first {
            put_on(alloc, rack, path, &old, &new, Some(&flex))?;
        } else {
            put_on(alloc, rack, path, &old, &new, None)?;
        }
        first = false;
    }
    Some(())
}

/// The rack of these pools.
pub fn rack_of(alloc: Global, site: &Site) -> Option<NoFaultRack> {
    if site.pools > 64 || site.each > 4 {
        return None;
    }
    let mut rack = blank(alloc, site.pools * site.each)?;
    for number in 0..site.pools {
        put_pool(alloc, &mut rack, site, number, number * site.each)?;
    }
    Some(rack)
}
