// A rack of small devices, and what stands on them.
ghost use Rattle.std.specs.Prelude.{◌≡◌};
ghost use Rattle.st_memrack.specs.Blank.{AreDistinct};
ghost use Rattle.sim_devices.specs.Devices.{has_device};

use raw_records::{Flex, Rec, flex_body, header, pool_body, sealed};
use st_memrack::MemRack;
use st_rack::Rack;
use st_units::DevPath;
use std::alloc::Global;
use std::test::Fail;

/// What stands on one device.
#[derive(Clone, Copy)]
pub struct Device<'a> {
    pub path: &'a str,
    pub sectors: u64,
    /// The serial in its header.
    pub header: Option<u64>,
    /// Pool records, each with its generation.
    pub records: &'a [(u64, Rec<'a>)],
    /// Checkpoints, each with its generation.
    pub flexes: &'a [(u64, Flex)],
}

/// The rack of these devices.
#[tactic(auto, using(crate::proofs::Distinct::distinct_none))]
pub fn rack_of(alloc: Global, devices: &[Device]) -> Result<MemRack, Fail> {
    let mut list = Vec::new(alloc);
    for one in devices {
        let path = DevPath::read(alloc, one.path.as_bytes())?;
        put_device(&mut list, path, one.sectors)?;
    }
    let mut rack = MemRack::blank(alloc, list.as_slice())?;
    for device in devices {
        fill(alloc, &mut rack, device)?;
    }
    Ok(rack)
}

/// Puts a device last whose path isn't there yet.
pub fn put_device(list: &mut Vec<(DevPath, u64)>, path: DevPath, sectors: u64) -> Result<(), Fail>
    requires { AreDistinct list.old.items }
    ensures { AreDistinct list.new.items }
{
    if has_device(list.as_slice(), &path) {
        return Err("a path twice".into());
    }
    list.push((path, sectors))?;
    Ok(())
}

fn has_device(devs: &[(DevPath, u64)], path: &DevPath) -> bool
    ensures { result ≡ has_device path.now devs.now }
{
    devs.iter().any(|dev| dev.0.bytes() == path.bytes())
}

pub fn fill(alloc: Global, rack: &mut MemRack, device: &Device) -> Result<(), Fail> {
    let dev = DevPath::read(alloc, device.path.as_bytes())?;
    if let Some(serial) = device.header {
        write(
            rack,
            &dev,
            1,
            header(alloc, serial, device.sectors)?.as_slice(),
        )?;
    }
    for (generation, rec) in device.records {
        let text = sealed(
            alloc,
            "STRSPOL1",
            *generation,
            pool_body(alloc, rec)?.as_slice(),
        )?;
        write(rack, &dev, 16 + 64 * (*generation % 2), text.as_slice())?;
    }
    for (generation, flex) in device.flexes {
        let text = sealed(
            alloc,
            "STRSFLX1",
            *generation,
            flex_body(alloc, flex)?.as_slice(),
        )?;
        write(rack, &dev, 256 + 1_664 * (*generation % 2), text.as_slice())?;
    }
    Ok(())
}

/// Writes whole sectors, where they lie on the device.
fn write(rack: &mut MemRack, dev: &DevPath, sector: u64, bytes: &[u8]) -> Result<(), Fail> {
    let sectors = bytes.len() as u64 / 512;
    let Some(size) = rack.sectors(dev) else {
        return Err("no device".into());
    };
    if bytes.len() % 512 != 0 || sectors == 0 || sectors > size || sector > size - sectors {
        return Err("not within the device".into());
    }
    Ok(rack.write(dev, sector, bytes)?)
}
