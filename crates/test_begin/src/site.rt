// Three devices, and the calls of them that fail.
ghost use Rattle.std.specs.Prelude.{◌≡◌, ◌<◌, ◌≤◌, true, length, slice_get, IfSome};
ghost use Rattle.st_limits.specs.declared.TheConstants.{MAX_DEVICE_SECTORS};
ghost use Rattle.st_rack.specs.Calls.{IsFit};

use st_limits::{MAX_DEVICE_SECTORS, MAX_RACK_DEVICES};
use st_memrack::{How, Kind, MemRack};
use st_rack::Rack;
use st_units::DevPath;
use std::alloc::Global;
use std::test::Fail;

/// A device fails at a call of this kind, after so many.
#[derive(Clone, Copy, Debug)]
pub struct Failing {
    pub path: &'static str,
    pub kind: Kind,
    pub skip: u64,
    pub how: How,
}

/// Whether the engine may begin on the rack.
pub fn is_fit<R: Rack>(rack: &R) -> bool
    ensures { result ≡ true → IsFit (R.devs rack.now) }
{
    let count = rack.devices();
    if count as u64 > MAX_RACK_DEVICES {
        return false;
    }
    for i in 0..count {
        if !is_small(rack, i) {
            return false;
        }
    }
    true
}

fn is_small<R: Rack>(rack: &R, i: usize) -> bool
    requires { i < length (R.devs rack.now) }
    ensures { result ≡ true → IfSome (slice_get (R.devs rack.now) i) (λ d. d.1 ≤ MAX_DEVICE_SECTORS) }
{
    match rack.sectors(rack.path_of(i)) {
        Some(sectors) => sectors <= MAX_DEVICE_SECTORS,
        None => unreachable!(),
    }
}

/// Three blank devices of 8,192 sectors.
pub fn three(alloc: Global) -> Result<MemRack, Fail> {
    let first = DevPath::read(alloc, b"/dev/sim0")?;
    let second = DevPath::read(alloc, b"/dev/sim1")?;
    let third = DevPath::read(alloc, b"/dev/sim2")?;
    if first.bytes() == second.bytes() {
        return Err("one path".into());
    }
    if first.bytes() == third.bytes() {
        return Err("one path".into());
    }
    if second.bytes() == third.bytes() {
        return Err("one path".into());
    }
    Ok(MemRack::blank(alloc, &[(first, 8_192), (second, 8_192), (third, 8_192)])?)
}

/// Lets a call fail.
pub fn arm(alloc: Global, rack: &mut MemRack, failing: &Failing) -> Result<(), Fail> {
    let dev = DevPath::read(alloc, failing.path.as_bytes())?;
    if rack.sectors(&dev).is_none() {
        return Err("no device".into());
    }
    rack.arm(&dev, failing.kind, 0, 8_191, failing.skip, failing.how)?;
    Ok(())
}

/// Writes whole sectors, and syncs them.
pub fn put(
    alloc: Global,
    rack: &mut MemRack,
    path: &str,
    sector: u64,
    bytes: &[u8],
) -> Result<(), Fail> {
    let dev = DevPath::read(alloc, path.as_bytes())?;
    let sectors = bytes.len() as u64 / 512;
    let Some(size) = rack.sectors(&dev) else {
        return Err("no device".into());
    };
    if bytes.len() % 512 != 0 || sectors == 0 || sectors > size || sector > size - sectors {
        return Err("not within the device".into());
    }
    rack.write(&dev, sector, bytes)?;
    Ok(rack.sync(&dev)?)
}

/// How many calls of this kind a device got since the last mark.
pub fn calls_of(rack: &MemRack, path: &str, kind: Kind) -> u64 {
    let mut count: u64 = 0;
    for call in &rack.record().calls {
        if call.kind == kind && call.dev.as_str() == path {
            count = count.saturating_add(1);
        }
    }
    count
}
