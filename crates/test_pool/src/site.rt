// Two devices, a pool on them, and what stands in their sectors.
ghost use Rattle.std.specs.Prelude.{◌≡◌, ◌≤◌, ◌∷◌, [], IfOk, false};
ghost use Rattle.std.specs.Str.{bytes_eq};
ghost use Rattle.st_rack.specs.Parts.{IsSame};
ghost use Rattle.st_memrack.specs.MemRack.{mem_devs, mem_moment, mem_state_at, mem_reads};
ghost use Rattle.st_pool.specs.Makes.{MayTake};

use st_memrack::{How, Kind, MemRack, Pick};
use st_model::ShownMode;
use st_pool::{Made, Pool, PoolReply};
use st_rack::Rack;
use st_units::{DevList, DevPath, Name, NoMemory, PoolSerial};
use std::alloc::Global;
use std::test::Fail;

/// A device stops at a call of this kind, after so many.
#[derive(Clone, Copy, Debug)]
pub struct Stop {
    pub path: &'static str,
    pub kind: Kind,
    pub skip: u64,
}

pub fn pair(alloc: Global, first: &DevPath, second: &DevPath) -> Result<DevList, NoMemory>
    ensures { IfOk result (λ list. list ≡ first.now ∷ second.now ∷ []) }
{
    let mut devs = DevList::make(alloc);
    devs.push(first.copy()?)?;
    devs.push(second.copy()?)?;
    Ok(devs)
}

/// Two blank devices of 8,192 sectors.
fn blank(alloc: Global, first: DevPath, second: DevPath) -> Result<MemRack, NoMemory>
    requires { bytes_eq first second ≡ false }
    ensures { IfOk result (λ rack. MayTake 1 (first ∷ second ∷ []) (mem_devs rack) (mem_state_at rack (mem_moment rack))) }
{
    MemRack::blank(alloc, &[(first, 8_192), (second, 8_192)])
}

fn set_stop(alloc: Global, rack: &mut MemRack, stop: Option<Stop>) -> Result<(), Fail>
    ensures { IsSame mem_devs mem_moment mem_state_at mem_reads rack.old rack.new }
{
    if let Some(stop) = stop {
        let dev = DevPath::read(alloc, stop.path.as_bytes())?;
        if rack.sectors(&dev).is_none() {
            return Err("no device".into());
        }
        rack.arm(&dev, stop.kind, 0, 8_191, stop.skip, How::Stop)?;
    }
    Ok(())
}

fn set_stops(
    alloc: Global,
    rack: &mut MemRack,
    stop: Option<Stop>,
    more: Option<Stop>,
) -> Result<(), Fail>
    ensures { IsSame mem_devs mem_moment mem_state_at mem_reads rack.old rack.new }
{
    set_stop(alloc, rack, stop)?;
    set_stop(alloc, rack, more)
}

/// Makes the pool tank, of serial 1, on two blank devices. The calls of the devices are recorded.
pub fn make(alloc: Global, stop: Option<Stop>, pick: Pick) -> Result<Made<MemRack>, Fail> {
    make_until(alloc, stop, None, pick)
}

/// The same with one more stop.
pub fn make_until(
    alloc: Global,
    stop: Option<Stop>,
    more: Option<Stop>,
    pick: Pick,
) -> Result<Made<MemRack>, Fail> {
    let first = DevPath::read(alloc, b"/dev/sim0")?;
    let second = DevPath::read(alloc, b"/dev/sim1")?;
    if first.bytes() == second.bytes() {
        return Err("one path".into());
    }
    let devs = pair(alloc, &first, &second)?;
    let name = Name::read(alloc, b"tank")?;
    let mut rack = blank(alloc, first, second)?;
    set_stops(alloc, &mut rack, stop, more)?;
    rack.pick(pick);
    rack.mark();
    Ok(Pool::make(alloc, name, PoolSerial::of(1), devs, rack))
}

/// The pool tank, which is up.
pub fn ready(alloc: Global, stop: Option<Stop>, pick: Pick) -> Result<Pool<MemRack>, Fail> {
    match make(alloc, stop, pick)? {
        Made::Ready(pool) => Ok(pool),
        Made::Broken(pool) => {
            pool.stop().part();
            Err("a device failed".into())
        }
        Made::NoMemory(_) => Err("no memory".into()),
    }
}

/// Renames a pool, where it is up.
pub fn rename(alloc: Global, pool: &mut Pool<MemRack>, new: Name) -> Option<PoolReply> {
    match pool.view().mode {
        ShownMode::Up => Some(pool.rename(alloc, new)),
        _ => None,
    }
}

fn nibble(c: u8) -> u8
    ensures { result ≤ 15 }
{
    match c {
        b'0'..=b'9' => c - b'0',
        b'a'..=b'f' => c - b'a' + 10,
        _ => 0,
    }
}

/// The sector that begins with these bytes and is zero behind them.
fn spelled(text: &[&str]) -> [u8; 512] {
    let mut sector = [0; 512];
    let mut digits: usize = 0;
    for part in text {
        for c in part.as_bytes() {
            let at = digits / 2;
            if at < 512 {
                sector[at] = sector[at] % 16 * 16 + nibble(*c);
            }
            digits = digits.saturating_add(1);
        }
    }
    sector
}

/// Whether this stands in a sector of a device.
pub fn stands(
    alloc: Global,
    rack: &mut MemRack,
    path: &str,
    sector: u64,
    text: &[&str],
) -> Result<bool, Fail> {
    let dev = DevPath::read(alloc, path.as_bytes())?;
    if rack.sectors(&dev) != Some(8_192) || sector >= 8_192 {
        return Err("no such sector".into());
    }
    let mut bytes = [0; 512];
    rack.read(&dev, sector, &mut bytes)?;
    Ok(bytes == spelled(text))
}
