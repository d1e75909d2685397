//! How fast a rack without faults reads and writes, beside plain copies of the same bytes. It does nothing without an argument.
#![tactic(auto)]

mod copies;
mod racks;

use copies::{copy_in, copy_out};
use racks::{read_often, write_often};
use st_memrack::NoFaultRack;
use st_rack::Rack;
use st_units::{DevPath, NoMemory};
use std::alloc::Global;
use std::time::Instant;
use std::{env, io};

// The sectors of the device, and the bytes that are copied for each row.
const SECTORS: u64 = 65_536;

const BYTES: u64 = 2_147_483_648;

// Microseconds since then, at least one.
fn micros(rt: &HostRuntime, start: &Instant) -> io::Result<u128> {
    Ok(start.elapsed(rt)?.as_micros().max(1))
}

fn show(rt: &HostRuntime, what: &str, taken: u128, plain: u128) -> io::Result<()> {
    let speed = u128::from(BYTES) / taken.max(1);
    let share = 100 * plain.min(1_000_000_000) / taken.max(1);
    println!(*rt;
        "{what}: {taken} us, {speed} MB/s; plain copies {plain} us; {share} % of their speed"
    )
}

// A row for writes and one for reads.
fn rows<R: Rack>(
    rt: &HostRuntime,
    rack: &mut R,
    dev: &DevPath,
    block: &mut [u8],
    bytes: &mut [u8],
) -> io::Result<()> {
    let len = bytes.len();
    if rack.sectors(dev) != Some(SECTORS)
        || len == 0
        || len % 512 != 0
        || len > 65_536
        || len > block.len()
    {
        return Ok(());
    }
    let times = BYTES / len as u64;
    let start = Instant::now(rt)?;
    let done = write_often(rack, dev, SECTORS, bytes, times);
    let written = micros(rt, &start)?;
    let start = Instant::now(rt)?;
    copy_in(block, bytes, times);
    show(
        rt,
        if done { "write" } else { "failed" },
        written,
        micros(rt, &start)?,
    )?;
    let start = Instant::now(rt)?;
    let done = read_often(rack, dev, SECTORS, bytes, times);
    let read = micros(rt, &start)?;
    let start = Instant::now(rt)?;
    copy_out(block, bytes, times);
    show(
        rt,
        if done { "read" } else { "failed" },
        read,
        micros(rt, &start)?,
    )
}

// A row for the first write of every sector.
fn first_row<R: Rack>(
    rt: &HostRuntime,
    rack: &mut R,
    dev: &DevPath,
    bytes: &[u8],
) -> io::Result<()> {
    let len = bytes.len();
    if rack.sectors(dev) != Some(SECTORS) || len == 0 || len % 512 != 0 || len > 65_536 {
        return Ok(());
    }
    let start = Instant::now(rt)?;
    let done = write_often(rack, dev, SECTORS, bytes, 512 * SECTORS / len as u64);
    let taken = micros(rt, &start)?;
    println!(*rt; "each sector written for the first time: {taken} us, done: {done}")
}

// The rows for calls of so many sectors, on a new device.
fn sized(rt: &HostRuntime, dev: &DevPath, sectors: usize) -> io::Result<()> {
    if sectors > 128 {
        return Ok(());
    }
    let start = Instant::now(rt)?;
    let Ok(mut rack) = one_device(rt.alloc(), dev) else {
        return no_memory(rt);
    };
    let made = micros(rt, &start)?;
    println!(*rt; "calls of {sectors} sectors on a device that is made in {made} us")?;
    let mut bytes = vec![in rt.alloc(); 2u8; 512 * sectors]?;
    first_row(rt, &mut rack, dev, &bytes)?;
    let mut block = vec![in rt.alloc(); 1u8; 33_554_432]?;
    rows(rt, &mut rack, dev, &mut block, &mut bytes)
}

fn one_device(alloc: Global, dev: &DevPath) -> Result<NoFaultRack, NoMemory> {
    NoFaultRack::blank(alloc, &[(dev.copy()?, SECTORS)])
}

fn no_memory(rt: &HostRuntime) -> io::Result<()> {
    println!(*rt; "no memory")
}

fn main(rt: HostRuntime) -> io::Result<()> {
    if env::args(&rt)?.nth(1).is_none() {
        return Ok(());
    }
    let Ok(dev) = DevPath::read(rt.alloc(), b"/dev/sim0") else {
        return no_memory(&rt);
    };
    sized(&rt, &dev, 1)?;
    sized(&rt, &dev, 128)
}
