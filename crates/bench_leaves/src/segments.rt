// Look-ups in the table of a data tier with one segment a device.
ghost use Rattle.std.specs.Prelude.{◌≡◌, [], ◌∷◌, IfOk};
ghost use Rattle.st_datatier.specs.Tier.{sectors_of};

use st_datatier::DataTier;
use st_linear::LinearTable;
use st_units::{DevPath, DevRow, DevRows, NoMemory, Tier};
use std::alloc::Global;
use std::io;
use std::time::{Clock, Instant};

const SECTORS: u64 = 65_536;

// An odd number near 2^64 over the golden ratio: its multiples walk through blocks in no simple order.
const STEP: u64 = 0x9E37_79B9_7F4A_7C15;

/// The row of one device.
fn row(alloc: Global) -> Result<DevRows, NoMemory>
    ensures { IfOk result (λ rows. sectors_of rows ≡ 65536 ∷ []) }
{
    let Ok(path) = DevPath::read(alloc, b"/dev/sim") else {
        return Err(NoMemory);
    };
    let mut rows = DevRows::make(alloc);
    rows.push(DevRow {
        path,
        tier: Tier::DataTier,
        sectors: SECTORS,
    })?;
    Ok(rows)
}

/// A tier of so many devices, all of whose blocks are in use.
pub fn full(alloc: Global, devices: usize) -> Option<DataTier> {
    let rows = row(alloc).ok()?;
    let mut tier = DataTier::make(alloc, &rows).ok()?;
    for _ in 1..devices {
        if tier.devices() < 16 {
            tier.add_devs(&rows).ok()?;
        }
    }
    let room = tier.room();
    tier.extend(alloc, room).ok()?;
    Some(tier)
}

/// Looks blocks up, and gives the sum of their sectors.
fn place_all(table: &LinearTable, times: u64) -> u64 {
    let length = table.length();
    if length == 0 {
        return 0;
    }
    let mut at = 0u64;
    let mut sum = 0u64;
    for _ in 0..times {
        at = at.wrapping_add(STEP);
        let (_, sector) = table.place((at >> 32) % length);
        sum = sum.wrapping_add(sector);
    }
    sum
}

/// The sum of the sectors that so many look-ups gave, and their nanoseconds.
pub fn time_places(clock: &impl Clock, tier: &DataTier, times: u64) -> io::Result<(u64, u128)> {
    let start = Instant::now(clock)?;
    let sum = place_all(tier.table(), times);
    Ok((sum, start.elapsed(clock)?.as_nanos()))
}
