//! How long it takes to find what the devices of a rack without faults stand for. It does nothing without an argument.
#![tactic(auto)]

mod site;

use site::{Site, rack_of};
use st_assemble::found;
use st_memrack::NoFaultRack;
use std::time::Instant;
use std::{env, io};

/// How often each row is timed; the best counts.
const ROUNDS: u64 = 50;

/// Microseconds of one round; how many pools were found, and how many were gone. None where nothing was found.
fn round(rt: &HostRuntime, rack: &mut NoFaultRack) -> io::Result<Option<(u128, usize, usize)>> {
    let start = Instant::now(rt)?;
    let found = found(rt.alloc(), rack);
    let taken = start.elapsed(rt)?.as_micros();
    Ok(match found {
        Ok(found) => Some((taken, found.pools.len(), found.gone.len())),
        Err(_) => None,
    })
}

/// A row of the table.
fn row(rt: &HostRuntime, what: &str, site: Site) -> io::Result<()> {
    let Some(mut rack) = rack_of(rt.alloc(), &site) else {
        return println!(*rt; "{what}: no rack");
    };
    let mut best = u128::MAX;
    let (mut pools, mut gone) = (0, 0);
    for _ in 0..ROUNDS {
        let Some((taken, known, ended)) = round(rt, &mut rack)? else {
            return println!(*rt; "{what}: nothing was found");
        };
        best = best.min(taken);
        pools = known;
        gone = ended;
    }
    println!(*rt; "{what}: {pools} pools, {gone} gone, {best} us")
}

fn main(rt: HostRuntime) -> io::Result<()> {
    if env::args(&rt)?.nth(1).is_none() {
        return Ok(());
    }
    for pools in [1, 2, 4, 8, 16] {
        let site = Site {
            pools,
            each: 4,
            ended: false,
        };
        row(&rt, "devices by fours", site)?;
    }
    for pools in [8, 16, 32, 64] {
        let site = Site {
            pools,
            each: 1,
            ended: true,
        };
        row(&rt, "devices by themselves, their pools gone", site)?;
    }
    Ok(())
}
