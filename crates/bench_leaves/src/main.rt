//! Nanoseconds of a call of the leaves: a touch of the cache map, and a look-up in the table of segments. It does nothing without an
//! argument.
#![tactic(auto)]

mod cache;
mod segments;

use std::io::Print;
use std::{env, io};

// How many calls are timed.
const CALLS: u64 = 2_000_000;

fn main(rt: HostRuntime) -> io::Result<()> {
    if env::args(&rt)?.nth(1).is_none() {
        return Ok(());
    }
    let alloc = rt.alloc();
    for places in [64, 1_024, 16_384] {
        match cache::full(alloc, places) {
            Some(mut map) => {
                print(&rt, "hit", places, cache::time_hits(&rt, &mut map, CALLS)?)?;
                print(
                    &rt,
                    "miss with eviction",
                    places,
                    cache::time_misses(&rt, &mut map, CALLS)?,
                )?;
            }
            None => println!(rt; "no memory")?,
        }
    }
    for devices in [1, 16] {
        match segments::full(alloc, devices) {
            Some(tier) => print(
                &rt,
                "place",
                devices,
                segments::time_places(&rt, &tier, CALLS)?,
            )?,
            None => println!(rt; "no memory")?,
        }
    }
    Ok(())
}

/// Prints the nanoseconds of a call. `count` are the places of the map or the segments of the table.
fn print(rt: &impl Print, call: &str, count: usize, timed: (u64, u128)) -> io::Result<()> {
    println!(rt;
        "{call}, {count}: {} ns ({})",
        timed.1 / CALLS as u128,
        timed.0
    )
}
