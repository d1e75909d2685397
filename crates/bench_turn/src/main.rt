//! Turns a second, with one to eight threads. It does nothing without an argument.
#![tactic(auto)]

mod roll;

use std::time::Instant;
use std::{env, io};

// How many turns there are in all, for each number of threads.
const TURNS: u64 = 4_000_000;

fn main(rt: HostRuntime) -> io::Result<()> {
    if env::args(&rt)?.nth(1).is_none() {
        return Ok(());
    }
    for threads in [1u64, 2, 4, 8] {
        let start = Instant::now(&rt)?;
        let turns = roll::time_turns(&rt, rt.alloc(), threads as usize, TURNS / threads);
        let micros = start.elapsed(&rt)?.as_micros().max(1);
        match turns {
            Some(turns) => println!(rt;
                "{threads} threads: {turns} turns, {} a second",
                turns as u128 * 1_000_000 / micros
            )?,
            None => println!(rt; "{threads} threads: no memory")?,
        }
    }
    Ok(())
}
