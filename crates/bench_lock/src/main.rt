//! Rounds of the lock a second, with one to eight threads, beside a plain lock that keeps the same log. It does nothing
//! without an argument.
#![tactic(auto)]

mod pace;
mod plain;
mod proved;

use crate::pace::{Pace, Shape};
use std::{env, io};

// How many rounds there are in all, for each number of threads.
const ROUNDS: u64 = 1_000_000;

// How often each is measured; the best counts.
const TRIES: u64 = 3;

/// The rounds a second of the best try.
fn best_of(best: u128, tried: Option<Pace>) -> u128 {
    match tried {
        Some(pace) => best.max(pace.a_second()),
        None => best,
    }
}

fn main(rt: HostRuntime) -> io::Result<()> {
    if env::args(&rt)?.nth(1).is_none() {
        return Ok(());
    }
    for own in [true, false] {
        for threads in [1u64, 2, 4, 8] {
            let shape = Shape {
                threads: threads as usize,
                times: ROUNDS / threads,
                own,
            };
            let mut proved = 0;
            let mut plain = 0;
            for _ in 0..TRIES {
                proved = best_of(proved, proved::time_rounds(&rt, rt.alloc(), &shape));
                plain = best_of(plain, plain::time_rounds(&rt, rt.alloc(), &shape));
            }
            let pools = if own { "own pools" } else { "one pool" };
            println!(rt; "{pools}, {threads} threads: {proved} rounds a second, plain {plain}")?;
        }
    }
    Ok(())
}
