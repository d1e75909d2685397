// What is measured of either lock.
ghost use Rattle.std.specs.Prelude.{◌<◌, IfSome};
ghost use Rattle.st_model.specs.Sound.{IsSound};

use st_model::Call;
use st_units::Name;
use std::alloc::Global;
use std::time::Instant;

/// How many threads run how many rounds each, and whether each has a pool of its own.
#[derive(Drop)]
pub struct Shape {
    pub threads: usize,
    pub times: u64,
    pub own: bool,
}

impl Shape {
    /// Which pool is a thread's.
    fn pool(&self, thread: usize) -> u8
        ensures { result < 8 }
    {
        if self.own { (thread % 8) as u8 } else { 0 }
    }

    /// The call of a thread's rounds.
    pub fn call(&self, alloc: Global, thread: usize) -> Option<Call>
        ensures { IfSome result (λ call. IsSound call) }
    {
        let bytes = [b'p', b'o', b'o', b'l', b'0' + self.pool(thread)];
        match Name::read(alloc, &bytes) {
            Ok(pool) => Some(Call::Check { pool }),
            Err(_) => None,
        }
    }
}

/// How many rounds took how long.
#[derive(Drop)]
pub struct Pace {
    pub rounds: usize,
    pub micros: u128,
}

impl Pace {
    /// The pace of so many rounds between two moments.
    pub fn between(start: Instant, end: Instant, rounds: usize) -> Pace {
        Pace {
            rounds,
            micros: end.saturating_duration_since(start).as_micros(),
        }
    }

    /// Rounds a second.
    pub fn a_second(&self) -> u128 {
        self.rounds as u128 * 1_000_000 / self.micros.max(1)
    }
}
