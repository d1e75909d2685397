ghost use Rattle.std.specs.Prelude.{◌≡◌, ◌≤◌, ◌^◌};

use std::marker::Model;

/// The serial of a pool: a number from 1 to 2^48, given once in an engine's life.
#[derive(Clone, Copy)]
pub struct PoolSerial {
    number: u64,
}

impl Model for PoolSerial {
    ghost use Rattle.std.specs.Prelude.{ℕ, ◌≤◌, ◌^◌};

    ghost Value = { ℕ };

    ghost view = { λ s. s.number };

    ghost inverse = { λ n. record { number = n } };

    ghost invariant = { λ s. (1 ≤ s.number) × (s.number ≤ 2 ^ 48) };
}

impl PoolSerial {
    /// The greatest serial.
    pub const LAST: u64 = 1 << 48;

    /// The serial with this number.
    pub fn of(n: u64) -> PoolSerial
        requires first { 1 ≤ n }
        requires last { n ≤ 2 ^ 48 }
        ensures { result ≡ n }
    {
        PoolSerial { number: n }
    }

    /// Its number, from 1 to 2^48.
    pub fn number(&self) -> u64
        ensures value { result ≡ self.now }
        ensures first { 1 ≤ self.now }
        ensures last { self.now ≤ 2 ^ 48 }
    {
        self.number
    }
}
