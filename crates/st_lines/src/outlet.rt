ghost use Rattle.std.specs.Prelude.{ℕ, List, ◌≡◌, ◌++◌, ◌+◌, ◌≤◌, length, [], take, IfOk, OnOk, OnErr};
ghost use Rattle.std.specs.Io.KnownBytes.{Appends};
ghost use Rattle.st_units.specs.Causes.{HasCause};
ghost use Rattle.st_lines.specs.Printing.{Prints, Stops};

use crate::put::put_all;
use crate::stream::{Failed, Sink};
use st_units::NoMemory;
use std::alloc::Global;
use std::marker::Model;
use thiserror::Error;

/// Why an output wasn't written.
#[derive(Clone, Copy, Debug, PartialEq, Eq, Error)]
pub enum WriteStop {
    #[error("write fault")]
    Fault,
    #[error("out of memory")]
    OutOfMemory,
}

impl From<Failed> for WriteStop {
    ghost use Rattle.std.specs.Prelude.{◌≡◌};
    ghost use Rattle.st_lines.specs.declared.outlet.WriteStop.TheVariants.{Fault};

    ghost from_gives = { λ _ e. e ≡ Fault };

    fn from(_failed: Failed) -> WriteStop {
        WriteStop::Fault
    }
}

impl From<NoMemory> for WriteStop {
    ghost use Rattle.std.specs.Prelude.{◌≡◌};
    ghost use Rattle.st_lines.specs.declared.outlet.WriteStop.TheVariants.{OutOfMemory};

    ghost from_gives = { λ _ e. e ≡ OutOfMemory };

    fn from(_refused: NoMemory) -> WriteStop {
        WriteStop::OutOfMemory
    }
}

/// How many bytes an outlet holds back at most.
const ROOM: usize = 65_536;

/// Bytes that wait until there are enough of them for a large put. It takes memory only when it
/// is made.
#[derive(Drop)]
pub struct Outlet {
    waiting: Vec<u8>,
}

impl Model for Outlet {
    ghost use Rattle.std.specs.Prelude.{ℕ, List, ◌≤◌, length, vec_capacity};

    ghost Value = { List ℕ };

    ghost view = { λ s. s.waiting.items };

    ghost invariant = { λ s. (length s.waiting.items ≤ 65536) × (65536 ≤ vec_capacity s.waiting) };
}

impl Outlet {
    pub fn make(alloc: Global) -> Result<Outlet, NoMemory>
        ensures { IfOk result (λ outlet. outlet ≡ []) }
    {
        let waiting = Vec::with_capacity(alloc, ROOM)?;
        Ok(Outlet { waiting })
    }

    /// Takes bytes, and puts what waits where they don't fit behind it.
    pub fn take<K: Sink>(&mut self, sink: &mut K, bytes: &[u8]) -> Result<(), Failed>
        ensures ok { OnOk result ((sent : List ℕ) × Appends (K.held sink.old) (K.held sink.new) sent × (self.old ++ bytes.now ≡ sent ++ self.new)) }
        ensures err { OnErr result ((n : ℕ) × Appends (K.held sink.old) (K.held sink.new) (take n (self.old ++ bytes.now))) }
        ensures cause { HasCause (K.faults sink.old) (K.faults sink.new) result }
    {
        if bytes.len() <= ROOM - self.waiting.len() {
            self.keep(bytes);
            return Ok(());
        }
        self.flush(sink)?;
        if bytes.len() <= ROOM {
            self.keep(bytes);
            return Ok(());
        }
        put_all(sink, bytes)
    }

    /// Takes bytes, as the next piece of an output.
    pub fn print<K: Sink>(&mut self, sink: &mut K, text: &[u8]) -> Result<(), Failed>
        ensures prints { OnOk result (Prints (K.held sink.old) self.old (K.held sink.new) self.new text.now) }
        ensures stops { OnErr result (Stops (K.held sink.old) self.old (K.held sink.new) text.now) }
        ensures cause { HasCause (K.faults sink.old) (K.faults sink.new) result }
    {
        self.take(sink, text)
    }

    /// Puts all that waits.
    pub fn flush<K: Sink>(&mut self, sink: &mut K) -> Result<(), Failed>
        ensures ok { OnOk result (Appends (K.held sink.old) (K.held sink.new) self.old × (self.new ≡ [])) }
        ensures err { OnErr result ((n : ℕ) × Appends (K.held sink.old) (K.held sink.new) (take n self.old)) }
        ensures cause { HasCause (K.faults sink.old) (K.faults sink.new) result }
    {
        put_all(sink, self.waiting.as_slice())?;
        self.waiting.truncate(0);
        Ok(())
    }

    fn keep(&mut self, bytes: &[u8])
        requires { length self.old + length bytes.now ≤ ROOM }
        ensures { self.new ≡ self.old ++ bytes.now }
    {
        if self.waiting.extend_from_slice(bytes).is_err() {
            unreachable!()
        }
    }
}
