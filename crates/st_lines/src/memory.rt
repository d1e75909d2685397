ghost use Rattle.std.specs.Prelude.{◌≡◌, ◌≤◌, ◌+◌, ◌-◌, ◌^◌, ◌↔◌, [], Some, length, drop, min, IsErr, Contains};
ghost use Rattle.st_units.specs.Causes.{HasCause, Rose};

use crate::stream::{Failed, Sink, Source};
use std::alloc::Global;

/// The calls of a source or a sink that are to fail, by their numbers from 1.
#[derive(Drop)]
struct Plan {
    failing: Vec<u64>,
    calls: u64,
    faults: u64,
}

impl Plan {
    fn new(failing: Vec<u64>) -> Self
        ensures failing { result.failing.items ≡ failing.items }
        ensures none { (result.calls ≡ 0) × (result.faults ≡ 0) }
    {
        Plan {
            failing,
            calls: 0,
            faults: 0,
        }
    }

    /// Counts a call, and fails it where its number is in the list.
    fn call(&mut self) -> Result<(), Failed>
        ensures list { self.new.failing ≡ self.old.failing }
        ensures counted { self.new.calls ≡ min (self.old.calls + 1) (2 ^ 64 - 1) }
        ensures fails { IsErr result ↔ Contains self.new.failing.items self.new.calls }
        ensures cause { HasCause self.old.faults self.new.faults result }
    {
        self.calls = self.calls.saturating_add(1);
        if self.failing.contains(&self.calls) {
            self.count_fault();
            return Err(Failed);
        }
        Ok(())
    }

    fn count_fault(&mut self)
        ensures list { self.new.failing ≡ self.old.failing }
        ensures calls { self.new.calls ≡ self.old.calls }
        ensures later { self.old.faults ≤ self.new.faults }
        ensures rose { Rose self.old.faults self.new.faults }
    {
        self.faults = self.faults.saturating_add(1);
    }
}

/// A source over bytes in memory, which tells them and fails at planned calls.
#[derive(Drop)]
pub struct MemorySource {
    bytes: Vec<u8>,
    given: usize,
    piece: usize,
    plan: Plan,
    ghost within: { given ≤ length bytes.items },
}

impl MemorySource {
    /// Gives `piece` bytes at a time, where that is none one byte; `failing` has the numbers of
    /// the calls that fail, from 1.
    pub fn new(bytes: Vec<u8>, piece: usize, failing: Vec<u64>) -> Self
        ensures left { ⟦<MemorySource as Source>⟧.left result ≡ Some bytes.items }
        ensures faults { ⟦<MemorySource as Source>⟧.faults result ≡ 0 }
        ensures failing { result.plan.failing.items ≡ failing.items }
        ensures calls { result.plan.calls ≡ 0 }
    {
        MemorySource {
            bytes,
            given: 0,
            piece,
            plan: Plan::new(failing),
        }
    }
}

impl Source for MemorySource {
    ghost left = { λ s. Some (drop s.given s.bytes.items) };

    ghost faults = { λ s. s.plan.faults };

    fn next(&mut self, buf: &mut [u8]) -> Result<usize, Failed> {
        self.plan.call()?;
        let rest = &self.bytes[self.given..];
        let count = buf.len().min(rest.len()).min(self.piece.max(1));
        buf[..count].copy_from_slice(&rest[..count]);
        self.given += count;
        Ok(count)
    }
}

/// A sink that keeps its bytes in memory, tells them, and fails at planned calls.
#[derive(Drop)]
pub struct MemorySink {
    bytes: Vec<u8>,
    piece: usize,
    plan: Plan,
}

impl MemorySink {
    /// Takes `piece` bytes at a time, where that is none one byte; `failing` has the numbers of
    /// the calls that fail, from 1.
    pub fn new(alloc: Global, piece: usize, failing: Vec<u64>) -> Self
        ensures held { ⟦<MemorySink as Sink>⟧.held result ≡ Some [] }
        ensures faults { ⟦<MemorySink as Sink>⟧.faults result ≡ 0 }
        ensures failing { result.plan.failing.items ≡ failing.items }
        ensures calls { result.plan.calls ≡ 0 }
    {
        MemorySink {
            bytes: Vec::new(alloc),
            piece,
            plan: Plan::new(failing),
        }
    }

    /// The bytes that were put.
    pub fn bytes(&self) -> &[u8]
        ensures { ⟦<MemorySink as Sink>⟧.held self.now ≡ Some result.now }
    {
        self.bytes.as_slice()
    }
}

impl Sink for MemorySink {
    ghost held = { λ s. Some s.bytes.items };

    ghost faults = { λ s. s.plan.faults };

    fn put(&mut self, bytes: &[u8]) -> Result<usize, Failed> {
        self.plan.call()?;
        let count = bytes.len().min(self.piece.max(1));
        if self.bytes.extend_from_slice(&bytes[..count]).is_err() {
            self.plan.count_fault();
            return Err(Failed);
        }
        Ok(count)
    }
}
