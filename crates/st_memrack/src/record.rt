ghost use Rattle.std.specs.Prelude.{◌≡◌, ◌+◌, ◌-◌, ◌^◌, min, ℕ, [], false, true, length, OnOk, OnErr};

use st_sparse::Kind;
use st_units::{DevPath, NoMemory};
use std::alloc::Global;

/// A call of a device: its sectors (0 and 0 for a sync), and whether it failed.
#[derive(Drop)]
pub struct DeviceCall {
    pub dev: DevPath,
    pub kind: Kind,
    pub sector: u64,
    pub sectors: u64,
    pub failed: bool,
}

/// The calls since the last mark, in order, but for those that were missed since memory was short. With no mark there are none.
#[derive(Drop)]
pub struct Record {
    pub on: bool,
    pub calls: Vec<DeviceCall>,
    pub missed: u64,
}

impl Record {
    ghost use Rattle.st_memrack.specs.Record.{Noted, Takes};

    pub fn make(alloc: Global, on: bool) -> Record
        ensures on { result.on ≡ on }
        ensures none { result.calls.items ≡ [] }
        ensures missed { result.missed ≡ 0 }
    {
        Record {
            on,
            calls: Vec::new(alloc),
            missed: 0,
        }
    }

    /// Forgets what was recorded, and records from now on.
    pub fn mark(&mut self)
        ensures on { self.new.on ≡ true }
        ensures none { self.new.calls.items ≡ [] }
        ensures missed { self.new.missed ≡ 0 }
    {
        self.on = true;
        self.calls.clear();
        self.missed = 0;
    }

    fn take(
        &mut self,
        dev: &DevPath,
        kind: Kind,
        sector: u64,
        sectors: u64,
        failed: bool,
    ) -> Result<(), NoMemory>
        ensures taken { OnOk result (Takes dev.now kind sector sectors failed self.old.calls.items self.new.calls.items) }
        ensures refused { OnErr result (self.new.calls.items ≡ self.old.calls.items) }
        ensures missed { self.new.missed ≡ self.old.missed }
        ensures on { self.new.on ≡ self.old.on }
    {
        let dev = dev.copy()?;
        self.calls.push(DeviceCall {
            dev,
            kind,
            sector,
            sectors,
            failed,
        })?;
        Ok(())
    }

    /// Notes a call, where calls are recorded.
    pub fn note(&mut self, dev: &DevPath, kind: Kind, sector: u64, sectors: u64, failed: bool)
        ensures { Noted dev.now kind sector sectors failed self.old self.new }
    {
        if !self.on {
            return;
        }
        match self.take(dev, kind, sector, sectors, failed) {
            Ok(()) => {}
            Err(_) => self.missed = self.missed.saturating_add(1),
        }
    }

    /// Counts the calls of another record as missed, where calls are recorded.
    pub fn miss(&mut self, other: &Record)
        ensures calls { self.new.calls.items ≡ self.old.calls.items }
        ensures on { self.new.on ≡ self.old.on }
        ensures off { self.old.on ≡ false → self.new.missed ≡ self.old.missed }
        ensures missed { self.old.on ≡ true → self.new.missed ≡ min (self.old.missed + min (length other.now.calls.items + other.now.missed) (2 ^ 64 - 1)) (2 ^ 64 - 1) }
    {
        if self.on {
            let calls = (other.calls.len() as u64).saturating_add(other.missed);
            self.missed = self.missed.saturating_add(calls);
        }
    }
}
