ghost use Rattle.std.specs.Prelude.{◌≡◌, ◌+◌, ◌^◌, ◌<◌, ◌||◌, ◌&&◌, ◌++◌, ◌∷◌, [], false, OnOk, OnErr};

use crate::{How, Kind};
use st_units::NoMemory;
use std::alloc::Global;

/// A call that is to fail: of this kind, touching a sector from `first` to `last`, after `skip` such calls.
#[derive(Clone, Copy)]
pub struct Arm {
    pub kind: Kind,
    pub first: u64,
    pub last: u64,
    pub skip: u64,
    pub how: How,
    /// It has fired.
    pub spent: bool,
}

/// The arms of a device.
#[derive(Drop)]
pub struct Arms {
    pub list: Vec<Arm>,
    /// Every call fails.
    pub stopped: bool,
}

// What the arms so far do at a call.
#[derive(Clone, Copy)]
struct Tally {
    fires: bool,
    stops: bool,
}

impl Arm {
    ghost use Rattle.st_sparse.specs.Arms.{touches, is_due, after_call, stops};

    fn touches(&self, kind: Kind, sector: u64, sectors: u64) -> bool
        requires { sector + sectors < 2 ^ 64 }
        ensures { result ≡ touches kind sector sectors self.now }
    {
        self.kind == kind
            && self.first.max(sector) <= self.last
            && self.first.max(sector) < sector + sectors
    }

    // Meets a call, and says if it fires.
    fn fires(&mut self, kind: Kind, sector: u64, sectors: u64) -> bool
        requires { sector + sectors < 2 ^ 64 }
        ensures fires { result ≡ is_due kind sector sectors self.old }
        ensures after { self.new ≡ after_call kind sector sectors self.old }
    {
        if self.spent || !self.touches(kind, sector, sectors) {
            return false;
        }
        if self.skip > 0 {
            self.skip -= 1;
            return false;
        }
        self.spent = true;
        true
    }

    fn stops(&self) -> bool
        ensures { result ≡ stops self.now }
    {
        self.how == How::Stop
    }

    fn meet(&mut self, kind: Kind, sector: u64, sectors: u64, met: &mut Tally)
        requires { sector + sectors < 2 ^ 64 }
        ensures fires { met.new.fires ≡ (met.old.fires || is_due kind sector sectors self.old) }
        ensures stops { met.new.stops ≡ (met.old.stops || (is_due kind sector sectors self.old && stops self.old)) }
        ensures after { self.new ≡ after_call kind sector sectors self.old }
    {
        let stops = self.stops();
        if self.fires(kind, sector, sectors) {
            met.fires = true;
            met.stops = met.stops || stops;
        }
    }
}

impl Arms {
    ghost use Rattle.st_sparse.specs.Arms.{fails, Met};

    pub fn none(alloc: Global) -> Arms
        ensures none { result.list.items ≡ [] }
        ensures works { result.stopped ≡ false }
    {
        Arms {
            list: Vec::new(alloc),
            stopped: false,
        }
    }

    /// One more arm.
    pub fn push(&mut self, arm: Arm) -> Result<(), NoMemory>
        ensures ok { OnOk result (self.new.list.items ≡ self.old.list.items ++ arm ∷ []) }
        ensures err { OnErr result (self.new.list.items ≡ self.old.list.items) }
        ensures stopped { self.new.stopped ≡ self.old.stopped }
    {
        self.list.push(arm)?;
        Ok(())
    }

    /// Meets a call, and says if it is to fail.
    pub fn meet(&mut self, kind: Kind, sector: u64, sectors: u64) -> bool
        requires { sector + sectors < 2 ^ 64 }
        ensures fails { result ≡ fails kind sector sectors self.old }
        ensures met { Met kind sector sectors self.old self.new }
    {
        let mut met = Tally {
            fires: self.stopped,
            stops: self.stopped,
        };
        for i in 0..self.list.len() {
            self.list[i].meet(kind, sector, sectors, &mut met);
        }
        self.stopped = met.stops;
        met.fires
    }

    /// The device works again.
    pub fn mend(&mut self)
        ensures works { self.new.stopped ≡ false }
        ensures arms { self.new.list.items ≡ self.old.list.items }
    {
        self.stopped = false;
    }
}
