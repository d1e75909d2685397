ghost use Rattle.std.specs.Prelude.{◌≡◌, ◌+◌, ◌-◌, ◌^◌, ◌<◌, ◌≤◌, min, ℕ, IfOk, true, false, [], length, vec_capacity, vec_len, if◌then◌else◌};
ghost use Rattle.std.proofs.Props.{props};
ghost use Rattle.st_rack.specs.Calls.{Rises};
ghost use Rattle.st_shelf.specs.Shelf.{rows_of};
ghost use Rattle.st_sparse.specs.Sparse.{sparse_path, sparse_size, sparse_state, sparse_reads};
ghost use Rattle.std.specs.List.{AllByRecursion};
ghost use Rattle.st_sparse.specs.declared.kinds.Pick.TheVariants.{New};
ghost use Rattle.st_memrack.specs.Blank.{AreDistinct, Filled, IsUnarmed};

use crate::Record;
use crate::one_device::{arm_on, cycle_all, read_on, sync_on, write_on};
use st_limits::SECTOR_BYTES;
use st_rack::{DevFault, Rack};
use st_shelf::{Past, copied, find, insert, remember, remember_joined, take_in, take_out};
use st_sparse::{Arm, How, Kind, Pick, Sparse};
use st_units::{DevList, DevPath, NoMemory};
use std::alloc::Global;
use std::snapshot::Snapshot;

/// A rack of sparse devices that fail where they are told to.
#[derive(Drop)]
pub struct MemRack {
    devices: Vec<Sparse>,
    past: Snapshot<Past<Sparse>>,
    pick: Pick,
    faults: u64,
    short: u64,
    calls: Record,
    ghost rises: { Rises (rows_of sparse_path sparse_size devices.items) } by { Prim.hlevel props },
}

// From the last on, so that at each step the list has the devices from `left` on.
fn blank_devices(alloc: Global, devs: &[(DevPath, u64)]) -> Result<Vec<Sparse>, NoMemory>
    requires { AreDistinct devs.now }
    ensures filled { IfOk result (λ v. Filled sparse_path sparse_size sparse_state sparse_reads devs.now 0 v.items) }
    ensures unarmed { IfOk result (λ v. AllByRecursion IsUnarmed v.items) }
{
    let mut devices = Vec::with_capacity(alloc, devs.len())?;
    let mut left = devs.len();
    while left > 0 {
        left -= 1;
        let device = Sparse::blank(alloc, &devs[left].0, devs[left].1)?;
        insert(&mut devices, device);
    }
    Ok(devices)
}

// A count after a call that perhaps failed.
fn raised(failed: bool, count: u64) -> u64
    ensures { result ≡ (if failed then min (count + 1) (2 ^ 64 - 1) else count) }
{
    if failed {
        count.saturating_add(1)
    } else {
        count
    }
}

impl MemRack {
    ghost use Rattle.st_rack.specs.Calls.{Has};
    ghost use Rattle.st_rack.specs.Parts.{IsSame};
    ghost use Rattle.st_sparse.specs.Arms.{new_arm};
    ghost use Rattle.st_memrack.specs.Blank.{IsBlank};
    ghost use Rattle.st_memrack.specs.MemRack.{mem_list, mem_devs, mem_moment, mem_state_at, mem_faults, mem_reads, mem_spare};
    ghost use Rattle.st_memrack.specs.Exact.{ArmsOn};

    /// A rack of these devices, each given by its path and its sectors, of zeros and with no arms. What a failed write and a
    /// power cut leave is picked as `New`, and calls aren't recorded before the first mark.
    pub fn blank(alloc: Global, devs: &[(DevPath, u64)]) -> Result<MemRack, NoMemory>
        requires { AreDistinct devs.now }
        ensures blank { IfOk result (λ r. IsBlank mem_devs mem_moment mem_state_at mem_reads devs.now r) }
        ensures faults { IfOk result (λ r. r.faults ≡ 0) }
        ensures short { IfOk result (λ r. r.short ≡ 0) }
        ensures unarmed { IfOk result (λ r. AllByRecursion IsUnarmed (mem_list r)) }
        ensures pick { IfOk result (λ r. r.pick ≡ New) }
        ensures unmarked { IfOk result (λ r. r.calls.on ≡ false) }
        ensures no_calls { IfOk result (λ r. r.calls.calls.items ≡ []) }
        ensures none_missed { IfOk result (λ r. r.calls.missed ≡ 0) }
    {
        let devices = blank_devices(alloc, devs)?;
        Ok(MemRack {
            devices,
            past: Snapshot::of(&Past::Start),
            pick: Pick::New,
            faults: 0,
            short: 0,
            calls: Record::make(alloc, false),
        })
    }

    /// Lets the call of that kind fail on a device that touches a sector from `first` to `last`, after `skip` such calls; a sync
    /// touches every sector. With `How::Stop` every later call on the device fails, until the power is cut.
    pub fn arm(
        &mut self,
        dev: &DevPath,
        kind: Kind,
        first: u64,
        last: u64,
        skip: u64,
        how: How,
    ) -> Result<(), NoMemory>
        requires { (n : ℕ) × Has (mem_devs self.old) dev.now n }
        ensures armed { ArmsOn dev.now (new_arm kind first last skip how) result self.old self.new }
        ensures same { IsSame mem_devs mem_moment mem_state_at mem_reads self.old self.new }
        ensures spare { mem_spare self.new ≡ mem_spare self.old }
    {
        let arm = Arm {
            kind,
            first,
            last,
            skip,
            how,
            spent: false,
        };
        arm_on(&mut self.devices, dev, arm)
    }

    /// Says what of an unsynced write reaches the device where a write fails, and at a power cut.
    pub fn pick(&mut self, pick: Pick)
        ensures pick { self.new.pick ≡ pick }
        ensures devices { mem_list self.new ≡ mem_list self.old }
        ensures faults { self.new.faults ≡ self.old.faults }
        ensures short { self.new.short ≡ self.old.short }
        ensures calls { self.new.calls ≡ self.old.calls }
        ensures same { IsSame mem_devs mem_moment mem_state_at mem_reads self.old self.new }
        ensures spare { mem_spare self.new ≡ mem_spare self.old }
    {
        self.pick = pick;
    }

    /// How often a device has failed.
    pub fn faults(&self) -> u64
        ensures { result ≡ mem_faults self.now }
    {
        self.faults
    }

    /// How many writes failed since memory was short; `faults` counts them too.
    pub fn short(&self) -> u64
        ensures { result ≡ self.now.short }
    {
        self.short
    }

    /// How often a device was read: 0 for one that the rack doesn't have.
    pub fn reads_of(&self, dev: &DevPath) -> u64
        ensures { result ≡ mem_reads self.now dev.now }
    {
        match find(&self.devices, dev) {
            Some(i) => self.devices[i].reads,
            None => 0,
        }
    }

    /// Forgets what was recorded, and records each call from now on.
    pub fn mark(&mut self)
        ensures on { self.new.calls.on ≡ true }
        ensures none { self.new.calls.calls.items ≡ [] }
        ensures missed { self.new.calls.missed ≡ 0 }
        ensures devices { mem_list self.new ≡ mem_list self.old }
        ensures faults { self.new.faults ≡ self.old.faults }
        ensures short { self.new.short ≡ self.old.short }
        ensures pick { self.new.pick ≡ self.old.pick }
        ensures same { IsSame mem_devs mem_moment mem_state_at mem_reads self.old self.new }
        ensures spare { mem_spare self.new ≡ mem_spare self.old }
    {
        self.calls.mark();
    }

    /// The calls since the last mark. Those of a rack that was taken in count as missed.
    pub fn record(&self) -> &Record
        ensures { result.now ≡ self.now.calls }
    {
        &self.calls
    }
}

impl Rack for MemRack {
    ghost use Rattle.std.specs.Prelude.{◌*◌, ◌/◌, ◌≢◌, true, false, OnOk, OnErr, is_err, IsNone};
    ghost use Rattle.std.specs.Str.{bytes_eq};
    ghost use Rattle.std.specs.List.{IsDistinct};
    ghost use Rattle.st_rack.specs.Device.{Path, cells, Touched, Written, Settling, Synced};
    ghost use Rattle.st_rack.specs.Moments.{Goes, OnDevice, AllCut};
    ghost use Rattle.st_units.specs.Causes.{HasCause, Rose};
    ghost use Rattle.st_rack.specs.Calls.{Has, IsWithin, names, sectors_of};
    ghost use Rattle.st_rack.specs.Parts.{IsSame, Splits, AreApart, Joins};
    ghost use Rattle.st_memrack.specs.MemRack.{mem_list, mem_devs, mem_moment, mem_state_at, mem_faults, mem_reads, mem_spare};
    ghost use Rattle.st_memrack.specs.Exact.{SameRest, ReadsOn, WritesOn, SyncsOn, SplitsOff, Absorbs, Cycles};

    ghost devs = { mem_devs };

    ghost moment = { mem_moment };

    ghost state_at = { mem_state_at };

    ghost faults = { mem_faults };

    ghost reads = { mem_reads };

    ghost spare = { mem_spare };

    fn devices(&self) -> usize {
        self.devices.len()
    }

    fn path_of(&self, index: usize) -> &DevPath {
        &self.devices[index].path
    }

    fn sectors(&self, dev: &DevPath) -> Option<u64> {
        match find(&self.devices, dev) {
            Some(i) => Some(self.devices[i].size),
            None => None,
        }
    }

    // Each call has the trait's clauses, and one that says what the rack does beyond them.
    fn read(&mut self, dev: &DevPath, sector: u64, buf: &mut [u8]) -> Result<(), DevFault>
        requires { IsWithin (mem_devs self.old) dev.now sector (length buf.old) }
        ensures bytes { OnOk result (buf.new ≡ cells (mem_state_at self.old (mem_moment self.old) dev.now).holds (512 * sector) (length buf.old)) }
        ensures devs { mem_devs self.new ≡ mem_devs self.old }
        ensures clock { mem_moment self.new ≡ mem_moment self.old }
        ensures states { mem_state_at self.new ≡ mem_state_at self.old }
        ensures counted { Rose (mem_reads self.old dev.now) (mem_reads self.new dev.now) }
        ensures others { (p : Path) → p ≢ dev.now → mem_reads self.new p ≡ mem_reads self.old p }
        ensures spare { mem_spare self.new ≡ mem_spare self.old }
        ensures cause { HasCause (mem_faults self.old) (mem_faults self.new) result }
        ensures exact { ReadsOn dev.now sector buf.old buf.new result self.old self.new }
    {
        let sectors = buf.len() as u64 / SECTOR_BYTES;
        let result = read_on(&mut self.devices, dev, sector, buf);
        self.faults = raised(result.is_err(), self.faults);
        self.calls
            .note(dev, Kind::Read, sector, sectors, result.is_err());
        result
    }

    fn write(&mut self, dev: &DevPath, sector: u64, bytes: &[u8]) -> Result<(), DevFault>
        requires { IsWithin (mem_devs self.old) dev.now sector (length bytes.now) }
        ensures written { OnOk result (Written (512 * sector) bytes.now (mem_state_at self.new (mem_moment self.new) dev.now)) }
        ensures touched { OnDevice dev.now (Touched (512 * sector) bytes.now) (mem_state_at self.old (mem_moment self.old)) (mem_state_at self.new (mem_moment self.new)) }
        ensures time { Goes mem_moment mem_state_at (OnDevice dev.now (Touched (512 * sector) bytes.now)) self.old self.new }
        ensures devs { mem_devs self.new ≡ mem_devs self.old }
        ensures reads { mem_reads self.new ≡ mem_reads self.old }
        ensures spare { mem_spare self.new ≡ mem_spare self.old }
        ensures cause { HasCause (mem_faults self.old) (mem_faults self.new) result }
        ensures exact { WritesOn dev.now sector bytes.now result self.old self.new }
    {
        let sectors = bytes.len() as u64 / SECTOR_BYTES;
        remember(&self.devices, &mut self.past);
        match write_on(&mut self.devices, dev, sector, bytes, self.pick) {
            Ok(()) => {
                self.calls.note(dev, Kind::Write, sector, sectors, false);
                Ok(())
            }
            Err(fault) => {
                self.faults = raised(true, self.faults);
                self.short = raised(fault.short, self.short);
                self.calls.note(dev, Kind::Write, sector, sectors, true);
                Err(DevFault)
            }
        }
    }

    fn sync(&mut self, dev: &DevPath) -> Result<(), DevFault>
        requires { (n : ℕ) × Has (mem_devs self.old) dev.now n }
        ensures synced { OnOk result (Synced (mem_state_at self.old (mem_moment self.old) dev.now) (mem_state_at self.new (mem_moment self.new) dev.now)) }
        ensures unsynced { OnErr result (mem_state_at self.new (mem_moment self.new) dev.now ≡ mem_state_at self.old (mem_moment self.old) dev.now) }
        ensures time { Goes mem_moment mem_state_at (OnDevice dev.now Settling) self.old self.new }
        ensures devs { mem_devs self.new ≡ mem_devs self.old }
        ensures reads { mem_reads self.new ≡ mem_reads self.old }
        ensures spare { mem_spare self.new ≡ mem_spare self.old }
        ensures cause { HasCause (mem_faults self.old) (mem_faults self.new) result }
        ensures exact { SyncsOn dev.now result self.old self.new }
    {
        remember(&self.devices, &mut self.past);
        let result = sync_on(&mut self.devices, dev);
        self.faults = raised(result.is_err(), self.faults);
        self.calls.note(dev, Kind::Sync, 0, 0, result.is_err());
        result
    }

    fn reserve(&mut self, devices: usize) -> Result<(), NoMemory>
        ensures ok { OnOk result (devices ≤ mem_spare self.new) }
        ensures no_fewer { mem_spare self.old ≤ mem_spare self.new }
        ensures same { IsSame mem_devs mem_moment mem_state_at mem_reads self.old self.new }
        ensures faults { mem_faults self.new ≡ mem_faults self.old }
        ensures rest { SameRest self.old self.new }
        ensures list { mem_list self.new ≡ mem_list self.old }
    {
        self.devices.reserve(devices)?;
        Ok(())
    }

    fn split_off(&mut self, alloc: Global, list: &DevList) -> Result<Self, NoMemory>
        requires distinct { IsDistinct bytes_eq list.now }
        requires there { (p : Path) → names list.now p ≡ true → (n : ℕ) × Has (mem_devs self.old) p n }
        ensures parts { IfOk result (λ part. Splits mem_devs mem_moment mem_state_at list.now self.old self.new part) }
        ensures places { IfOk result (λ part. mem_spare self.old + length (mem_devs part) ≤ mem_spare self.new) }
        ensures reads { IfOk result (λ part. (p : Path) → names list.now p ≡ false → mem_reads self.new p ≡ mem_reads self.old p) }
        ensures reads_gone { IfOk result (λ part. (p : Path) → names list.now p ≡ true → mem_reads part p ≡ mem_reads self.old p) }
        ensures faults_gone { IfOk result (λ part. mem_faults part ≡ 0) }
        ensures refused { OnErr result (IsSame mem_devs mem_moment mem_state_at mem_reads self.old self.new) }
        ensures no_fewer { mem_spare self.old ≤ mem_spare self.new }
        ensures faults { mem_faults self.new ≡ mem_faults self.old }
        ensures exact { IfOk result (λ part. SplitsOff list.now self.old self.new part) }
        ensures refused_list { OnErr result (mem_list self.new ≡ mem_list self.old) }
        ensures rest { SameRest self.old self.new }
    {
        let mut part = Vec::with_capacity(alloc, self.devices.len())?;
        take_out(&mut self.devices, list, &mut part);
        Ok(MemRack {
            devices: part,
            past: copied(&self.past),
            pick: self.pick,
            faults: 0,
            short: 0,
            calls: Record::make(alloc, self.calls.on),
        })
    }

    fn absorb(&mut self, other: Self)
        requires apart { AreApart mem_devs self.old other }
        requires room { length (mem_devs other) ≤ mem_spare self.old }
        ensures joined { Joins mem_devs mem_moment mem_state_at self.old other self.new }
        ensures places { mem_spare self.old ≤ mem_spare self.new + length (mem_devs other) }
        ensures reads { (p : Path) → IsNone (sectors_of (mem_devs other) p) → mem_reads self.new p ≡ mem_reads self.old p }
        ensures reads_others { (p : Path) (n : ℕ) → Has (mem_devs other) p n → mem_reads self.new p ≡ mem_reads other p }
        ensures faults { mem_faults self.new ≡ min (mem_faults self.old + mem_faults other) (2 ^ 64 - 1) }
        ensures exact { Absorbs self.old other self.new }
    {
        let MemRack {
            devices: mut others,
            past: _,
            pick: _,
            faults,
            short,
            calls,
        } = other;
        remember_joined(&self.devices, &others, &mut self.past);
        take_in(&mut self.devices, &mut others);
        self.faults = self.faults.saturating_add(faults);
        self.short = self.short.saturating_add(short);
        self.calls.miss(&calls);
    }

    fn cycle(&mut self)
        ensures cut { AllCut (mem_devs self.old) (mem_state_at self.old (mem_moment self.old)) (mem_state_at self.new (mem_moment self.new)) }
        ensures time { Goes mem_moment mem_state_at (AllCut (mem_devs self.old)) self.old self.new }
        ensures devs { mem_devs self.new ≡ mem_devs self.old }
        ensures reads { mem_reads self.new ≡ mem_reads self.old }
        ensures spare { mem_spare self.new ≡ mem_spare self.old }
        ensures faults { mem_faults self.new ≡ mem_faults self.old }
        ensures exact { Cycles self.old self.new }
    {
        remember(&self.devices, &mut self.past);
        cycle_all(&mut self.devices, self.pick);
    }
}
