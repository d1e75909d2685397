ghost use Rattle.std.specs.Prelude.{◌≡◌, ◌+◌, ◌*◌, ◌/◌, ◌%◌, ◌^◌, ◌-◌, ◌<◌, ◌≤◌, ◌++◌, ◌∷◌, true, false, min, ℕ, List, [], length, IfOk, IfErr, OnOk, OnErr, is_err, Some, None, if◌then◌else◌};
ghost use Rattle.st_sparse.specs.declared.kinds.Pick.TheVariants.{New};
ghost use Rattle.st_rack.specs.Story.{unsettled};
ghost use Rattle.st_shelf.specs.Told.{story_of};
ghost use Rattle.st_sparse.specs.Sectors.{byte_at, is_kept};
ghost use Rattle.st_sparse.specs.Since.{is_torn};

use crate::arms::{Arm, Arms};
use crate::lay::{lay_all_in, lay_all_over};
use crate::sectors::{Sectors, keep, read_kept};
use crate::{Kind, Pick, Torn};
use st_limits::SECTOR_BYTES;
use st_rack::DevFault;
use st_shelf::{Device, Told, tell_settled, tell_write};
use st_units::{DevPath, NoMemory};
use std::alloc::Global;
use std::collections::BTreeMap;
use std::snapshot::Snapshot;

/// A device that keeps the sectors that were written, and the writes since the last sync, the oldest first.
#[derive(Drop)]
pub struct Sparse {
    alloc: Global,
    pub path: DevPath,
    pub size: u64,
    pub kept: Sectors,
    pub since: Vec<Torn>,
    pub reads: u64,
    pub arms: Arms,
    pub story: Snapshot<Told<Sectors>>,
    ghost small: { size < 2 ^ 64 },
    ghost placed: { (i : ℕ) → is_torn since.items i ≡ true → is_kept kept (i / 512) ≡ true },
    ghost told: { (i : ℕ) → is_torn since.items i ≡ true → unsettled (story_of byte_at story.value) i ≡ true },
}

/// Why a write failed: an arm, or besides want of memory.
#[derive(Clone, Copy, Debug, PartialEq, Eq)]
pub struct WriteFault {
    pub short: bool,
}

// What of a write reaches the device.
fn took(fails: bool, pick: Pick) -> Pick
    ensures { result ≡ (if fails then pick else New) }
{
    if fails { pick } else { Pick::New }
}

impl Device for Sparse {
    ghost use Rattle.st_sparse.specs.Sparse.{sparse_path, sparse_size, sparse_state};

    ghost path_of = { sparse_path };

    ghost size = { sparse_size };

    ghost state = { sparse_state };

    fn path(&self) -> &DevPath {
        &self.path
    }
}

impl Sparse {
    ghost use Rattle.st_rack.specs.Story.{Settled, Wrote, put_in};
    ghost use Rattle.st_rack.specs.Device.{cells, Touched, Written, Synced, Cut};
    ghost use Rattle.st_shelf.specs.Shelf.{no_device};
    ghost use Rattle.st_sparse.specs.Since.{content, reached, Adds};
    ghost use Rattle.st_sparse.specs.Arms.{fails, Met};
    ghost use Rattle.st_sparse.specs.declared.kinds.Kind.TheVariants.{Read, Write, Sync};
    ghost use Rattle.st_sparse.specs.Sparse.{sparse_path, sparse_size, sparse_state, sparse_reads, settled};

    /// A device of zeros, with no arms.
    pub fn blank(alloc: Global, path: &DevPath, sectors: u64) -> Result<Sparse, NoMemory>
        ensures path { IfOk result (λ s. sparse_path s ≡ path.now) }
        ensures size { IfOk result (λ s. sparse_size s ≡ sectors) }
        ensures state { IfOk result (λ s. sparse_state s ≡ no_device) }
        ensures reads { IfOk result (λ s. sparse_reads s ≡ 0) }
        ensures arms { IfOk result (λ s. s.arms.list.items ≡ []) }
        ensures works { IfOk result (λ s. s.arms.stopped ≡ false) }
        ensures unwritten { IfOk result (λ s. s.since.items ≡ []) }
    {
        let path = path.copy()?;
        Ok(Sparse {
            alloc,
            path,
            size: sectors,
            kept: BTreeMap::new(alloc),
            since: Vec::new(alloc),
            reads: 0,
            arms: Arms::none(alloc),
            story: Snapshot::of(&Told::Blank),
        })
    }

    /// One more arm.
    pub fn arm(&mut self, arm: Arm) -> Result<(), NoMemory>
        ensures armed { OnOk result (self.new.arms.list.items ≡ self.old.arms.list.items ++ arm ∷ []) }
        ensures refused { OnErr result (self.new.arms.list.items ≡ self.old.arms.list.items) }
        ensures works { self.new.arms.stopped ≡ self.old.arms.stopped }
        ensures state { sparse_state self.new ≡ sparse_state self.old }
        ensures since { self.new.since ≡ self.old.since }
        ensures settled { settled self.new ≡ settled self.old }
        ensures reads { sparse_reads self.new ≡ sparse_reads self.old }
        ensures path { sparse_path self.new ≡ sparse_path self.old }
        ensures size { sparse_size self.new ≡ sparse_size self.old }
    {
        self.arms.push(arm)
    }

    /// Reads whole sectors, and counts the read.
    pub fn read(&mut self, sector: u64, buf: &mut [u8]) -> Result<(), DevFault>
        requires within { 512 * sector + length buf.old ≤ 512 * sparse_size self.old }
        requires whole { length buf.old % 512 ≡ 0 }
        ensures fails { is_err result ≡ fails Read sector (length buf.old / 512) self.old.arms }
        ensures arms { Met Read sector (length buf.old / 512) self.old.arms self.new.arms }
        ensures bytes { OnOk result (buf.new ≡ cells (sparse_state self.old).holds (512 * sector) (length buf.old)) }
        ensures reads { sparse_reads self.new ≡ min (sparse_reads self.old + 1) (2 ^ 64 - 1) }
        ensures state { sparse_state self.new ≡ sparse_state self.old }
        ensures since { self.new.since ≡ self.old.since }
        ensures settled { settled self.new ≡ settled self.old }
        ensures path { sparse_path self.new ≡ sparse_path self.old }
        ensures size { sparse_size self.new ≡ sparse_size self.old }
    {
        self.reads = self.reads.saturating_add(1);
        if self
            .arms
            .meet(Kind::Read, sector, buf.len() as u64 / SECTOR_BYTES)
        {
            return Err(DevFault);
        }
        read_kept(&self.kept, sector, buf);
        lay_all_over(buf, sector, self.since.as_slice());
        Ok(())
    }

    // Takes a write into the list, which wants memory.
    fn tear(&mut self, sector: u64, bytes: &[u8], took: Pick) -> Result<(), NoMemory>
        requires within { 512 * sector + length bytes.now ≤ 512 * sparse_size self.old }
        requires whole { length bytes.now % 512 ≡ 0 }
        ensures taken { OnOk result (Adds sector bytes.now took self.old.since.items self.new.since.items) }
        ensures refused { OnErr result (self.new.since.items ≡ self.old.since.items) }
        ensures settled { settled self.new ≡ settled self.old }
        ensures touched { Touched (512 * sector) bytes.now (sparse_state self.old) (sparse_state self.new) }
        ensures written { OnOk result (took ≡ New → Written (512 * sector) bytes.now (sparse_state self.new)) }
        ensures arms { self.new.arms ≡ self.old.arms }
        ensures reads { sparse_reads self.new ≡ sparse_reads self.old }
        ensures path { sparse_path self.new ≡ sparse_path self.old }
        ensures size { sparse_size self.new ≡ sparse_size self.old }
    {
        tell_write(&mut self.story, sector, bytes);
        let text = Vec::from_slice(self.alloc, bytes)?;
        keep(&mut self.kept, sector, bytes.len() as u64 / SECTOR_BYTES)?;
        let torn = Torn {
            sector,
            bytes: text,
            took,
        };
        self.since.push(torn)?;
        Ok(())
    }

    /// Writes whole sectors. What of them reaches the device where an arm fires is picked; where memory is short, nothing does.
    pub fn write(&mut self, sector: u64, bytes: &[u8], pick: Pick) -> Result<(), WriteFault>
        requires within { 512 * sector + length bytes.now ≤ 512 * sparse_size self.old }
        requires whole { length bytes.now % 512 ≡ 0 }
        ensures done { OnOk result ((fails Write sector (length bytes.now / 512) self.old.arms ≡ false) × Adds sector bytes.now New self.old.since.items self.new.since.items) }
        ensures failed { IfErr result (λ e. e.short ≡ false → (fails Write sector (length bytes.now / 512) self.old.arms ≡ true) × Adds sector bytes.now pick self.old.since.items self.new.since.items) }
        ensures short { IfErr result (λ e. e.short ≡ true → self.new.since.items ≡ self.old.since.items) }
        ensures settled { settled self.new ≡ settled self.old }
        ensures arms { Met Write sector (length bytes.now / 512) self.old.arms self.new.arms }
        ensures written { OnOk result (Written (512 * sector) bytes.now (sparse_state self.new)) }
        ensures touched { Touched (512 * sector) bytes.now (sparse_state self.old) (sparse_state self.new) }
        ensures reads { sparse_reads self.new ≡ sparse_reads self.old }
        ensures path { sparse_path self.new ≡ sparse_path self.old }
        ensures size { sparse_size self.new ≡ sparse_size self.old }
    {
        let fails = self
            .arms
            .meet(Kind::Write, sector, bytes.len() as u64 / SECTOR_BYTES);
        match self.tear(sector, bytes, took(fails, pick)) {
            Ok(()) if fails => Err(WriteFault { short: false }),
            Ok(()) => Ok(()),
            Err(_) => Err(WriteFault { short: true }),
        }
    }

    // Settles what of each write was taken, or is picked now.
    fn settle(&mut self, pick: Option<Pick>)
        ensures held { (sparse_state self.new).holds ≡ content pick self.old.since.items (settled self.old) }
        ensures settled { settled self.new ≡ content pick self.old.since.items (settled self.old) }
        ensures since { self.new.since.items ≡ [] }
        ensures told { (sparse_state self.new).story ≡ Settled (sparse_state self.new).holds (sparse_state self.old).story }
        ensures arms { self.new.arms ≡ self.old.arms }
        ensures reads { sparse_reads self.new ≡ sparse_reads self.old }
        ensures path { sparse_path self.new ≡ sparse_path self.old }
        ensures size { sparse_size self.new ≡ sparse_size self.old }
    {
        lay_all_in(&mut self.kept, self.since.as_slice(), pick);
        self.since.clear();
        tell_settled(&mut self.story, &self.kept);
    }

    /// Settles what the device holds.
    pub fn sync(&mut self) -> Result<(), DevFault>
        ensures fails { is_err result ≡ fails Sync 0 (sparse_size self.old) self.old.arms }
        ensures arms { Met Sync 0 (sparse_size self.old) self.old.arms self.new.arms }
        ensures synced { OnOk result (Synced (sparse_state self.old) (sparse_state self.new)) }
        ensures unsynced { OnErr result (sparse_state self.new ≡ sparse_state self.old) }
        ensures since { OnOk result (self.new.since.items ≡ []) }
        ensures settled { OnOk result (settled self.new ≡ (sparse_state self.old).holds) }
        ensures since_stays { OnErr result (self.new.since.items ≡ self.old.since.items) }
        ensures settled_stays { OnErr result (settled self.new ≡ settled self.old) }
        ensures reads { sparse_reads self.new ≡ sparse_reads self.old }
        ensures path { sparse_path self.new ≡ sparse_path self.old }
        ensures size { sparse_size self.new ≡ sparse_size self.old }
    {
        if self.arms.meet(Kind::Sync, 0, self.size) {
            return Err(DevFault);
        }
        self.settle(None);
        Ok(())
    }

    /// Cuts the power and turns it on again: what of each write since the last sync reached the device is picked now.
    pub fn cycle(&mut self, pick: Pick)
        ensures picked { (sparse_state self.new).holds ≡ content (Some pick) self.old.since.items (settled self.old) }
        ensures cut { Cut (sparse_state self.old) (sparse_state self.new) }
        ensures since { self.new.since.items ≡ [] }
        ensures settled { settled self.new ≡ (sparse_state self.new).holds }
        ensures works { self.new.arms.stopped ≡ false }
        ensures arms { self.new.arms.list.items ≡ self.old.arms.list.items }
        ensures reads { sparse_reads self.new ≡ sparse_reads self.old }
        ensures path { sparse_path self.new ≡ sparse_path self.old }
        ensures size { sparse_size self.new ≡ sparse_size self.old }
    {
        self.settle(Some(pick));
        self.arms.mend();
    }
}
