ghost use Rattle.std.specs.Prelude.{◌≡◌, ◌+◌, ◌*◌, ◌<◌, ◌≤◌, ◌-◌, ◌^◌, min, length, IfOk};
ghost use Rattle.st_limits.specs.declared.TheConstants.{BLOCK_BYTES};
ghost use Rattle.st_blocks.specs.Blocks.{count_of};

use st_blocks::Blocks;
use st_limits::{BLOCK_BYTES, SECTOR_BYTES};
use st_shelf::{Device, Told, tell_settled, tell_write};
use st_units::{DevPath, NoMemory};
use std::alloc::Global;
use std::snapshot::Snapshot;

/// A device whose memory is taken when it is made, and touched where it is written.
#[derive(Drop)]
pub struct Slab {
    pub path: DevPath,
    pub sectors: u64,
    blocks: Blocks,
    reads: u64,
    story: Snapshot<Told<Blocks>>,
    ghost small: { 512 * sectors < 2 ^ 64 },
    ghost room: { 512 * sectors ≤ BLOCK_BYTES * count_of blocks },
}

impl Device for Slab {
    ghost use Rattle.st_memrack.specs.Slab.{slab_path, slab_size, slab_state};

    ghost path_of = { slab_path };

    ghost size = { slab_size };

    ghost state = { slab_state };

    fn path(&self) -> &DevPath {
        &self.path
    }
}

impl Slab {
    ghost use Rattle.st_rack.specs.Story.{Content};
    ghost use Rattle.st_rack.specs.Device.{cells, Touched, Written, Synced, Cut};
    ghost use Rattle.st_memrack.specs.Slab.{slab_path, slab_size, slab_state};
    ghost use Rattle.st_shelf.specs.Shelf.{no_device};

    /// A device of zeros.
    pub fn blank(alloc: Global, path: &DevPath, sectors: u64) -> Result<Slab, NoMemory>
        ensures path { IfOk result (λ s. slab_path s ≡ path.now) }
        ensures size { IfOk result (λ s. slab_size s ≡ sectors) }
        ensures state { IfOk result (λ s. slab_state s ≡ no_device) }
        ensures reads { IfOk result (λ s. s.reads ≡ 0) }
    {
        let path = path.copy()?;
        let Some(bytes) = sectors.checked_mul(SECTOR_BYTES) else {
            return Err(NoMemory);
        };
        let blocks = Blocks::zeros(alloc, bytes.div_ceil(BLOCK_BYTES) as usize)?;
        Ok(Slab {
            path,
            sectors,
            blocks,
            reads: 0,
            story: Snapshot::of(&Told::Blank),
        })
    }

    /// Copies whole sectors out, and counts the read.
    pub fn get(&mut self, sector: u64, buf: &mut [u8])
        requires { 512 * sector + length buf.old ≤ 512 * slab_size self.old }
        ensures bytes { buf.new ≡ cells (slab_state self.old).holds (512 * sector) (length buf.old) }
        ensures reads { self.new.reads ≡ min (self.old.reads + 1) (2 ^ 64 - 1) }
        ensures state { slab_state self.new ≡ slab_state self.old }
        ensures path { slab_path self.new ≡ slab_path self.old }
        ensures size { slab_size self.new ≡ slab_size self.old }
    {
        self.blocks.read((SECTOR_BYTES * sector) as usize, buf);
        self.reads = self.reads.saturating_add(1);
    }

    /// Copies whole sectors in.
    pub fn put(&mut self, sector: u64, bytes: &[u8])
        requires { 512 * sector + length bytes.now ≤ 512 * slab_size self.old }
        ensures written { Written (512 * sector) bytes.now (slab_state self.new) }
        ensures touched { Touched (512 * sector) bytes.now (slab_state self.old) (slab_state self.new) }
        ensures path { slab_path self.new ≡ slab_path self.old }
        ensures size { slab_size self.new ≡ slab_size self.old }
        ensures reads { self.new.reads ≡ self.old.reads }
    {
        self.blocks.write((SECTOR_BYTES * sector) as usize, bytes);
        tell_write(&mut self.story, sector, bytes);
    }

    /// Settles what the device holds.
    pub fn settle(&mut self)
        ensures synced { Synced (slab_state self.old) (slab_state self.new) }
        ensures path { slab_path self.new ≡ slab_path self.old }
        ensures size { slab_size self.new ≡ slab_size self.old }
        ensures reads { self.new.reads ≡ self.old.reads }
    {
        tell_settled(&mut self.story, &self.blocks);
    }
}
