ghost use Rattle.std.specs.Prelude.{◌≡◌, ℕ, ◌+◌, ◌<◌, ◌≤◌, [], length, take, Err, OnOk, OnErr, IfOk, IfErr};
ghost use Rattle.std.specs.List.{All};
ghost use Rattle.st_seg.specs.declared.fault.SegFault.TheVariants.{NoRoom};
ghost use Rattle.st_limits.specs.Sums.{IsDeviceSize};
ghost use Rattle.st_limits.specs.Sums as sums;
ghost use Rattle.st_datatier.specs.Segments.{data_sectors, segment_rows};
ghost use Rattle.st_datatier.specs.Tier.{data_blocks, free_of, sectors_of, with_allocated, with_devices};

use crate::add::add_rows;
use crate::segments::segment_rows;
use st_linear::LinearTable;
use st_seg::{SegAlloc, SegFault};
use st_units::{DevRows, NoMemory, SegList};
use std::alloc::Global;
use std::marker::Model;

/// The data devices of a pool and the blocks of them that are in use, seen by contracts as the sizes
/// of the devices and the number of those blocks. A device's number is its place among them.
#[derive(Drop)]
pub struct DataTier {
    /// The size of each device in sectors.
    sectors: Vec<u64>,
    free: SegAlloc,
    /// The blocks that are in use.
    table: LinearTable,
}

impl Model for DataTier {
    ghost use Rattle.std.specs.Prelude.{◌≡◌, ◌≤◌, length};
    ghost use Rattle.std.specs.List.{All};
    ghost use Rattle.st_seg.specs.Stock.{added};
    ghost use Rattle.st_limits.specs.Sums.{IsDeviceSize};
    ghost use Rattle.st_datatier.specs.Tier.{Tier, data_blocks};

    ghost Value = { Tier };

    ghost view = { λ s. record { sectors = s.sectors.items; allocated = length s.table } };

    ghost invariant = { λ s. (length s.sectors.items ≤ 16) × All IsDeviceSize s.sectors.items × (s.free.taken ≡ s.table) × (added s.free ≡ data_blocks s.sectors.items) };
}

impl DataTier {
    /// The tier of these devices, of which no block is in use.
    pub fn make(alloc: Global, devs: &DevRows) -> Result<DataTier, NoMemory>
        requires few { length devs.now ≤ 16 }
        requires sizes { All IsDeviceSize (sectors_of devs.now) }
        ensures { IfOk result (λ tier. tier ≡ record { sectors = sectors_of devs.now; allocated = 0 }) }
    {
        let mut sectors = Vec::new(alloc);
        let mut free = SegAlloc::make(alloc);
        add_rows(&mut sectors, &mut free, devs.items())?;
        Ok(DataTier {
            sectors,
            free,
            table: LinearTable::make(alloc),
        })
    }

    /// Puts these devices behind those of the tier.
    pub fn add_devs(&mut self, devs: &DevRows) -> Result<(), NoMemory>
        requires few { length self.old.sectors + length devs.now ≤ 16 }
        requires sizes { All IsDeviceSize (sectors_of devs.now) }
        ensures ok { OnOk result (self.new ≡ with_devices self.old (sectors_of devs.now)) }
        ensures err { OnErr result (self.new ≡ self.old) }
    {
        let mut sectors = self.sectors.clone()?;
        let mut free = self.free.copy()?;
        add_rows(&mut sectors, &mut free, devs.items())?;
        self.sectors = sectors;
        self.free = free;
        Ok(())
    }

    /// Takes `blocks` more blocks into use, or none where fewer are free.
    pub fn extend(&mut self, alloc: Global, blocks: u64) -> Result<(), SegFault>
        ensures ok { OnOk result (self.new ≡ with_allocated self.old blocks) }
        ensures enough { OnOk result (blocks ≤ free_of self.old) }
        ensures no_room { free_of self.old < blocks → result ≡ Err (NoRoom (free_of self.old)) }
        ensures no_room_only { IfErr result (λ fault. (free : ℕ) → fault ≡ NoRoom free → free_of self.old < blocks) }
        ensures err { OnErr result (self.new ≡ self.old) }
    {
        let segments = self.free.front(alloc, blocks)?;
        self.table.extend(alloc, &segments)?;
        self.free.hand_out(blocks);
        Ok(())
    }

    /// How many devices there are.
    pub fn devices(&self) -> usize
        ensures { result ≡ length self.now.sectors }
    {
        self.sectors.len()
    }

    /// How many blocks the devices give for data.
    pub fn room(&self) -> u64
        ensures { result ≡ sums.room self.now.sectors }
    {
        self.table.length() + self.free.free()
    }

    /// How many blocks are in use.
    pub fn allocated(&self) -> u64
        ensures value { result ≡ self.now.allocated }
        ensures within { self.now.allocated ≤ sums.room self.now.sectors }
    {
        self.table.length()
    }

    /// The blocks that are in use.
    pub fn table(&self) -> &LinearTable
        ensures { result.now ≡ take self.now.allocated (data_blocks self.now.sectors) }
    {
        &self.table
    }

    /// The blocks in use, as a record of the pool's rows has them: a segment a data device at most,
    /// which names the row of its device.
    pub fn segments(&self, alloc: Global, rows: &DevRows) -> Result<SegList, NoMemory>
        requires few { length rows.now ≤ 16 }
        requires sizes { All IsDeviceSize (sectors_of rows.now) }
        requires devices { data_sectors rows.now ≡ self.now.sectors }
        ensures { IfOk result (λ segments. segments ≡ segment_rows 0 self.now.allocated rows.now) }
    {
        segment_rows(alloc, rows.items(), self.table.length())
    }

    /// The same tier once more.
    pub fn copy(&self) -> Result<DataTier, NoMemory>
        ensures { IfOk result (λ copy. copy ≡ self.now) }
    {
        Ok(DataTier {
            sectors: self.sectors.clone()?,
            free: self.free.copy()?,
            table: self.table.copy()?,
        })
    }
}
