ghost use Rattle.std.specs.Prelude.{◌≡◌, ℕ, ◌+◌, ◌^◌, ◌<◌, ◌≤◌, ◌++◌, length, take, Err, OnOk, OnErr, IfOk, IfErr};
ghost use Rattle.std.specs.List.{All};
ghost use Rattle.st_seg.specs.Blocks.{IsSegment, NoneTwice, blocks_from, blocks_of};
ghost use Rattle.st_seg.specs.Stock.{empty_stock, with_blocks, after_taking, added};
ghost use Rattle.st_seg.specs.declared.fault.SegFault.TheVariants.{NoRoom};

use crate::fault::SegFault;
use crate::part::part;
use st_units::{NoMemory, SegList, Segment};
use std::alloc::Global;
use std::marker::Model;

/// The blocks of devices that can be handed out, seen by contracts as those that were handed out
/// and those that are free.
#[derive(Drop)]
pub struct SegAlloc {
    /// All blocks that were added, in order.
    ranges: Vec<Segment>,
    /// How many they are.
    added: u64,
    /// How many of them, from the first on, were handed out.
    taken: u64,
}

impl Model for SegAlloc {
    ghost use Rattle.std.specs.Prelude.{◌≡◌, ◌≤◌, length, take, drop};
    ghost use Rattle.std.specs.List.{All};
    ghost use Rattle.st_seg.specs.Blocks.{IsSegment, NoneTwice, blocks_of};
    ghost use Rattle.st_seg.specs.Stock.{Stock};

    ghost Value = { Stock };

    ghost view = { λ s. record { taken = take s.taken (blocks_of s.ranges.items); free = drop s.taken (blocks_of s.ranges.items) } };

    ghost invariant = { λ s. (s.taken ≤ s.added) × (s.added ≡ length (blocks_of s.ranges.items)) × All IsSegment s.ranges.items × NoneTwice (blocks_of s.ranges.items) };
}

impl SegAlloc {
    /// An allocator without blocks.
    pub fn make(alloc: Global) -> SegAlloc
        ensures { result ≡ empty_stock }
    {
        SegAlloc {
            ranges: Vec::new(alloc),
            added: 0,
            taken: 0,
        }
    }

    /// Adds `blocks` blocks of the device `dev`, from its usable block `first` on, behind all that
    /// are free.
    pub fn add(&mut self, dev: u16, first: u32, blocks: u32) -> Result<(), NoMemory>
        requires some { 0 < blocks }
        requires within { first + blocks ≤ 2 ^ 32 }
        requires new { NoneTwice (added self.old ++ blocks_from dev first blocks) }
        ensures ok { OnOk result (self.new ≡ with_blocks self.old (blocks_from dev first blocks)) }
        ensures err { OnErr result (self.new ≡ self.old) }
    {
        self.ranges.push(Segment { dev, first, blocks })?;
        self.added += u64::from(blocks);
        Ok(())
    }

    /// Hands the first `blocks` of the free blocks out, or none where fewer are free.
    pub fn take(&mut self, alloc: Global, blocks: u64) -> Result<SegList, SegFault>
        ensures ok { OnOk result ((blocks ≤ length self.old.free) × (self.new ≡ after_taking self.old blocks)) }
        ensures blocks { IfOk result (λ segments. blocks_of segments ≡ take blocks self.old.free) }
        ensures segments { IfOk result (λ segments. All IsSegment segments) }
        ensures apart { NoneTwice (added self.new) }
        ensures no_room { length self.old.free < blocks → result ≡ Err (NoRoom (length self.old.free)) }
        ensures no_room_only { IfErr result (λ fault. (free : ℕ) → fault ≡ NoRoom free → length self.old.free < blocks) }
        ensures err { OnErr result (self.new ≡ self.old) }
    {
        let segments = self.front(alloc, blocks)?;
        self.hand_out(blocks);
        Ok(segments)
    }

    /// The segments that `take` would hand out.
    pub fn front(&self, alloc: Global, blocks: u64) -> Result<SegList, SegFault>
        ensures enough { OnOk result (blocks ≤ length self.now.free) }
        ensures blocks { IfOk result (λ segments. blocks_of segments ≡ take blocks self.now.free) }
        ensures segments { IfOk result (λ segments. All IsSegment segments) }
        ensures apart { NoneTwice (added self.now) }
        ensures no_room { length self.now.free < blocks → result ≡ Err (NoRoom (length self.now.free)) }
        ensures no_room_only { IfErr result (λ fault. (free : ℕ) → fault ≡ NoRoom free → length self.now.free < blocks) }
    {
        let free = self.added - self.taken;
        if free < blocks {
            return Err(SegFault::NoRoom(free));
        }
        Ok(part(alloc, &self.ranges, self.taken, blocks)?)
    }

    /// Hands the first `blocks` of the free blocks out, as `front` gave them.
    pub fn hand_out(&mut self, blocks: u64)
        requires { blocks ≤ length self.old.free }
        ensures { self.new ≡ after_taking self.old blocks }
    {
        self.taken += blocks;
    }

    /// How many blocks are free.
    pub fn free(&self) -> u64
        ensures { result ≡ length self.now.free }
    {
        self.added - self.taken
    }

    /// The same allocator once more.
    pub fn copy(&self) -> Result<SegAlloc, NoMemory>
        ensures { IfOk result (λ copy. copy ≡ self.now) }
    {
        Ok(SegAlloc {
            ranges: self.ranges.clone()?,
            added: self.added,
            taken: self.taken,
        })
    }
}
