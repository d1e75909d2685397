ghost use Rattle.std.specs.Prelude.{◌≡◌, ℕ, ◌+◌, ◌^◌, ◌<◌, ◌≤◌, ◌++◌, [], length, flat_map, Some, OnOk, OnErr, IfOk};
ghost use Rattle.std.specs.List.{All};
ghost use Rattle.std.specs.List.Sorted.{IsNonDecreasingBy, IsPartitionPoint};
ghost use Rattle.st_seg.specs.Blocks.{IsSegment, NoneTwice, blocks_of};
ghost use Rattle.st_linear.specs.Places.{place_at};
ghost use Rattle.st_linear.specs.Runs.{AreRuns, blocks_of_runs};

use st_limits::{BLOCK_SECTORS, RESERVED_SECTORS};
use st_units::{NoMemory, SegList, Segment};
use std::alloc::Global;
use std::marker::Model;

/// A segment of a table.
#[derive(Clone, Copy)]
struct Run {
    /// The number of its first block in the table.
    start: u64,
    segment: Segment,
}

/// Segments in a row, seen by contracts as their blocks, in order.
#[derive(Drop)]
pub struct LinearTable {
    runs: Vec<Run>,
    /// How many blocks they have.
    blocks: u64,
}

impl Model for LinearTable {
    ghost use Rattle.std.specs.Prelude.{List, ◌≡◌, length};
    ghost use Rattle.st_seg.specs.Blocks.{Block, NoneTwice};
    ghost use Rattle.st_linear.specs.Runs.{AreRuns, blocks_of_runs};

    ghost Value = { List Block };

    ghost view = { λ s. blocks_of_runs s.runs.items };

    ghost invariant = { λ s. AreRuns 0 s.runs.items × (s.blocks ≡ length (blocks_of_runs s.runs.items)) × NoneTwice (blocks_of_runs s.runs.items) };
}

impl LinearTable {
    /// The table without segments.
    pub fn make(alloc: Global) -> LinearTable
        ensures { result ≡ [] }
    {
        LinearTable {
            runs: Vec::new(alloc),
            blocks: 0,
        }
    }

    /// Puts the blocks of all segments behind those of the table.
    pub fn extend(&mut self, alloc: Global, segments: &SegList) -> Result<(), NoMemory>
        requires segments { All IsSegment segments.now }
        requires apart { NoneTwice (self.old ++ blocks_of segments.now) }
        ensures ok { OnOk result (self.new ≡ self.old ++ blocks_of segments.now) }
        ensures err { OnErr result (self.new ≡ self.old) }
    {
        let (mut runs, blocks) = runs_from(alloc, self.blocks, segments.items())?;
        self.runs.append(&mut runs)?;
        self.blocks = blocks;
        Ok(())
    }

    /// How many blocks the table has.
    pub fn length(&self) -> u64
        ensures { result ≡ length self.now }
    {
        self.blocks
    }

    /// The device of the block, and its first sector there. It takes time in the logarithm of the
    /// number of segments.
    pub fn place(&self, block: u64) -> (u16, u64)
        requires { block < length self.now }
        ensures place { place_at self.now block ≡ Some result }
        ensures apart { NoneTwice self.now }
    {
        let run = self.runs[runs_up_to(&self.runs, block) - 1];
        let number = u64::from(run.segment.first) + (block - run.start);
        (run.segment.dev, RESERVED_SECTORS + BLOCK_SECTORS * number)
    }

    /// The same table once more.
    pub fn copy(&self) -> Result<LinearTable, NoMemory>
        ensures { IfOk result (λ copy. copy ≡ self.now) }
    {
        Ok(LinearTable {
            runs: self.runs.clone()?,
            blocks: self.blocks,
        })
    }
}

/// How many of the runs begin at the block or before it.
fn runs_up_to(runs: &[Run], block: u64) -> usize
    requires { IsNonDecreasingBy (λ run. run.start) runs.now }
    ensures parted { IsPartitionPoint (λ run. run.start ≤ block) (λ run. block < run.start) runs.now result }
    ensures within { result ≤ length runs.now }
{
    runs.partition_point(|run| run.start <= block)
}

/// The segments as runs of a table, the first beginning at `start`, and the number of the block
/// behind them.
fn runs_from(alloc: Global, start: u64, segments: &[Segment]) -> Result<(Vec<Run>, u64), NoMemory>
    requires segments { All IsSegment segments.now }
    requires fits { start + length (blocks_of segments.now) < 2 ^ 64 }
    ensures runs { IfOk result (λ r. AreRuns start r.0.items) }
    ensures blocks { IfOk result (λ r. blocks_of_runs r.0.items ≡ blocks_of segments.now) }
    ensures end { IfOk result (λ r. r.1 ≡ start + length (blocks_of segments.now)) }
{
    let mut runs = Vec::new(alloc);
    let mut next = start;
    for segment in segments {
        runs.push(Run {
            start: next,
            segment: *segment,
        })?;
        next += u64::from(segment.blocks);
    }
    Ok((runs, next))
}
