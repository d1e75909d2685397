ghost use Rattle.std.specs.Prelude.{◌≡◌, ◌+◌, ◌<◌, ◌^◌, flat_map, replicate, IfOk};
ghost use Rattle.std.specs.List.{range_with_len};
ghost use Rattle.st_limits.specs.declared.TheConstants.{BLOCK_BYTES};
ghost use Rattle.st_model.specs.Content.{block_bytes, sector_bytes};

use crate::slices::{firsts, rest};
use st_limits::{BLOCK_BYTES, BLOCK_SECTORS, SECTOR_BYTES};
use st_model::{FsState, PoolState};
use st_units::{Bytes, NoMemory};
use std::alloc::Global;

/// A block of zeros.
fn zeros(alloc: Global) -> Result<Bytes, NoMemory>
    ensures { IfOk result (λ bytes. bytes ≡ replicate BLOCK_BYTES 0) }
{
    let mut zeros = Vec::with_capacity(alloc, BLOCK_BYTES as usize)?;
    zeros.resize(BLOCK_BYTES as usize, 0)?;
    Ok(Bytes::of(zeros))
}

/// The bytes of a block of the filesystem: those of its cell, or zeros where it isn't mapped.
pub fn block_bytes(
    alloc: Global,
    pool: &PoolState,
    fs: &FsState,
    block: u64,
) -> Result<Bytes, NoMemory>
    ensures { IfOk result (λ bytes. bytes ≡ block_bytes pool.now fs.now block) }
{
    let Some(cell) = fs.map.get(block) else {
        return zeros(alloc);
    };
    match pool.cells.get(*cell) {
        Some(bytes) => Bytes::copy_of(alloc, bytes.items()),
        None => zeros(alloc),
    }
}

/// What a sector of the filesystem reads as.
fn sector_bytes(
    alloc: Global,
    pool: &PoolState,
    fs: &FsState,
    sector: u64,
) -> Result<Bytes, NoMemory>
    ensures { IfOk result (λ bytes. bytes ≡ sector_bytes pool.now fs.now sector) }
{
    let block = block_bytes(alloc, pool, fs, sector / BLOCK_SECTORS)?;
    let at = SECTOR_BYTES * (sector % BLOCK_SECTORS);
    let piece = firsts(rest(block.items(), at as usize), SECTOR_BYTES as usize);
    Bytes::copy_of(alloc, piece)
}

/// What so many sectors read as, from this one on.
#[tactic(auto, using(crate::proofs::Ranges::flat_more))]
pub(crate) fn content(
    alloc: Global,
    pool: &PoolState,
    fs: &FsState,
    sector: u64,
    sectors: u64,
) -> Result<Bytes, NoMemory>
    requires { sector + sectors < 2 ^ 64 }
    ensures { IfOk result (λ bytes. bytes ≡ flat_map (sector_bytes pool.now fs.now) (range_with_len sector sectors)) }
{
    let mut bytes = Bytes::make(alloc);
    for i in 0..sectors {
        bytes.append(sector_bytes(alloc, pool, fs, sector + i)?)?;
    }
    Ok(bytes)
}
