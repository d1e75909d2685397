ghost use Rattle.std.specs.Prelude.{◌≡◌, ◌*◌, ◌+◌, ◌<◌, ◌≤◌, ◌^◌, length, take, drop, IfOk, OnOk};
ghost use Rattle.st_limits.specs.declared.TheConstants.{SECTOR_BYTES};
ghost use Rattle.st_model.specs.Content.{block_bytes, mapped_cells};
ghost use Rattle.st_model.specs.InPlace.{over};
ghost use Rattle.st_writing.specs.inner.Carry.{begins, carried, carried_on, cell_for, next_after, with_put};

use crate::cells::takes_cell;
use st_copies::pool_copy;
use st_limits::SECTOR_BYTES;
use st_model::{FsState, NumberMap, PoolState};
use st_sectors::{Stretch, block_bytes, firsts, promoted, rest};
use st_units::{Bytes, NoMemory};
use std::alloc::Global;

/// What a write carries from stretch to stretch.
#[derive(Drop)]
pub(crate) struct Carried {
    /// The pool, with the cells and the cache as they are by then.
    pub pool: PoolState,
    /// The cells of the filesystem's blocks by then.
    pub map: NumberMap<u64>,
    /// The number that the next fresh cell gets.
    pub next: u64,
}

/// The bytes with a piece over those from place `at` on.
fn over(alloc: Global, bytes: &[u8], at: usize, piece: &[u8]) -> Result<Bytes, NoMemory>
    requires { at ≤ 2 ^ 32 }
    ensures { IfOk result (λ new. new ≡ over bytes.now at piece.now) }
{
    let mut new = Bytes::copy_of(alloc, firsts(bytes, at))?;
    new.append(Bytes::copy_of(alloc, piece)?)?;
    new.append(Bytes::copy_of(alloc, rest(bytes, at + piece.len()))?)?;
    Ok(new)
}

/// The bytes of a stretch's block, with a piece over those of the stretch.
fn overwritten(
    alloc: Global,
    pool: &PoolState,
    fs: &FsState,
    stretch: &Stretch,
    piece: &[u8],
) -> Result<Bytes, NoMemory>
    ensures { IfOk result (λ bytes. bytes ≡ over (block_bytes pool.now fs.now stretch.now.block) (SECTOR_BYTES * stretch.now.at) piece.now) }
{
    let block = block_bytes(alloc, pool, fs, stretch.block())?;
    let at = (SECTOR_BYTES * stretch.at()) as usize;
    over(alloc, block.items(), at, piece)
}

/// The cell that a block has after the write.
fn cell_for(fs: &FsState, takes: bool, block: u64, next: u64) -> u64
    ensures { result ≡ cell_for fs.now takes block next }
{
    match fs.map.get(block) {
        Some(cell) if !takes => *cell,
        _ => next,
    }
}

fn next_after(takes: bool, next: u64) -> u64
    requires { next < 2 ^ 60 }
    ensures { result ≡ next_after takes next }
{
    if takes { next + 1 } else { next }
}

/// The pool's cell has these bytes, and goes to the front of the cache list where it stands there.
fn put(pool: &mut PoolState, alloc: Global, cell: u64, bytes: Bytes) -> Result<(), NoMemory>
    ensures { OnOk result (pool.new ≡ with_put cell bytes pool.old) }
{
    if let Some(cache) = &mut pool.cache {
        cache.cells = promoted(alloc, cell, cache.cells.items())?;
    }
    pool.cells.insert(cell, bytes)
}

/// One stretch is written.
#[tactic(auto, unfolding(crate::specs::inner::Carry::carried_on))]
fn put_one(
    done: &mut Carried,
    alloc: Global,
    pool: &PoolState,
    fs: &FsState,
    mapped: &[u64],
    stretch: &Stretch,
    piece: &[u8],
) -> Result<(), NoMemory>
    requires mapped { mapped.now ≡ mapped_cells pool.now.filesystems }
    requires next { done.old.next < 2 ^ 60 }
    ensures { OnOk result (done.new ≡ carried_on pool.now fs.now stretch.now piece.now done.old) }
{
    let block = stretch.block();
    let takes = takes_cell(&fs.map, mapped, block);
    let cell = cell_for(fs, takes, block, done.next);
    let bytes = overwritten(alloc, pool, fs, stretch, piece)?;
    put(&mut done.pool, alloc, cell, bytes)?;
    done.map.insert(block, cell)?;
    done.next = next_after(takes, done.next);
    Ok(())
}

/// All stretches are written, with these bytes.
pub(crate) fn put_all(
    done: &mut Carried,
    alloc: Global,
    pool: &PoolState,
    fs: &FsState,
    mapped: &[u64],
    stretches: &[Stretch],
    bytes: &[u8],
) -> Result<(), NoMemory>
    requires mapped { mapped.now ≡ mapped_cells pool.now.filesystems }
    requires next { done.old.next + length stretches.now < 2 ^ 60 }
    ensures { OnOk result (done.new ≡ carried pool.now fs.now stretches.now bytes.now done.old) }
{
    let mut left = bytes;
    for stretch in stretches {
        let len = (SECTOR_BYTES * stretch.sectors()) as usize;
        put_one(done, alloc, pool, fs, mapped, stretch, firsts(left, len))?;
        left = rest(left, len);
    }
    Ok(())
}

/// What is carried before the first stretch.
pub(crate) fn begins(alloc: Global, pool: &PoolState, fs: &FsState) -> Result<Carried, NoMemory>
    ensures { IfOk result (λ carried. carried ≡ begins pool.now fs.now) }
{
    let map = fs.map.copy()?;
    match pool_copy(alloc, pool) {
        Ok(copy) => Ok(Carried {
            pool: copy,
            map,
            next: pool.next_cell,
        }),
        Err(refused) => Err(refused),
    }
}
