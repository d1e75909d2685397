ghost use Rattle.std.specs.Prelude.{◌≡◌, ◌+◌, ◌*◌, ◌-◌, ◌%◌, ◌/◌, ◌<◌, ◌≤◌, min, ℕ, Option, Some, None, length, get_or, vec_len, vec_capacity, IfOk};
ghost use Rattle.st_limits.specs.declared.TheConstants.{BLOCK_BYTES};
ghost use Rattle.st_blocks.specs.Kept.{kept};

use crate::room::{append, clear, overwrite, zeros_to};
use st_fields::put;
use st_limits::BLOCK_BYTES;
use st_units::NoMemory;
use std::alloc::Global;

const BLOCK: usize = BLOCK_BYTES as usize;

/// The bytes of a device, by blocks: those that were written stand in the room, in the order of their first writes, and the others are
/// zeros. The room is taken for all blocks when the device is made, and none of it is touched before it is written.
#[derive(Drop)]
pub struct Blocks {
    /// Where in the room each block stands, counted in blocks.
    places: Vec<Option<usize>>,
    room: Vec<u8>,
    ghost within: { (k p : ℕ) → get_or places.items k None ≡ Some p → BLOCK_BYTES * (p + 1) ≤ vec_len room },
    ghost apart: { (j k p : ℕ) → get_or places.items j None ≡ Some p → get_or places.items k None ≡ Some p → j ≡ k },
    ghost filled: { BLOCK_BYTES * kept places.items ≡ vec_len room },
    ghost spare: { BLOCK_BYTES * vec_len places ≤ vec_capacity room },
}

// How many of `left` bytes lie in the block of the first.
fn part_of(at: usize, left: usize) -> usize
    ensures { result ≡ min left (BLOCK_BYTES - at % BLOCK_BYTES) }
{
    left.min(BLOCK - at % BLOCK)
}

// A table in which no block has a place.
fn no_places(alloc: Global, blocks: usize) -> Result<Vec<Option<usize>>, NoMemory>
    ensures none { IfOk result (λ v. (k : ℕ) → get_or v.items k None ≡ None) }
    ensures kept { IfOk result (λ v. kept v.items ≡ 0) }
    ensures len { IfOk result (λ v. vec_len v ≡ blocks) }
{
    let mut places = Vec::with_capacity(alloc, blocks)?;
    places.resize(blocks, None)?;
    Ok(places)
}

impl Blocks {
    ghost use Rattle.std.specs.Prelude.{◌++◌, ◌≢◌, take, IfSome};
    ghost use Rattle.st_rack.specs.Device.{cells};
    ghost use Rattle.st_rack.specs.Story.{put_in};
    ghost use Rattle.st_blocks.specs.Blocks.{content_of, count_of};

    /// So many blocks of zeros.
    pub fn zeros(alloc: Global, blocks: usize) -> Result<Blocks, NoMemory>
        ensures zeros { IfOk result (λ b. (i : ℕ) → content_of b i ≡ 0) }
        ensures count { IfOk result (λ b. count_of b ≡ blocks) }
    {
        let Some(bytes) = blocks.checked_mul(BLOCK) else {
            return Err(NoMemory);
        };
        let places = no_places(alloc, blocks)?;
        let room = Vec::with_capacity(alloc, bytes)?;
        Ok(Blocks { places, room })
    }

    // The place of a block, if it was written.
    fn place_of(&self, block: usize) -> Option<usize>
        requires { block < count_of self.now }
        ensures place { result ≡ get_or self.now.places.items block None }
        ensures there { IfSome result (λ p. BLOCK_BYTES * (p + 1) ≤ vec_len self.now.room) }
    {
        self.places[block]
    }

    // Copies a part of one block out, to the place `done` of the buffer.
    fn read_part(&self, at: usize, buf: &mut [u8], done: usize, len: usize)
        requires there { at + len ≤ BLOCK_BYTES * count_of self.now }
        requires one { at % BLOCK_BYTES + len ≤ BLOCK_BYTES }
        requires some { 0 < len }
        requires fits { done + len ≤ length buf.old }
        ensures front { take (done + len) buf.new ≡ take done buf.old ++ cells (content_of self.now) at len }
        ensures len { length buf.new ≡ length buf.old }
    {
        match self.place_of(at / BLOCK) {
            Some(place) => {
                let start = BLOCK * place + at % BLOCK;
                put(buf, done, &self.room[start..start + len]);
            }
            None => clear(buf, done, len),
        }
    }

    /// Copies bytes out.
    pub fn read(&self, at: usize, buf: &mut [u8])
        requires { at + length buf.old ≤ BLOCK_BYTES * count_of self.now }
        ensures { buf.new ≡ cells (content_of self.now) at (length buf.old) }
    {
        let mut done = 0;
        while done < buf.len() {
            let len = part_of(at + done, buf.len() - done);
            self.read_part(at + done, buf, done, len);
            done += len;
        }
    }

    // Gives a block that was not written the next place in the room, with these bytes from `offset` on and zeros around them.
    fn place(&mut self, block: usize, offset: usize, bytes: &[u8])
        requires there { block < count_of self.old }
        requires unwritten { get_or self.old.places.items block None ≡ None }
        requires within { offset + length bytes.now ≤ BLOCK_BYTES }
        ensures content { (i : ℕ) → content_of self.new i ≡ put_in (BLOCK_BYTES * block + offset) bytes.now (content_of self.old) i }
        ensures count { count_of self.new ≡ count_of self.old }
    {
        let start = self.room.len();
        zeros_to(&mut self.room, start + offset);
        append(&mut self.room, bytes);
        zeros_to(&mut self.room, start + BLOCK);
        self.places[block] = Some(start / BLOCK);
    }

    // Copies bytes into one block.
    fn write_part(&mut self, at: usize, bytes: &[u8])
        requires there { at + length bytes.now ≤ BLOCK_BYTES * count_of self.old }
        requires one { at % BLOCK_BYTES + length bytes.now ≤ BLOCK_BYTES }
        requires some { 0 < length bytes.now }
        ensures content { (i : ℕ) → content_of self.new i ≡ put_in at bytes.now (content_of self.old) i }
        ensures count { count_of self.new ≡ count_of self.old }
    {
        match self.place_of(at / BLOCK) {
            Some(place) => overwrite(&mut self.room, BLOCK * place + at % BLOCK, bytes),
            None => self.place(at / BLOCK, at % BLOCK, bytes),
        }
    }

    /// Copies bytes in.
    pub fn write(&mut self, at: usize, bytes: &[u8])
        requires { at + length bytes.now ≤ BLOCK_BYTES * count_of self.old }
        ensures content { (i : ℕ) → content_of self.new i ≡ put_in at bytes.now (content_of self.old) i }
        ensures count { count_of self.new ≡ count_of self.old }
    {
        let mut done = 0;
        while done < bytes.len() {
            let len = part_of(at + done, bytes.len() - done);
            self.write_part(at + done, &bytes[done..done + len]);
            done += len;
        }
    }
}
