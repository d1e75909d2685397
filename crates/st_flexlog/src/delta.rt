ghost use Rattle.std.specs.Prelude.{◌≡◌, ◌+◌, ◌≤◌, true, length};
ghost use Rattle.st_recrows.specs.Rows.{Spells};
ghost use Rattle.st_flexlog.specs.Delta.{rows_of, row_text, head_text, RowFits, row_fields, row_if, delta_text, DeltaFits, IsInOrder, delta_fields, delta_of};
ghost use Rattle.st_flexlog.specs.Counted.{has_counted_length};

use st_fields::{put, put_u16, put_u32, put_u64, u16_at, u32_at, u64_at};
use std::marker::Model;

/// The most bytes that a delta takes: those of its head and of two rows.
pub const DELTA_BYTES: usize = HEAD_WIDTH + 2 * ROW_WIDTH;

const HEAD_WIDTH: usize = 24;

const ROW_WIDTH: usize = 24;

/// A block that a commit mapped to a fresh cell.
#[derive(Clone, Copy, Debug, PartialEq, Eq)]
pub struct DeltaRow {
    /// The serial of the filesystem.
    pub fs: u64,
    /// The block's number in the filesystem.
    pub block: u32,
    /// The cell's block of the linear table.
    pub place: u32,
    /// The cell's own number.
    pub cell: u64,
}

/// What one commit changed in the mappings of a pool.
#[derive(Clone, Copy, Debug, PartialEq, Eq)]
pub struct Delta {
    /// The pool's serial.
    pub serial: u64,
    /// The number that the next cell gets.
    pub next_cell: u64,
    pub first: Option<DeltaRow>,
    /// `Some` only where `first` is.
    pub second: Option<DeltaRow>,
}

/// The spelling of a delta.
#[derive(Drop)]
pub struct DeltaBody {
    bytes: [u8; DELTA_BYTES],
    len: usize,
}

impl Model for DeltaBody {
    ghost use Rattle.std.specs.Prelude.{ℕ, List, ◌≤◌, take};

    ghost Value = { List ℕ };

    ghost view = { λ body. take body.len body.bytes };

    ghost invariant = { λ body. body.len ≤ 72 };
}

impl DeltaBody {
    /// The bytes of the spelling.
    pub fn bytes(&self) -> &[u8]
        ensures { result.now ≡ self.now }
    {
        &self.bytes[..self.len]
    }
}

/// The spelling of the delta.
pub fn encode(delta: &Delta) -> DeltaBody
    requires { IsInOrder delta.now }
    ensures { Spells DeltaFits delta_text result delta.now }
{
    let (serial, next_cell) = (delta.serial, delta.next_cell);
    let mut bytes = [0; DELTA_BYTES];
    put(
        &mut bytes,
        0,
        &head_bytes(serial, next_cell, count_of(delta)),
    );
    let len = match (delta.first, delta.second) {
        (Some(first), Some(second)) => {
            put(&mut bytes, HEAD_WIDTH, &row_bytes(&first));
            put(&mut bytes, HEAD_WIDTH + ROW_WIDTH, &row_bytes(&second));
            HEAD_WIDTH + 2 * ROW_WIDTH
        }
        (Some(first), None) => {
            put(&mut bytes, HEAD_WIDTH, &row_bytes(&first));
            HEAD_WIDTH + ROW_WIDTH
        }
        _ => HEAD_WIDTH,
    };
    DeltaBody { bytes, len }
}

/// The delta whose spelling the bytes are. `None` exactly where there is none.
#[tactic(auto, using(crate::proofs::Deltas::uncounted), unfolding(crate::specs::Delta::delta_of))]
pub fn decode(bytes: &[u8]) -> Option<Delta>
    ensures { result ≡ delta_of bytes.now }
{
    if !has_counted_length(bytes) {
        return None;
    }
    let delta = fields_of(bytes);
    if encode(&delta).bytes() == bytes {
        Some(delta)
    } else {
        None
    }
}

/// Whether the bytes are as long as their count of rows tells.
fn has_counted_length(bytes: &[u8]) -> bool
    ensures { result ≡ has_counted_length bytes.now }
{
    if bytes.len() < HEAD_WIDTH {
        return false;
    }
    let count = usize::from(u16_at(bytes, 16));
    count <= 2 && bytes.len() == HEAD_WIDTH + count * ROW_WIDTH
}

fn fields_of(bytes: &[u8]) -> Delta
    requires { has_counted_length bytes.now ≡ true }
    ensures value { result ≡ delta_fields bytes.now }
    ensures in_order { IsInOrder result }
{
    let count = u16_at(bytes, 16);
    Delta {
        serial: u64_at(bytes, 0),
        next_cell: u64_at(bytes, 8),
        first: row_if(1 <= count, bytes, HEAD_WIDTH),
        second: row_if(2 <= count, bytes, HEAD_WIDTH + ROW_WIDTH),
    }
}

fn row_if(is_there: bool, bytes: &[u8], at: usize) -> Option<DeltaRow>
    requires { is_there ≡ true → at + 24 ≤ length bytes.now }
    ensures { result ≡ row_if is_there at bytes.now }
{
    if is_there {
        Some(row_at(bytes, at))
    } else {
        None
    }
}

fn row_at(bytes: &[u8], at: usize) -> DeltaRow
    requires { at + 24 ≤ length bytes.now }
    ensures { result ≡ row_fields at bytes.now }
{
    DeltaRow {
        fs: u64_at(bytes, at),
        block: u32_at(bytes, at + 8),
        place: u32_at(bytes, at + 12),
        cell: u64_at(bytes, at + 16),
    }
}

fn count_of(delta: &Delta) -> u16
    requires { IsInOrder delta.now }
    ensures { result ≡ length (rows_of delta.now) }
{
    if delta.second.is_some() {
        2
    } else if delta.first.is_some() {
        1
    } else {
        0
    }
}

fn head_bytes(serial: u64, next_cell: u64, count: u16) -> [u8; 24]
    ensures { result ≡ head_text serial next_cell count }
{
    let mut out = [0; HEAD_WIDTH];
    put_u64(&mut out, 0, serial);
    put_u64(&mut out, 8, next_cell);
    put_u16(&mut out, 16, count);
    put(&mut out, 18, &[0; 6]);
    out
}

fn row_bytes(row: &DeltaRow) -> [u8; 24]
    ensures fits { RowFits row.now }
    ensures text { result ≡ row_text row.now }
{
    let (fs, block, place, cell) = (row.fs, row.block, row.place, row.cell);
    let mut out = [0; ROW_WIDTH];
    put_u64(&mut out, 0, fs);
    put_u32(&mut out, 8, block);
    put_u32(&mut out, 12, place);
    put_u64(&mut out, 16, cell);
    out
}
