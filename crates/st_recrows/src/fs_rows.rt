ghost use Rattle.std.specs.Prelude.{◌≡◌, ◌<◌, ◌^◌, ℕ, List, IfSome, unwrap_or};
ghost use Rattle.st_recrows.specs.FsRows.{FsFits, HasNoZero, fs_text, fs_fields, some_number, merge_code};
ghost use Rattle.st_recrows.specs.FsLaws.{fs_width, fs_reads_back, positive_160};

use crate::fault::RecFault;
use crate::row::Row;
use crate::texts::{name_of, put_text, text_at};
use st_fields::{put, put_u16, put_u64, u16_at, u64_at};
use st_units::{FsRow, NoMemory};
use std::alloc::Global;

/// How many bytes the row of a filesystem has.
pub const FS_WIDTH: usize = 160;

/// 0 stands for none.
fn number_of(n: u64) -> Option<u64>
    ensures { result ≡ some_number n }
{
    if n == 0 { None } else { Some(n) }
}

fn or_zero(number: Option<u64>) -> u64
    ensures value { result ≡ unwrap_or number 0 }
    ensures below { IfSome number (λ n. n < 2 ^ 64) }
{
    match number {
        None => 0,
        Some(n) => n,
    }
}

fn code_of(merge: bool) -> u8
    ensures { result ≡ merge_code merge }
{
    if merge { 1 } else { 0 }
}

fn fs_bytes(row: &FsRow) -> [u8; 160]
    ensures fits { HasNoZero row.now → FsFits row.now }
    ensures text { result ≡ fs_text row.now }
{
    let (serial, size) = (row.serial, row.size);
    let name = row.name.bytes();
    let mut out = [0; FS_WIDTH];
    put_u64(&mut out, 0, serial);
    put_u64(&mut out, 8, or_zero(row.origin));
    put_u64(&mut out, 16, size);
    put_u64(&mut out, 24, or_zero(row.limit));
    put_u16(&mut out, 32, name.len() as u16);
    put_text(&mut out, 34, name);
    put(&mut out, 98, &[code_of(row.merge)]);
    put(&mut out, 99, &[0; 61]);
    out
}

impl Row for FsRow {
    const WIDTH: usize = FS_WIDTH;

    ghost WIDTH = { 160 };

    ghost fits = { FsFits };

    ghost needs = { HasNoZero };

    ghost text = { fs_text };

    ghost fields = { fs_fields };

    ghost is_positive = { positive_160 };

    ghost has_width = { fs_width };

    ghost reads_back = { fs_reads_back };

    fn put(&self, out: &mut Vec<u8>) -> Result<(), NoMemory> {
        out.extend_from_slice(&fs_bytes(self))?;
        Ok(())
    }

    fn read_fields(alloc: Global, bytes: &[u8]) -> Result<FsRow, RecFault> {
        let name = text_at(bytes, 34, u16_at(bytes, 32));
        match name_of(alloc, name) {
            Err(fault) => Err(fault),
            Ok(name) => Ok(FsRow {
                serial: u64_at(bytes, 0),
                name,
                size: u64_at(bytes, 16),
                limit: number_of(u64_at(bytes, 24)),
                origin: number_of(u64_at(bytes, 8)),
                merge: bytes[98] == 1,
            }),
        }
    }

    fn is_spelled(&self, bytes: &[u8]) -> bool {
        bytes == fs_bytes(self).as_slice()
    }
}
