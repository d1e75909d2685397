ghost use Rattle.std.specs.Prelude.{◌≡◌};
ghost use Rattle.st_flexrec.specs.Head.{version_number};

use st_fields::{put_u16, put_u32, put_u64, u16_at, u32_at, u64_at};
use st_recrows::{RecFault, Row};
use st_units::NoMemory;
use std::alloc::Global;

/// How many bytes the head has.
pub const HEAD_WIDTH: usize = 36;

const VERSION_2: u16 = 2;

fn number_of(version2: bool) -> u16
    ensures { result ≡ version_number version2 }
{
    if version2 { VERSION_2 } else { 0 }
}

/// What stands in front of the rows.
#[derive(Clone, Copy, Debug, PartialEq, Eq)]
pub struct FlexHead {
    pub serial: u64,
    pub next_fs: u64,
    pub next_cell: u64,
    /// How many rows of filesystems follow.
    pub filesystems: u16,
    /// The record is of version 2.
    pub version2: bool,
    /// How many rows of mappings follow these.
    pub mappings: u32,
    /// How many rows of cells follow these.
    pub cells: u32,
}

impl FlexHead {
    ghost use Rattle.st_flexrec.specs.Head.{HeadFits, head_text};

    fn bytes(&self) -> [u8; 36]
        ensures fits { HeadFits self.now }
        ensures text { result ≡ head_text self.now }
    {
        let (serial, next_fs, next_cell) = (self.serial, self.next_fs, self.next_cell);
        let (filesystems, mappings, cells) = (self.filesystems, self.mappings, self.cells);
        let mut out = [0; HEAD_WIDTH];
        put_u64(&mut out, 0, serial);
        put_u64(&mut out, 8, next_fs);
        put_u64(&mut out, 16, next_cell);
        put_u16(&mut out, 24, filesystems);
        put_u16(&mut out, 26, number_of(self.version2));
        put_u32(&mut out, 28, mappings);
        put_u32(&mut out, 32, cells);
        out
    }
}

impl Row for FlexHead {
    ghost use Rattle.st_recrows.specs.Rows.{NeedsNothing};
    ghost use Rattle.st_flexrec.specs.Head.{HeadFits, head_text, head_fields};
    ghost use Rattle.st_flexrec.specs.HeadLaws.{head_width, head_reads_back, positive_36};

    const WIDTH: usize = HEAD_WIDTH;

    ghost WIDTH = { 36 };

    ghost fits = { HeadFits };

    ghost needs = { NeedsNothing };

    ghost text = { head_text };

    ghost fields = { head_fields };

    ghost is_positive = { positive_36 };

    ghost has_width = { head_width };

    ghost reads_back = { head_reads_back };

    fn put(&self, out: &mut Vec<u8>) -> Result<(), NoMemory> {
        out.extend_from_slice(&self.bytes())?;
        Ok(())
    }

    fn read_fields(_alloc: Global, bytes: &[u8]) -> Result<FlexHead, RecFault> {
        Ok(FlexHead {
            serial: u64_at(bytes, 0),
            next_fs: u64_at(bytes, 8),
            next_cell: u64_at(bytes, 16),
            filesystems: u16_at(bytes, 24),
            version2: u16_at(bytes, 26) == VERSION_2,
            mappings: u32_at(bytes, 28),
            cells: u32_at(bytes, 32),
        })
    }

    fn is_spelled(&self, bytes: &[u8]) -> bool {
        bytes == self.bytes().as_slice()
    }
}
