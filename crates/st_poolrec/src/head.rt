use st_fields::{put_u16, put_u32, put_u64, u16_at, u32_at, u64_at};
use st_recrows::{RecFault, Row, name_of, put_text, text_at};
use st_units::{Name, NoMemory};
use std::alloc::Global;

/// How many bytes the head has.
pub const HEAD_WIDTH: usize = 88;

/// What stands in front of the rows.
#[derive(Drop)]
pub struct PoolHead {
    pub serial: u64,
    pub gone: bool,
    pub overprovisioning: bool,
    pub version2: bool,
    pub fs_limit: u32,
    pub name: Name,
    /// How many rows of devices follow.
    pub devs: u16,
    /// How many rows of segments follow these.
    pub segments: u16,
}

impl Row for PoolHead {
    ghost use Rattle.st_recrows.specs.Rows.{NeedsNothing};
    ghost use Rattle.st_poolrec.specs.Head.{HeadFits, head_text, head_fields};
    ghost use Rattle.st_poolrec.specs.HeadLaws.{head_width, head_reads_back, positive_88};

    const WIDTH: usize = HEAD_WIDTH;

    ghost WIDTH = { 88 };

    ghost fits = { HeadFits };

    ghost needs = { NeedsNothing };

    ghost text = { head_text };

    ghost fields = { head_fields };

    ghost is_positive = { positive_88 };

    ghost has_width = { head_width };

    ghost reads_back = { head_reads_back };

    fn put(&self, out: &mut Vec<u8>) -> Result<(), NoMemory> {
        out.extend_from_slice(&self.bytes())?;
        Ok(())
    }

    fn read_fields(alloc: Global, bytes: &[u8]) -> Result<PoolHead, RecFault> {
        let name = text_at(bytes, 24, u16_at(bytes, 16));
        let flags = u32_at(bytes, 8);
        match name_of(alloc, name) {
            Err(fault) => Err(fault),
            Ok(name) => Ok(PoolHead {
                serial: u64_at(bytes, 0),
                gone: flags % 2 == 1,
                overprovisioning: flags / 2 % 2 == 1,
                version2: flags / 4 % 2 == 1,
                fs_limit: u32_at(bytes, 12),
                name,
                devs: u16_at(bytes, 18),
                segments: u16_at(bytes, 20),
            }),
        }
    }

    fn is_spelled(&self, bytes: &[u8]) -> bool {
        bytes == self.bytes().as_slice()
    }
}

impl PoolHead {
    ghost use Rattle.std.specs.Prelude.{◌≡◌};
    ghost use Rattle.st_poolrec.specs.Head.{HeadFits, flags, head_text};

    fn flags(&self) -> u32
        ensures { result ≡ flags self.now.gone self.now.overprovisioning self.now.version2 }
    {
        let gone = if self.gone { 1 } else { 0 };
        let overprovisioning = if self.overprovisioning { 2 } else { 0 };
        let version2 = if self.version2 { 4 } else { 0 };
        gone + overprovisioning + version2
    }

    fn bytes(&self) -> [u8; 88]
        ensures fits { HeadFits self.now }
        ensures text { result ≡ head_text self.now }
    {
        let (serial, fs_limit) = (self.serial, self.fs_limit);
        let (devs, segments) = (self.devs, self.segments);
        let name = self.name.bytes();
        let mut out = [0; HEAD_WIDTH];
        put_u64(&mut out, 0, serial);
        put_u32(&mut out, 8, self.flags());
        put_u32(&mut out, 12, fs_limit);
        put_u16(&mut out, 16, name.len() as u16);
        put_u16(&mut out, 18, devs);
        put_u16(&mut out, 20, segments);
        put_u16(&mut out, 22, 0);
        put_text(&mut out, 24, name);
        out
    }
}
