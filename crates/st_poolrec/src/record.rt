ghost use Rattle.std.specs.Prelude.{◌≡◌, ℕ, true, false, IfOk};
ghost use Rattle.st_recrows.specs.Rows.{Reads, Spells};
ghost use Rattle.st_poolrec.specs.Head.{HeadFits};
ghost use Rattle.st_poolrec.specs.Record.{RecFits, IsPoolRec, is_record, record_text};
ghost use Rattle.st_poolrec.specs.Reading.{Follows};

use crate::conditions;
use crate::head::{HEAD_WIDTH, PoolHead};
use st_recrows::{DEV_WIDTH, RecFault, Row, SEGMENT_WIDTH, put_rows, read_row, read_rows};
use st_units::{Bytes, DevRows, Name, NoMemory, SegList};
use std::alloc::Global;

/// What the record of a pool says.
#[derive(Drop)]
pub struct PoolRec {
    /// The pool's serial.
    pub serial: u64,
    /// The pool was destroyed.
    pub gone: bool,
    pub overprovisioning: bool,
    /// The record is of version 2, which each commit writes; else of version 1.
    pub version2: bool,
    /// How many filesystems the pool may have: at most 128, or 256 with version 2.
    pub fs_limit: u32,
    pub name: Name,
    /// The devices in order of arrival; the first is a data device.
    pub devs: DevRows,
    /// The blocks that were taken: whole data devices in order, the last one up to some block.
    pub segments: SegList,
}

/// The spelling of the record.
#[tactic(auto, using(crate::proofs::Counts::devs_few, crate::proofs::Counts::segments_few))]
pub fn encode(alloc: Global, rec: &PoolRec) -> Result<Bytes, NoMemory>
    requires { is_record rec.now ≡ true }
    ensures { IfOk result (λ bytes. Spells IsPoolRec record_text bytes rec.now) }
{
    let (devs, segments) = (rec.devs.items(), rec.segments.items());
    let head = PoolHead {
        serial: rec.serial,
        gone: rec.gone,
        overprovisioning: rec.overprovisioning,
        version2: rec.version2,
        fs_limit: rec.fs_limit,
        name: rec.name.copy()?,
        devs: devs.len() as u16,
        segments: segments.len() as u16,
    };
    let rows_len = devs.len() * DEV_WIDTH + segments.len() * SEGMENT_WIDTH;
    let mut out = Vec::with_capacity(alloc, HEAD_WIDTH + rows_len)?;
    head.put(&mut out)?;
    put_rows(&mut out, devs)?;
    put_rows(&mut out, segments)?;
    Ok(Bytes::of(out))
}

/// The spelling of a record of version 1.
pub fn encode_v1(alloc: Global, rec: &PoolRec) -> Result<Bytes, NoMemory>
    requires kept { is_record rec.now ≡ true }
    requires version { rec.now.version2 ≡ false }
    ensures { IfOk result (λ bytes. Spells IsPoolRec record_text bytes rec.now) }
{
    encode(alloc, rec)
}

/// The record whose spelling the bytes are. `NotARecord` comes exactly where there is none.
pub fn decode(alloc: Global, bytes: &[u8]) -> Result<PoolRec, RecFault>
    ensures { Reads (Spells IsPoolRec record_text bytes.now) result }
{
    match read(alloc, bytes) {
        Err(fault) => Err(fault),
        Ok(rec) => {
            if conditions::is_record(&rec) {
                Ok(rec)
            } else {
                Err(RecFault::NotARecord)
            }
        }
    }
}

/// The value whose spelling the bytes are, whether or not it keeps the conditions.
fn read(alloc: Global, bytes: &[u8]) -> Result<PoolRec, RecFault>
    ensures { Reads (Spells RecFits record_text bytes.now) result }
{
    if bytes.len() < HEAD_WIDTH {
        return Err(RecFault::NotARecord);
    }
    let (front, rest) = bytes.split_at(HEAD_WIDTH);
    match read_row(alloc, front) {
        Err(fault) => Err(fault),
        Ok(head) => read_rest(alloc, head, rest),
    }
}

/// The value with this head, and with the rows whose spellings the bytes are. The counts of the
/// head are tested against the bytes first.
fn read_rest(alloc: Global, head: PoolHead, rest: &[u8]) -> Result<PoolRec, RecFault>
    requires { HeadFits head }
    ensures { Reads (Follows head rest.now) result }
{
    let dev_len = usize::from(head.devs) * DEV_WIDTH;
    let segment_len = usize::from(head.segments) * SEGMENT_WIDTH;
    if rest.len() != dev_len + segment_len {
        return Err(RecFault::NotARecord);
    }
    let (dev_rows, segment_rows) = rest.split_at(dev_len);
    let devs = match read_rows(alloc, dev_rows) {
        Err(fault) => return Err(fault),
        Ok(devs) => devs,
    };
    match read_rows(alloc, segment_rows) {
        Err(fault) => Err(fault),
        Ok(segments) => Ok(PoolRec {
            serial: head.serial,
            gone: head.gone,
            overprovisioning: head.overprovisioning,
            version2: head.version2,
            fs_limit: head.fs_limit,
            name: head.name,
            devs,
            segments,
        }),
    }
}
