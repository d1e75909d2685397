//! Headers and records of devices spelled byte by byte, by nothing that the product writes or reads them with. Anything may be said, also
//! what no device of a pool bears.
#![tactic(auto)]

use st_fields::seal;
use std::alloc::{AllocError, Global};

/// What is said of a pool record.
#[derive(Clone, Copy)]
pub struct Rec<'a> {
    pub serial: u64,
    /// 1 says that the pool is gone, 2 is overprovisioning, 4 is version 2.
    pub flags: u32,
    pub name: &'a str,
    /// Its data devices.
    pub devs: &'a [&'a str],
    /// How many blocks of the first one are taken.
    pub blocks: u32,
    /// One byte more than a record has.
    pub longer: bool,
}

/// What is said of a checkpoint.
#[derive(Clone, Copy)]
pub struct Flex {
    pub serial: u64,
    pub version: u16,
    /// The place of the one cell, if there is one.
    pub place: Option<u32>,
    pub longer: bool,
}

fn put(out: &mut Vec<u8>, bytes: &[u8]) -> Result<(), AllocError> {
    out.extend_from_slice(bytes)
}

fn put_zeros(out: &mut Vec<u8>, count: usize) -> Result<(), AllocError> {
    for _ in 0..count {
        out.push(0)?;
    }
    Ok(())
}

/// A name or a path, filled up to 64 bytes.
fn put_text(out: &mut Vec<u8>, text: &str) -> Result<(), AllocError> {
    put(out, text.as_bytes())?;
    put_zeros(out, 64_usize.saturating_sub(text.len()))
}
/// Fills up to whole sectors.
fn fill_up(out: &mut Vec<u8>) -> Result<(), AllocError> {
    let over = out.len() % 512;
    if over > 0 {
        put_zeros(out, 512 - over)?;
    }
    Ok(())
}

/// A copy of the header of a device of so many sectors.
pub fn header(alloc: Global, serial: u64, sectors: u64) -> Result<Vec<u8>, AllocError> {
    let mut out = Vec::new(alloc);
    put(&mut out, b"STRSHDR1")?;
    put(&mut out, &serial.to_be_bytes())?;
    put(&mut out, &sectors.to_be_bytes())?;
    put_zeros(&mut out, 456)?;
    let sum = seal(out.as_slice(), &[]);
    put(&mut out, &sum)?;
    Ok(out)
}

/// A sealed text, filled up to whole sectors.
pub fn sealed(
    alloc: Global,
    magic: &str,
    generation: u64,
    body: &[u8],
) -> Result<Vec<u8>, AllocError> {
    let mut out = Vec::new(alloc);
    put(&mut out, magic.as_bytes())?;
    put(&mut out, &generation.to_be_bytes())?;
    put(&mut out, &(body.len() as u64).to_be_bytes())?;
    put_zeros(&mut out, 8)?;
    let sum = seal(out.as_slice(), body);
    put(&mut out, &sum)?;
    put(&mut out, body)?;
    fill_up(&mut out)?;
    Ok(out)
}

/// The body of a pool record.
pub fn pool_body(alloc: Global, rec: &Rec) -> Result<Vec<u8>, AllocError> {
    let mut out = Vec::new(alloc);
    put(&mut out, &rec.serial.to_be_bytes())?;
    put(&mut out, &rec.flags.to_be_bytes())?;
    put(&mut out, &100_u32.to_be_bytes())?;
    put(&mut out, &((rec.name.len() % 65_536) as u16).to_be_bytes())?;
    put(&mut out, &((rec.devs.len() % 65_536) as u16).to_be_bytes())?;
    let segments = if rec.blocks > 0 { 1_u16 } else { 0 };
    put(&mut out, &segments.to_be_bytes())?;
    put_zeros(&mut out, 2)?;
    put_text(&mut out, rec.name)?;
    for dev in rec.devs {
        put(&mut out, &((dev.len() % 65_536) as u16).to_be_bytes())?;
        put_text(&mut out, dev)?;
        put_zeros(&mut out, 6)?;
        put(&mut out, &8_192_u64.to_be_bytes())?;
    }
    if rec.blocks > 0 {
        put_zeros(&mut out, 4)?;
        put(&mut out, &26_u32.to_be_bytes())?;
        put(&mut out, &rec.blocks.to_be_bytes())?;
    }
    if rec.longer {
        out.push(0)?;
    }
    Ok(out)
}

/// The body of a checkpoint: no filesystem; or filesystem 1, a, of one block, which is mapped to cell 1.
pub fn flex_body(alloc: Global, flex: &Flex) -> Result<Vec<u8>, AllocError> {
    let mut out = Vec::new(alloc);
    let count = if flex.place.is_some() { 1_u16 } else { 0 };
    put(&mut out, &flex.serial.to_be_bytes())?;
    put(&mut out, &(u64::from(count) + 1).to_be_bytes())?;
    put(&mut out, &(u64::from(count) + 1).to_be_bytes())?;
    put(&mut out, &count.to_be_bytes())?;
    put(&mut out, &flex.version.to_be_bytes())?;
    put(&mut out, &u32::from(count).to_be_bytes())?;
    put(&mut out, &u32::from(count).to_be_bytes())?;
    if let Some(place) = flex.place {
        put(&mut out, &1_u64.to_be_bytes())?;
        put(&mut out, &0_u64.to_be_bytes())?;
        put(&mut out, &128_u64.to_be_bytes())?;
        put(&mut out, &0_u64.to_be_bytes())?;
        put(&mut out, &1_u16.to_be_bytes())?;
        put_text(&mut out, "a")?;
        put_zeros(&mut out, 62)?;
        put_zeros(&mut out, 12)?;
        put(&mut out, &1_u64.to_be_bytes())?;
        put(&mut out, &place.to_be_bytes())?;
    }
    if flex.longer {
        out.push(0)?;
    }
    Ok(out)
}
