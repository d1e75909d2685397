ghost use Rattle.std.specs.Prelude.{◌≡◌, ◌≢◌, ◌+◌, ◌*◌, ◌/◌, ◌%◌, ◌^◌, ◌<◌, ◌≤◌, ◌++◌, true, ℕ, length, take, get_or, OnOk, OnErr, is_some};
ghost use Rattle.std.specs.BTreeMap.{get};
ghost use Rattle.std.specs.Ordering.{nat_cmp};
ghost use Rattle.st_rack.specs.Device.{cells};
ghost use Rattle.st_rack.specs.Story.{Content, put_in, within};
ghost use Rattle.st_sparse.specs.Sectors.{byte_at, is_kept};

use st_fields::put;
use st_limits::SECTOR_BYTES;
use st_units::NoMemory;
use std::collections::BTreeMap;

/// The bytes of a sector.
pub const SECTOR: usize = SECTOR_BYTES as usize;

/// The sectors that are kept; a sector that isn't is zeros.
pub type Sectors = BTreeMap<u64, [u8; SECTOR]>;

// Copies a sector into its place.
fn read_one(kept: &Sectors, sector: u64, buf: &mut [u8], at: usize)
    requires { at + 512 ≤ length buf.old }
    ensures front { take (at + 512) buf.new ≡ take at buf.old ++ cells (byte_at kept.now) (512 * sector) 512 }
    ensures len { length buf.new ≡ length buf.old }
{
    match kept.get(&sector) {
        Some(bytes) => put(buf, at, bytes),
        None => put(buf, at, &[0; SECTOR]),
    }
}

/// Copies whole sectors out.
pub fn read_kept(kept: &Sectors, sector: u64, buf: &mut [u8])
    requires whole { length buf.old % 512 ≡ 0 }
    requires fits { 512 * sector + length buf.old < 512 * 2 ^ 64 }
    ensures { buf.new ≡ cells (byte_at kept.now) (512 * sector) (length buf.old) }
{
    for k in 0..buf.len() / SECTOR {
        read_one(kept, sector + k as u64, buf, SECTOR * k);
    }
}

/// Lays those of a write's bytes that lie in the buffer over what it holds, where it begins with that sector.
pub fn lay_over(buf: &mut [u8], sector: u64, from: u64, bytes: &[u8])
    requires whole { length buf.old % 512 ≡ 0 }
    requires fits { 512 * sector + length buf.old < 512 * 2 ^ 64 }
    requires whole_bytes { length bytes.now % 512 ≡ 0 }
    requires bytes_fit { 512 * from + length bytes.now < 512 * 2 ^ 64 }
    ensures { (f : Content) → buf.old ≡ cells f (512 * sector) (length buf.old) → buf.new ≡ cells (put_in (512 * from) bytes.now f) (512 * sector) (length buf.old) }
{
    let low = sector.max(from);
    let high = (sector + buf.len() as u64 / SECTOR_BYTES).min(
        from + bytes.len() as u64 / SECTOR_BYTES,
    );
    if low < high {
        let first = (SECTOR_BYTES * (low - from)) as usize;
        let last = (SECTOR_BYTES * (high - from)) as usize;
        put(
            buf,
            (SECTOR_BYTES * (low - sector)) as usize,
            &bytes[first..last],
        );
    }
}

// Writes a sector; no memory is wanted where it is kept.
fn write_one(kept: &mut Sectors, sector: u64, bytes: &[u8])
    requires len { length bytes.now ≡ 512 }
    requires there { is_kept kept.old sector ≡ true }
    ensures here { (i : ℕ) → i / 512 ≡ sector → byte_at kept.new i ≡ get_or bytes.now (i % 512) 0 }
    ensures others { (i : ℕ) → i / 512 ≢ sector → byte_at kept.new i ≡ byte_at kept.old i }
    ensures keys { (s : ℕ) → is_kept kept.new s ≡ is_kept kept.old s }
{
    let mut copy = [0u8; SECTOR];
    copy.copy_from_slice(bytes);
    match kept.insert(sector, copy) {
        Ok(_) => {}
        Err(_) => unreachable!(),
    }
}

/// Writes whole sectors, which are kept; so no memory is wanted.
pub fn write_kept(kept: &mut Sectors, sector: u64, bytes: &[u8])
    requires whole { length bytes.now % 512 ≡ 0 }
    requires fits { 512 * sector + length bytes.now < 512 * 2 ^ 64 }
    requires there { (i : ℕ) → within (512 * sector) (length bytes.now) i ≡ true → is_kept kept.old (i / 512) ≡ true }
    ensures bytes { (i : ℕ) → byte_at kept.new i ≡ put_in (512 * sector) bytes.now (byte_at kept.old) i }
    ensures keys { (s : ℕ) → is_kept kept.new s ≡ is_kept kept.old s }
{
    for k in 0..bytes.len() / SECTOR {
        write_one(
            kept,
            sector + k as u64,
            &bytes[SECTOR * k..SECTOR * k + SECTOR],
        );
    }
}

// Makes a place for a sector; its bytes stay.
fn keep_one(kept: &mut Sectors, sector: u64) -> Result<(), NoMemory>
    ensures there { OnOk result (is_kept kept.new sector ≡ true) }
    ensures bytes { (i : ℕ) → byte_at kept.new i ≡ byte_at kept.old i }
    ensures keys { (s : ℕ) → is_kept kept.old s ≡ true → is_kept kept.new s ≡ true }
{
    if kept.contains_key(&sector) {
        return Ok(());
    }
    match kept.insert(sector, [0; SECTOR]) {
        Ok(_) => Ok(()),
        Err(_) => Err(NoMemory),
    }
}

/// Makes places for whole sectors; all bytes stay.
pub fn keep(kept: &mut Sectors, sector: u64, sectors: u64) -> Result<(), NoMemory>
    requires { sector + sectors < 2 ^ 64 }
    ensures there { OnOk result ((s : ℕ) → sector ≤ s → s < sector + sectors → is_kept kept.new s ≡ true) }
    ensures bytes { (i : ℕ) → byte_at kept.new i ≡ byte_at kept.old i }
    ensures keys { (s : ℕ) → is_kept kept.old s ≡ true → is_kept kept.new s ≡ true }
{
    for k in 0..sectors {
        keep_one(kept, sector + k)?;
    }
    Ok(())
}
