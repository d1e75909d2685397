// What a device holds.

use sha2::{Digest, Sha256};
use st_rack::Rack;

/// The sectors of a device.
const SECTORS: u64 = 65_536;

/// How many bytes of each device are told. Pools without filesystems write no others.
pub const SHOWN: usize = 2_097_152;

/// The seal of the first bytes of a device; None where it isn't there, or fails. The buffer is for these bytes.
pub fn seal_of<R: Rack>(rack: &mut R, index: usize, buf: &mut [u8]) -> Option<[u8; 32]> {
    if index >= rack.devices() || buf.len() != SHOWN {
        return None;
    }
    let dev = rack.path_of(index).copy().ok()?;
    if rack.sectors(&dev) != Some(SECTORS) {
        return None;
    }
    rack.read(&dev, 0, buf).ok()?;
    Some(Sha256::digest(&*buf))
}
