ghost use Rattle.std.specs.Prelude.{◌≡◌, ◌+◌, ◌*◌, ◌%◌, ◌^◌, ◌<◌, length};

use crate::Pick;
use crate::sectors::SECTOR;

/// A write that wasn't synced yet: from which sector on, its bytes as they were meant, and what of them a read gives.
#[derive(Drop)]
pub struct Torn {
    pub sector: u64,
    pub bytes: Vec<u8>,
    pub took: Pick,
    pub ghost whole: { length bytes.items % 512 ≡ 0 },
    pub ghost fits: { 512 * sector + length bytes.items < 512 * 2 ^ 64 },
}

impl Torn {
    ghost use Rattle.st_sparse.specs.Since.{reached};

    /// The bytes that reach the device.
    pub fn reached(&self, pick: Pick) -> &[u8]
        ensures { result.now ≡ reached pick self.now.bytes.items }
    {
        match pick {
            Pick::Old => &self.bytes[..0],
            Pick::New => self.bytes.as_slice(),
            Pick::Half => &self.bytes[..SECTOR * (self.bytes.len() / SECTOR).div_ceil(2)],
        }
    }
}
