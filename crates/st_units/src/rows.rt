ghost use Rattle.std.specs.Prelude.{◌≡◌, IfOk};

use crate::list::ItemList;
use crate::memory::NoMemory;
use crate::name::Name;
use crate::path::DevPath;

/// Paths in order.
pub type DevList = ItemList<DevPath>;

/// Devices in order.
pub type DevRows = ItemList<DevRow>;

/// Names in order.
pub type NameList = ItemList<Name>;

/// Filesystems that are to be created, in order.
pub type FsSpecList = ItemList<FsSpec>;

/// Segments in order.
pub type SegList = ItemList<Segment>;

/// Which tier of a pool a device serves.
#[derive(Clone, Copy, Debug, PartialEq, Eq)]
pub enum Tier {
    DataTier,
    CacheTier,
}

/// A device of a pool or of a rack.
#[derive(Drop)]
pub struct DevRow {
    pub path: DevPath,
    /// Of a rack's device it isn't looked at.
    pub tier: Tier,
    /// Its size in sectors of 512 bytes.
    pub sectors: u64,
}

impl DevRow {
    /// The same row once more.
    pub fn copy(&self) -> Result<DevRow, NoMemory>
        ensures { IfOk result (λ row. row ≡ self.now) }
    {
        Ok(DevRow {
            path: self.path.copy()?,
            tier: self.tier,
            sectors: self.sectors,
        })
    }
}

/// A filesystem of a pool.
#[derive(Drop)]
pub struct FsRow {
    /// Its serial in its pool, from 1.
    pub serial: u64,
    pub name: Name,
    /// Its size in sectors.
    pub size: u64,
    /// The size in sectors that it may grow to, or none.
    pub limit: Option<u64>,
    /// The serial of the filesystem that it is a snapshot of, as long as that one exists.
    pub origin: Option<u64>,
    /// It is to replace its origin at the pool's next start.
    pub merge: bool,
}

impl FsRow {
    /// The same row once more.
    pub fn copy(&self) -> Result<FsRow, NoMemory>
        ensures { IfOk result (λ row. row ≡ self.now) }
    {
        Ok(FsRow {
            serial: self.serial,
            name: self.name.copy()?,
            size: self.size,
            limit: self.limit,
            origin: self.origin,
            merge: self.merge,
        })
    }
}

/// A filesystem that is to be created.
#[derive(Drop)]
pub struct FsSpec {
    pub name: Name,
    /// Its size in sectors; none stands for the default.
    pub size: Option<u64>,
    /// Its limit in sectors, or none.
    pub limit: Option<u64>,
}

/// Usable blocks of a device, next to each other.
#[derive(Clone, Copy, Debug, PartialEq, Eq)]
pub struct Segment {
    /// The number of the device's row.
    pub dev: u16,
    /// The first usable block.
    pub first: u32,
    /// How many blocks.
    pub blocks: u32,
}
