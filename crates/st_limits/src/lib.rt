//! The numbers of the rules, each under its one name, with the definitions of sums, growth and the cache list in
//! `specs/`. Sizes and limits are in sectors, all other amounts of space in blocks.
#![tactic(auto)]

mod size;

pub use size::{is_device_size, usable_blocks};

/// Bytes of a sector.
pub const SECTOR_BYTES: u64 = 512;

/// Sectors of a block.
pub const BLOCK_SECTORS: u64 = 128;

/// Bytes of a block.
pub const BLOCK_BYTES: u64 = BLOCK_SECTORS * SECTOR_BYTES;

/// Sectors at the head of a device that hold its header and records.
pub const RESERVED_SECTORS: u64 = 256;

/// The fewest sectors of a device that a pool takes in.
pub const MIN_DEVICE_SECTORS: u64 = 8_192;

/// The most sectors of a device.
pub const MAX_DEVICE_SECTORS: u64 = 4_294_967_296;

/// Blocks at the head of the first data device that hold the records of filesystems.
pub const FLEX_BLOCKS: u64 = 26;

/// The most devices of a pool, in both tiers together.
pub const MAX_POOL_DEVICES: u64 = 16;

/// The most devices of a rack.
pub const MAX_RACK_DEVICES: u64 = 64;

/// The most pools that an engine knows.
pub const MAX_POOLS: u64 = 16;

/// The greatest serial of a pool.
pub const MAX_POOL_SERIAL: u64 = 281_474_976_710_656;

/// The most commits of a pool, and so the greatest generation of a record.
pub const MAX_COMMITS: u64 = 281_474_976_710_656;

/// Blocks that a new pool has allocated.
pub const FIRST_ALLOCATION: u64 = 32;

/// Below so many free blocks the data tier is extended.
pub const LOW_WATER: u64 = 16;

/// Blocks that an extension adds where so many are left.
pub const EXTENSION_STEP: u64 = 64;

/// The most that the limit on a pool's filesystems may be raised to.
pub const MAX_FILESYSTEMS: u64 = 256;

/// The most filesystems of a pool whose records are of the first version.
pub const MAX_FILESYSTEMS_V1: u64 = 128;

/// The most filesystems that a new pool may hold.
pub const DEFAULT_FS_LIMIT: u64 = 100;

/// The greatest size or limit of a filesystem.
pub const MAX_FS_SECTORS: u64 = 4_294_967_296;

/// Sectors of a filesystem that is made without a size.
pub const DEFAULT_FS_SECTORS: u64 = 32_768;

/// The most mapped blocks of a pool, over all its filesystems.
pub const MAX_MAPPINGS: u64 = 32_768;

/// The most sectors that a call writes.
pub const MAX_WRITE_SECTORS: u64 = 128;

/// The most sectors that a call reads.
pub const MAX_READ_SECTORS: u64 = 8;

/// The most lanes of a run.
pub const MAX_LANES: u64 = 8;

/// The most lines of an input.
pub const MAX_LINES: u64 = 65_536;

/// The most bytes of a line.
pub const MAX_LINE_BYTES: u64 = 16_384;

/// The most bytes of an input.
pub const MAX_INPUT_BYTES: u64 = 67_108_864;
