use crate::name::Name;
use crate::path::DevPath;

/// A part of a line that a call is read from: the line as a whole, or one of its members.
#[derive(Clone, Copy, Debug, PartialEq, Eq)]
pub enum Member {
    Line,
    Lane,
    Call,
    Name,
    Devices,
    Id,
    IdType,
    New,
    Pool,
    Filesystems,
    Names,
    Origin,
    Limit,
    Value,
    Sector,
    Hex,
    Fill,
    Sectors,
    Pools,
}

/// Why a call was refused. Numbers of filesystems, mappings and blocks are counts.
#[derive(Drop)]
pub enum Cause {
    /// The line is no call: the first member that is missing or wrong.
    BadCall(Member),
    /// A name outside the limits.
    BadName(Member),
    EmptyDevices,
    /// The first path that isn't in the rack.
    NoSuchDevice(DevPath),
    NameInUse,
    /// The first path in use, and the pool that uses it.
    DeviceInUse(DevPath, Name),
    /// The first path whose device is too small.
    DeviceTooSmall(DevPath),
    TooManyDevices,
    TooManyPools,
    /// The pool is down.
    Maintenance(Name),
    PoolStopped,
    /// How many filesystems the pool has.
    NotEmpty(u64),
    NoSuchPool,
    /// The device that is missing.
    MissingDevice(DevPath),
    PoolVanished,
    CacheExists,
    NoCache,
    /// The filesystem, or for the filesystem limit the pool.
    BadSize(Name),
    TooManyFilesystems,
    /// The sum of all sizes and the room, in blocks.
    OverProvision(u64, u64),
    NoSuchFilesystem,
    /// The mappings that there are, and those that would come.
    MappingFull(u64, u64),
    /// The first filesystem whose limit is below its size.
    LimitBelowSize(Name),
    LimitLower,
    OutOfRange,
    /// The free blocks, and those that are needed.
    NoSpace(u64, u64),
    DeviceFault,
    OutOfMemory,
    /// The pool has made as many commits as it can.
    Worn,
    /// A filesystem without an origin has nothing to replace.
    NoOrigin,
    /// The first filesystem whose mark stands in the way.
    MergeConflict(Name),
}
