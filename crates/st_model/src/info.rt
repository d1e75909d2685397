use st_units::{DevList, DevRows, FsRow, ItemList, Name, PoolSerial, Shared};

/// The mode of a pool, as reports show it.
#[derive(Clone, Copy, Debug, PartialEq, Eq)]
pub enum ShownMode {
    Up,
    Down,
    Stopped,
    Unsettled,
    Incomplete,
}

/// What a report shows of a filesystem.
#[derive(Drop)]
pub struct FsInfo {
    pub row: FsRow,
    /// How many of its blocks are mapped.
    pub mapped: u64,
}

/// Filesystems of a report, in order of creation.
pub type FsInfoList = ItemList<FsInfo>;

/// What a report shows of a cache.
#[derive(Clone, Copy, Drop)]
pub struct CacheInfo {
    /// Its capacity.
    pub blocks: u64,
    pub hits: u64,
    pub misses: u64,
    /// How many cells are cached.
    pub used: u64,
}

/// What reports show of a started pool. Numbers of space are in blocks.
#[derive(Drop)]
pub struct PoolInfo {
    pub serial: PoolSerial,
    pub name: Name,
    pub mode: ShownMode,
    pub devs: DevRows,
    pub filesystems: FsInfoList,
    pub fs_limit: u64,
    pub overprovisioning: bool,
    /// The blocks that the data tier could give.
    pub room: u64,
    /// Those that it has given.
    pub allocated: u64,
    /// Those that cells use.
    pub used: u64,
    pub cache: Option<CacheInfo>,
}

/// What a report shows of a pool that isn't started.
#[derive(Drop)]
pub struct StoppedRow {
    pub name: Name,
    pub serial: PoolSerial,
    pub mode: ShownMode,
}

/// Stopped pools in byte order of their names.
pub type StoppedList = ItemList<StoppedRow>;

/// What a report shows of the engine besides its started pools.
#[derive(Drop)]
pub struct TableInfo {
    /// The serial that the next pool gets.
    pub next: u64,
    /// The devices that no pool uses, in byte order of their paths.
    pub free: DevList,
    pub stopped: StoppedList,
}

/// Infos that are shared with others who show them.
pub type Infos<I> = ItemList<Shared<I>>;

/// A known pool, as the closing of a run asks for it.
#[derive(Drop)]
pub struct PoolRow {
    pub name: Name,
    /// Started, and no write failed.
    pub up: bool,
}
