use crate::call::Call;
use crate::number_map::NumberMap;
use st_units::{Bytes, DevList, DevPath, DevRows, FsRow, ItemList, Name, PoolSerial};

/// How a pool stands.
#[derive(Drop)]
pub enum PoolMode {
    /// Started.
    Up,
    /// Started, but a write failed in that call; the state is the one before it.
    Down(Call),
    /// Not started.
    Stopped,
    /// Not started, and that call was in flight.
    Unsettled(Call),
    /// Not started, and that device is missing; no more of the pool's state is known.
    Incomplete(DevPath),
}

/// A filesystem: its row, and the cell that each mapped block has.
#[derive(Drop)]
pub struct FsState {
    pub row: FsRow,
    /// From block number to cell number.
    pub map: NumberMap<u64>,
}

/// The cache of a pool.
#[derive(Drop)]
pub struct CacheState {
    /// In blocks.
    pub capacity: u64,
    /// The numbers of the cached cells, most recent first.
    pub cells: ItemList<u64>,
    pub hits: u64,
    pub misses: u64,
}

/// The state of a pool.
#[derive(Drop)]
pub struct PoolState {
    pub serial: PoolSerial,
    pub name: Name,
    pub mode: PoolMode,
    /// In order of arrival, of both tiers.
    pub devices: DevRows,
    /// In order of creation.
    pub filesystems: ItemList<FsState>,
    /// The bytes of each cell that is mapped, 128 sectors of them, by the cell's number.
    pub cells: NumberMap<Bytes>,
    /// The number that the next fresh cell gets.
    pub next_cell: u64,
    /// The serial that the next filesystem gets.
    pub next_filesystem: u64,
    /// The blocks of the data tier that cells may use.
    pub allocated: u64,
    /// How many filesystems the pool may have.
    pub filesystem_limit: u64,
    pub overprovisioning: bool,
    /// How many commits the pool has made.
    pub commits: u64,
    pub cache: Option<CacheState>,
}

/// The state of the engine.
#[derive(Drop)]
pub struct EngineState {
    /// The known pools, in order of their serials.
    pub pools: ItemList<PoolState>,
    /// The rack's devices, in byte order of their paths.
    pub devices: DevRows,
    /// The serial that the next pool gets.
    pub next: u64,
}

/// What the table tells of a known pool, started or not.
#[derive(Drop)]
pub struct KnownPool {
    pub name: Name,
    pub serial: PoolSerial,
    /// The name that a rename in flight gives it.
    pub new: Option<Name>,
    /// Those in use: of its state, and of its call in flight.
    pub devices: DevList,
}

/// The engine's state without its started pools.
#[derive(Drop)]
pub struct TableState {
    /// The known pools, in order of their serials.
    pub names: ItemList<KnownPool>,
    /// Those that aren't started, in the same order.
    pub stopped: ItemList<PoolState>,
    /// The rack's devices, in byte order of their paths.
    pub devices: DevRows,
    /// The serial that the next pool gets.
    pub next: u64,
}
