use st_units::{Bytes, DevList, DevPath, DevRows, ItemList, Name, PoolSerial};

/// A known pool.
#[derive(Drop)]
pub struct FoundRow {
    pub serial: PoolSerial,
    pub name: Name,
    pub devs: DevRows,
    /// The first device of its rows that the rack doesn't have; the pool is incomplete exactly where there is one.
    pub missing: Option<DevPath>,
}

/// A pool whose newest record says that it was destroyed.
#[derive(Drop)]
pub struct GoneRow {
    pub serial: PoolSerial,
    /// The generation of that record.
    pub generation: u64,
    /// Its bytes.
    pub rec: Bytes,
    /// The devices of its rows with a header for it that lack the record, in order of the rack.
    pub devs: DevList,
}

/// Known pools, in order of their serials.
pub type FoundList = ItemList<FoundRow>;

/// Pools that are gone, in order of their serials.
pub type GoneList = ItemList<GoneRow>;
