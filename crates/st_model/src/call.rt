use st_units::{Bytes, DevList, FsSpecList, Name, NameList};

/// A call of the engine, with its arguments as they were given.
#[derive(Drop)]
pub enum Call {
    CreatePool {
        name: Name,
        devices: DevList,
    },
    DestroyPool {
        name: Name,
    },
    StopPool {
        name: Name,
    },
    StartPool {
        id: PoolId,
    },
    RenamePool {
        name: Name,
        new: Name,
    },
    AddDataDevs {
        pool: Name,
        devices: DevList,
    },
    InitCache {
        pool: Name,
        devices: DevList,
    },
    AddCacheDevs {
        pool: Name,
        devices: DevList,
    },
    CreateFilesystems {
        pool: Name,
        filesystems: FsSpecList,
    },
    DestroyFilesystems {
        pool: Name,
        names: NameList,
    },
    SnapshotFilesystem {
        pool: Name,
        origin: Name,
        name: Name,
    },
    RenameFilesystem {
        pool: Name,
        name: Name,
        new: Name,
    },
    SetSizeLimit {
        pool: Name,
        name: Name,
        /// In sectors, or none.
        limit: Option<u64>,
    },
    SetFsLimit {
        pool: Name,
        /// A count of filesystems.
        limit: u64,
    },
    SetOverprovisioning {
        pool: Name,
        value: bool,
    },
    FsWrite {
        pool: Name,
        name: Name,
        /// The first sector.
        sector: u64,
        payload: Payload,
    },
    FsRead {
        pool: Name,
        name: Name,
        /// The first sector.
        sector: u64,
        /// How many sectors.
        sectors: u64,
    },
    Check {
        pool: Name,
    },
    PoolReport {
        pool: Name,
    },
    /// The reports of several pools, of one place of the history.
    PoolReports {
        /// 1 to 8 distinct names, each counted once at its first place.
        pools: NameList,
    },
    EngineStateReport,
    /// Marks a snapshot to replace its origin at the pool's next start, or takes the mark away.
    SetMerge {
        pool: Name,
        name: Name,
        value: bool,
    },
    /// The rack loses its power and comes back. No line can ask for it.
    PowerCycle,
}

/// What a write writes.
#[derive(Drop)]
pub enum Payload {
    /// One byte throughout so many sectors.
    Fill(u8, u64),
    /// The bytes of whole sectors.
    Given(Bytes),
}

/// How a pool is named by a start.
#[derive(Drop)]
pub enum PoolId {
    ByName(Name),
    /// The identity in UUID form.
    ByUuid(u128),
}
