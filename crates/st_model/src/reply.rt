use crate::info::{Infos, PoolInfo, TableInfo};
use st_units::{Bytes, Cause, DevList, ItemList, Name, PoolSerial, Shared};

/// Who a UUID stands for.
#[derive(Clone, Copy)]
pub enum Identity {
    Pool(PoolSerial),
    /// A filesystem, by its pool and its own serial there.
    Filesystem(PoolSerial, u64),
}

/// A filesystem that was created.
#[derive(Drop)]
pub struct NewFs {
    pub name: Name,
    pub identity: Identity,
}

/// What a call gives. A truth value comes first where the call may find its intent held already:
/// it says whether anything was changed.
#[derive(Drop)]
pub enum Given {
    /// CreatePool: the new pool and its devices.
    Created(bool, Option<(PoolSerial, DevList)>),
    /// A pool or a filesystem that was changed, made or ended by itself.
    Changed(bool, Option<Identity>),
    /// The devices that were added to a tier.
    Added(bool, DevList),
    /// CreateFilesystems: those that were created, in order.
    CreatedFilesystems(bool, ItemList<NewFs>),
    /// DestroyFilesystems: those that were destroyed, in the list's order.
    DestroyedFilesystems(bool, ItemList<Identity>),
    /// A setting, or the power cycle.
    Done(bool),
    /// FsWrite: the sectors that were written.
    Written(u64),
    /// FsRead: the bytes that were read.
    Read(Bytes),
    /// Check: the blocks added and the filesystems grown.
    Checked(bool, u64, u64),
    /// PoolReport.
    Pool(Shared<PoolInfo>),
    /// PoolReports: in the list's order, each pool once.
    Pools(Infos<PoolInfo>),
    /// EngineStateReport: the table, and each started pool in byte order of the names.
    Engine(Shared<TableInfo>, Infos<PoolInfo>),
    /// The line is a call.
    Accepted,
}

/// The answer to a call: with code 0 what it gives, else why it was refused.
#[derive(Drop)]
pub struct Reply {
    pub code: u8,
    pub result: Option<Given>,
    pub cause: Option<Cause>,
}
