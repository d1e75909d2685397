ghost use Rattle.std.specs.Prelude.{◌≡◌, IfOk};

use crate::call::{Call, Payload, PoolId};
use st_units::{Bytes, FsSpec, FsSpecList, NoMemory};
use std::alloc::Global;

impl Payload {
    /// The same once more.
    pub fn copy(&self, alloc: Global) -> Result<Payload, NoMemory>
        ensures { IfOk result (λ copy. copy ≡ self.now) }
    {
        match self {
            Payload::Fill(byte, sectors) => Ok(Payload::Fill(*byte, *sectors)),
            Payload::Given(bytes) => Ok(Payload::Given(Bytes::copy_of(alloc, bytes.items())?)),
        }
    }
}

impl PoolId {
    /// The same once more.
    pub fn copy(&self) -> Result<PoolId, NoMemory>
        ensures { IfOk result (λ copy. copy ≡ self.now) }
    {
        match self {
            PoolId::ByName(name) => Ok(PoolId::ByName(name.copy()?)),
            PoolId::ByUuid(uuid) => Ok(PoolId::ByUuid(*uuid)),
        }
    }
}

fn spec_copy(spec: &FsSpec) -> Result<FsSpec, NoMemory>
    ensures { IfOk result (λ copy. copy ≡ spec.now) }
{
    Ok(FsSpec {
        name: spec.name.copy()?,
        size: spec.size,
        limit: spec.limit,
    })
}

fn specs_copy(alloc: Global, specs: &FsSpecList) -> Result<FsSpecList, NoMemory>
    ensures { IfOk result (λ copy. copy ≡ specs.now) }
{
    let mut list = FsSpecList::make(alloc);
    let specs = specs.items();
    for spec in specs {
        list.push(spec_copy(spec)?)?;
    }
    Ok(list)
}

impl Call {
    /// The same call once more.
    pub fn copy(&self, alloc: Global) -> Result<Call, NoMemory>
        ensures { IfOk result (λ copy. copy ≡ self.now) }
    {
        match self {
            Call::CreatePool { name, devices } => Ok(Call::CreatePool {
                name: name.copy()?,
                devices: devices.copy(alloc)?,
            }),
            Call::DestroyPool { name } => Ok(Call::DestroyPool { name: name.copy()? }),
            Call::StopPool { name } => Ok(Call::StopPool { name: name.copy()? }),
            Call::StartPool { id } => Ok(Call::StartPool { id: id.copy()? }),
            Call::RenamePool { name, new } => Ok(Call::RenamePool {
                name: name.copy()?,
                new: new.copy()?,
            }),
            Call::PowerCycle => Ok(Call::PowerCycle),
            Call::EngineStateReport => Ok(Call::EngineStateReport),
            Call::PoolReport { pool } => Ok(Call::PoolReport { pool: pool.copy()? }),
            Call::PoolReports { pools } => Ok(Call::PoolReports {
                pools: pools.copy(alloc)?,
            }),
            Call::AddDataDevs { pool, devices } => Ok(Call::AddDataDevs {
                pool: pool.copy()?,
                devices: devices.copy(alloc)?,
            }),
            Call::InitCache { pool, devices } => Ok(Call::InitCache {
                pool: pool.copy()?,
                devices: devices.copy(alloc)?,
            }),
            Call::AddCacheDevs { pool, devices } => Ok(Call::AddCacheDevs {
                pool: pool.copy()?,
                devices: devices.copy(alloc)?,
            }),
            call => call.copy_within(alloc),
        }
    }

    /// So for the calls within a pool.
    fn copy_within(&self, alloc: Global) -> Result<Call, NoMemory>
        ensures { IfOk result (λ copy. copy ≡ self.now) }
    {
        match self {
            Call::CreateFilesystems { pool, filesystems } => Ok(Call::CreateFilesystems {
                pool: pool.copy()?,
                filesystems: specs_copy(alloc, filesystems)?,
            }),
            Call::DestroyFilesystems { pool, names } => Ok(Call::DestroyFilesystems {
                pool: pool.copy()?,
                names: names.copy(alloc)?,
            }),
            Call::SnapshotFilesystem { pool, origin, name } => Ok(Call::SnapshotFilesystem {
                pool: pool.copy()?,
                origin: origin.copy()?,
                name: name.copy()?,
            }),
            Call::RenameFilesystem { pool, name, new } => Ok(Call::RenameFilesystem {
                pool: pool.copy()?,
                name: name.copy()?,
                new: new.copy()?,
            }),
            Call::SetSizeLimit { pool, name, limit } => Ok(Call::SetSizeLimit {
                pool: pool.copy()?,
                name: name.copy()?,
                limit: *limit,
            }),
            Call::SetFsLimit { pool, limit } => Ok(Call::SetFsLimit {
                pool: pool.copy()?,
                limit: *limit,
            }),
            Call::SetOverprovisioning { pool, value } => Ok(Call::SetOverprovisioning {
                pool: pool.copy()?,
                value: *value,
            }),
            Call::SetMerge { pool, name, value } => Ok(Call::SetMerge {
                pool: pool.copy()?,
                name: name.copy()?,
                value: *value,
            }),
            Call::Check { pool } => Ok(Call::Check { pool: pool.copy()? }),
            call => call.copy_io(alloc),
        }
    }

    /// So for reading and writing.
    fn copy_io(&self, alloc: Global) -> Result<Call, NoMemory>
        ensures { IfOk result (λ copy. copy ≡ self.now) }
    {
        match self {
            Call::FsWrite {
                pool,
                name,
                sector,
                payload,
            } => Ok(Call::FsWrite {
                pool: pool.copy()?,
                name: name.copy()?,
                sector: *sector,
                payload: payload.copy(alloc)?,
            }),
            Call::FsRead {
                pool,
                name,
                sector,
                sectors,
            } => Ok(Call::FsRead {
                pool: pool.copy()?,
                name: name.copy()?,
                sector: *sector,
                sectors: *sectors,
            }),
            _ => Err(NoMemory),
        }
    }
}
