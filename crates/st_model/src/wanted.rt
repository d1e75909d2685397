ghost use Rattle.std.specs.Prelude.{◌≡◌, true, IfOk, [], ◌∷◌};
ghost use Rattle.st_wants.specs.Names.{names_of};
ghost use Rattle.st_wants.specs.declared.want.Mode.TheVariants.{Read};
ghost use Rattle.st_wants.specs.declared.want.Want.TheVariants as wants;
ghost use Rattle.st_model.specs.Sound.{IsSound, are_few};
ghost use Rattle.st_model.specs.Wanted.{want_of};

use crate::call::Call;
use st_units::{Name, NameList, NoMemory};
use st_wants::{Mode, Names, Want};

/// What the call wants of the lock.
pub fn want_of(call: &Call) -> Result<Want, NoMemory>
    requires { IsSound call.now }
    ensures { IfOk result (λ want. want ≡ want_of call.now) }
{
    match call {
        Call::CreatePool {
            name: _,
            devices: _,
        }
        | Call::DestroyPool { name: _ }
        | Call::StopPool { name: _ }
        | Call::StartPool { id: _ }
        | Call::RenamePool { name: _, new: _ }
        | Call::AddDataDevs {
            pool: _,
            devices: _,
        }
        | Call::InitCache {
            pool: _,
            devices: _,
        }
        | Call::AddCacheDevs {
            pool: _,
            devices: _,
        }
        | Call::PowerCycle => Ok(Want::All(Mode::Write)),
        Call::CreateFilesystems {
            pool,
            filesystems: _,
        }
        | Call::DestroyFilesystems { pool, names: _ }
        | Call::SnapshotFilesystem {
            pool,
            origin: _,
            name: _,
        }
        | Call::RenameFilesystem {
            pool,
            name: _,
            new: _,
        }
        | Call::SetSizeLimit {
            pool,
            name: _,
            limit: _,
        }
        | Call::SetFsLimit { pool, limit: _ }
        | Call::SetOverprovisioning { pool, value: _ }
        | Call::FsWrite {
            pool,
            name: _,
            sector: _,
            payload: _,
        }
        | Call::FsRead {
            pool,
            name: _,
            sector: _,
            sectors: _,
        }
        | Call::Check { pool }
        | Call::SetMerge {
            pool,
            name: _,
            value: _,
        } => one(pool, Mode::Write),
        Call::PoolReport { pool } => one(pool, Mode::Read),
        Call::PoolReports { pools } => several(pools),
        Call::EngineStateReport => Ok(Want::All(Mode::Read)),
    }
}

fn one(pool: &Name, mode: Mode) -> Result<Want, NoMemory>
    ensures { IfOk result (λ want. want ≡ wants.Some (pool.now ∷ []) mode) }
{
    Ok(Want::Some(Names::one(pool.copy()?)?, mode))
}

/// The names of a list that has 1 to 8 of them.
fn several(pools: &NameList) -> Result<Want, NoMemory>
    requires { are_few pools.now ≡ true }
    ensures { IfOk result (λ want. want ≡ wants.Some (names_of pools.now) Read) }
{
    match Names::read(pools) {
        Ok(names) => Ok(Want::Some(names, Mode::Read)),
        Err(_) => Err(NoMemory),
    }
}
