ghost use Rattle.std.specs.Prelude.{◌≡◌, true, IfOk, OnErr};
ghost use Rattle.st_model.specs.declared.entry.Env.TheVariants.{Plain};
ghost use Rattle.st_model.specs.Step.{step};
ghost use Rattle.st_model.specs.Valid.{IsValid};
ghost use Rattle.st_stepping.specs.Coded.{has_code};

use crate::inside;
use crate::start::start_pool;
use st_model::{Call, EngineState, Env, Reply};
use st_poolwide::{destroy_pool, power_cycle, rename_pool, stop_pool};
use st_units::NoMemory;
use std::alloc::Global;

/// Whether the call's step has code.
pub fn has_code(call: &Call) -> bool
    ensures { result ≡ has_code call.now }
{
    !matches!(
        call,
        Call::FsWrite {
            pool: _,
            name: _,
            sector: _,
            payload: _
        } | Call::PoolReports { pools: _ }
    )
}

/// Runs one call that meets nothing, and answers it. A refusal for want of memory changes nothing.
pub fn plain_step(state: &mut EngineState, alloc: Global, call: &Call) -> Result<Reply, NoMemory>
    requires valid { IsValid state.old }
    requires code { has_code call.now ≡ true }
    ensures ok { IfOk result (λ reply. (reply, state.new) ≡ step state.old call.now Plain) }
    ensures err { OnErr result (state.new ≡ state.old) }
{
    match call {
        Call::DestroyPool { name } => destroy_pool(state, name),
        Call::StopPool { name } => stop_pool(state, alloc, name),
        Call::StartPool { id } => start_pool(state, id),
        Call::RenamePool { name, new } => rename_pool(state, name, new),
        Call::PowerCycle => power_cycle(state, alloc),
        Call::CreateFilesystems {
            pool: _,
            filesystems: _,
        }
        | Call::DestroyFilesystems { pool: _, names: _ }
        | Call::SnapshotFilesystem {
            pool: _,
            origin: _,
            name: _,
        }
        | Call::FsRead {
            pool: _,
            name: _,
            sector: _,
            sectors: _,
        }
        | Call::Check { pool: _ } => inside::on_pool(state, alloc, call),
        Call::CreatePool {
            name: _,
            devices: _,
        }
        | Call::AddDataDevs {
            pool: _,
            devices: _,
        }
        | Call::InitCache {
            pool: _,
            devices: _,
        }
        | Call::AddCacheDevs {
            pool: _,
            devices: _,
        }
        | Call::EngineStateReport => st_step::step(state, alloc, call, &Env::Plain),
        Call::PoolReport { pool: _ }
        | Call::RenameFilesystem {
            pool: _,
            name: _,
            new: _,
        }
        | Call::SetSizeLimit {
            pool: _,
            name: _,
            limit: _,
        }
        | Call::SetFsLimit { pool: _, limit: _ }
        | Call::SetOverprovisioning { pool: _, value: _ }
        | Call::SetMerge {
            pool: _,
            name: _,
            value: _,
        } => st_within::on_pool(state, alloc, call),
        _ => unreachable!(),
    }
}
