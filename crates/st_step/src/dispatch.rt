ghost use Rattle.std.specs.Prelude.{◌≡◌, true, IfOk, OnErr};
ghost use Rattle.st_model.specs.Sound.{IsSound};
ghost use Rattle.st_model.specs.Step.{step};
ghost use Rattle.st_model.specs.Valid.{IsValid};
ghost use Rattle.st_step.specs.Running.{runs};

use crate::add_devices::{Adding, add_devices};
use crate::create_pool::{create_broken, create_pool};
use crate::reports::engine_state_report;
use st_model::{Call, EngineState, Env, Reply};
use st_units::{Cause, NoMemory};
use std::alloc::Global;

/// Runs one call for what it met, and answers it. A refusal for want of memory changes nothing.
pub fn step(
    state: &mut EngineState,
    alloc: Global,
    call: &Call,
    env: &Env,
) -> Result<Reply, NoMemory>
    requires valid { IsValid state.old }
    requires runs { runs call.now env.now ≡ true }
    ensures ok { IfOk result (λ reply. (reply, state.new) ≡ step state.old call.now env.now) }
    ensures err { OnErr result (state.new ≡ state.old) }
{
    match (call, env) {
        (_, Env::NoMem) => Ok(Reply::refused(Cause::OutOfMemory)),
        (Call::CreatePool { name, devices }, Env::Plain) => {
            create_pool(state, alloc, name, devices)
        }
        (Call::CreatePool { name, devices }, Env::FaultWrite) => {
            create_broken(state, alloc, name, devices)
        }
        (Call::AddDataDevs { pool, devices }, Env::Plain) => {
            add_devices(state, alloc, Adding::ToData, pool, devices)
        }
        (Call::InitCache { pool, devices }, Env::Plain) => {
            add_devices(state, alloc, Adding::ToNewCache, pool, devices)
        }
        (Call::AddCacheDevs { pool, devices }, Env::Plain) => {
            add_devices(state, alloc, Adding::ToCache, pool, devices)
        }
        (Call::EngineStateReport, Env::Plain) => engine_state_report(state, alloc),
        _ => unreachable!(),
    }
}
