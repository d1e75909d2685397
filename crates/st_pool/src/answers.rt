ghost use Rattle.std.specs.Prelude.{◌≡◌, None, Some, true, false};
ghost use Rattle.st_units.specs.declared.cause.Cause.TheVariants.{OutOfMemory};
ghost use Rattle.st_model.specs.declared.entry.Env.TheVariants as envs;
ghost use Rattle.st_model.specs.declared.reply.Given.TheVariants as gives;
ghost use Rattle.st_model.specs.declared.reply.Identity.TheVariants as identities;
ghost use Rattle.st_model.specs.Answer as Answer;
ghost use Rattle.st_pool.specs.Answered.{answered, failed};

use crate::reply::PoolReply;
use st_model::{Env, Given, Identity, Reply};
use st_units::{Cause, PoolSerial};

/// The pool was changed.
pub fn changed(serial: PoolSerial) -> PoolReply
    ensures { result ≡ answered envs.Plain (Answer.accepted (gives.Changed true (Some (identities.Pool serial)))) }
{
    PoolReply {
        reply: Reply::accepted(Given::Changed(true, Some(Identity::Pool(serial)))),
        twin: Reply::accepted(Given::Changed(true, Some(Identity::Pool(serial)))),
        env: Env::Plain,
        low: false,
    }
}

/// Nothing is changed, and so it is answered.
pub fn plainly(reply: Reply, twin: Reply) -> PoolReply
    requires { twin ≡ reply }
    ensures { result ≡ answered envs.Plain reply }
{
    PoolReply {
        reply,
        twin,
        env: Env::Plain,
        low: false,
    }
}

/// Memory was refused.
pub fn no_memory() -> PoolReply
    ensures { result ≡ answered envs.NoMem (Answer.refused OutOfMemory) }
{
    PoolReply {
        reply: Reply::refused(Cause::OutOfMemory),
        twin: Reply::refused(Cause::OutOfMemory),
        env: Env::NoMem,
        low: false,
    }
}

/// A device failed from the first write on.
pub fn device_fault() -> PoolReply
    ensures { result ≡ failed }
{
    PoolReply {
        reply: Reply::refused(Cause::DeviceFault),
        twin: Reply::refused(Cause::DeviceFault),
        env: Env::FaultWrite,
        low: false,
    }
}
