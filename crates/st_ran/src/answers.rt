ghost use Rattle.std.specs.Prelude.{◌≡◌};
ghost use Rattle.st_units.specs.declared.cause.Cause.TheVariants.{OutOfMemory};
ghost use Rattle.st_model.specs.declared.entry.Env.TheVariants as envs;
ghost use Rattle.st_model.specs.Answer.{refused};
ghost use Rattle.st_pool.specs.Answered.{answered};

use st_model::{Env, Reply};
use st_pool::PoolReply;
use st_units::Cause;

/// Memory was refused.
pub fn no_memory() -> PoolReply
    ensures { result ≡ answered envs.NoMem (refused OutOfMemory) }
{
    PoolReply {
        reply: Reply::refused(Cause::OutOfMemory),
        twin: Reply::refused(Cause::OutOfMemory),
        env: Env::NoMem,
        low: false,
    }
}

/// The call met nothing, and so it is answered.
pub fn plainly(reply: Reply, twin: Reply) -> PoolReply
    requires { twin ≡ reply }
    ensures { result ≡ answered envs.Plain reply }
{
    PoolReply {
        reply,
        twin,
        env: Env::Plain,
        low: false,
    }
}
