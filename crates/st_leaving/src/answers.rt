ghost use Rattle.std.specs.Prelude.{◌≡◌, Some, None, true, false};
ghost use Rattle.st_model.specs.declared.entry.Env.TheVariants.{Plain};
ghost use Rattle.st_model.specs.declared.reply.Given.TheVariants.{Changed};
ghost use Rattle.st_model.specs.declared.reply.Identity.TheVariants as identities;
ghost use Rattle.st_model.specs.Answer as Answer;
ghost use Rattle.st_pool.specs.Answered.{answered};

use st_model::{Given, Identity, Reply};
use st_pool::PoolReply;
use st_ran::plainly;
use st_units::{Cause, PoolSerial};

/// The pool of this serial was changed.
pub fn changed(serial: PoolSerial) -> PoolReply
    ensures { result ≡ answered Plain (Answer.accepted (Changed true (Some (identities.Pool serial)))) }
{
    plainly(
        Reply::accepted(Given::Changed(true, Some(Identity::Pool(serial)))),
        Reply::accepted(Given::Changed(true, Some(Identity::Pool(serial)))),
    )
}

/// There was nothing to change.
pub fn unchanged() -> PoolReply
    ensures { result ≡ answered Plain (Answer.accepted (Changed false None)) }
{
    plainly(
        Reply::accepted(Given::Changed(false, None)),
        Reply::accepted(Given::Changed(false, None)),
    )
}

/// It is refused, for this cause, which is given twice.
pub fn refused(cause: Cause, twin: Cause) -> PoolReply
    requires { twin ≡ cause }
    ensures { result ≡ answered Plain (Answer.refused cause) }
{
    plainly(Reply::refused(cause), Reply::refused(twin))
}
