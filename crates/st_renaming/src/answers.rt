ghost use Rattle.std.specs.Prelude.{◌≡◌, false, Some, None, IfSome, IfNone, bytes_eq};
ghost use Rattle.st_model.specs.declared.entry.Env.TheVariants as envs;
ghost use Rattle.st_model.specs.declared.reply.Given.TheVariants.{Changed};
ghost use Rattle.st_model.specs.Answer as Answer;
ghost use Rattle.st_pool.specs.Answered.{answered};
ghost use Rattle.st_table.specs.Table.{is_taken, knows};
ghost use Rattle.st_renaming.specs.inner.Answers.{answer_early, answer_unstarted};

use st_model::{Given, Reply};
use st_pool::PoolReply;
use st_ran::plainly;
use st_table::Table;
use st_units::{Cause, Name};

fn refused(cause: Cause, twin: Cause) -> PoolReply
    requires { twin ≡ cause }
    ensures { result ≡ answered envs.Plain (Answer.refused cause) }
{
    plainly(Reply::refused(cause), Reply::refused(twin))
}

/// The pool has the name that was asked for.
fn unchanged() -> PoolReply
    ensures { result ≡ answered envs.Plain (Answer.accepted (Changed false None)) }
{
    plainly(
        Reply::accepted(Given::Changed(false, None)),
        Reply::accepted(Given::Changed(false, None)),
    )
}

/// The answer where no started pool has the name.
pub fn unstarted(table: &Table, name: &Name, new: &Name) -> PoolReply
    ensures { result ≡ answered envs.Plain (answer_unstarted (knows name.now table.now.pools) (bytes_eq name.now new.now) (is_taken new.now table.now.pools)) }
{
    if !table.is_known(name) {
        return refused(Cause::NoSuchPool, Cause::NoSuchPool);
    }
    if name.bytes() == new.bytes() {
        return unchanged();
    }
    if table.held(new) {
        return refused(Cause::NameInUse, Cause::NameInUse);
    }
    refused(Cause::PoolStopped, Cause::PoolStopped)
}

/// The answer where a started pool has the name, None where that pool is to be asked.
pub fn early(table: &Table, name: &Name, new: &Name) -> Option<PoolReply>
    ensures some { IfSome result (λ answer. (reply : _) × (answer ≡ answered envs.Plain reply) × (answer_early (bytes_eq name.now new.now) (is_taken new.now table.now.pools) ≡ Some reply)) }
    ensures none { IfNone result (answer_early (bytes_eq name.now new.now) (is_taken new.now table.now.pools) ≡ None) }
{
    if name.bytes() == new.bytes() {
        return Some(unchanged());
    }
    if table.held(new) {
        return Some(refused(Cause::NameInUse, Cause::NameInUse));
    }
    None
}
