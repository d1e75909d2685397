ghost use Rattle.std.specs.Prelude.{◌≡◌, IfOk};
ghost use Rattle.st_check.specs.Checked.{fault_reply, verdict};

use json::Scratch;
use st_calls::{LineFault, read_call_with};
use st_model::{Given, Reply};
use st_units::{Cause, NoMemory};
use std::alloc::Global;

/// The reply to a line that is no call.
pub fn fault_reply(fault: LineFault) -> Reply
    ensures { result ≡ fault_reply fault }
{
    match fault {
        LineFault::BadCall(member) => Reply::refused(Cause::BadCall(member)),
        LineFault::BadName(member) => Reply::refused(Cause::BadName(member)),
        LineFault::OutOfMemory => Reply::refused(Cause::OutOfMemory),
    }
}

/// The reply to a line: what is wrong with it, or that it is accepted.
pub(crate) fn verdict(
    alloc: Global,
    scratch: &mut Scratch,
    line: &[u8],
    lanes: u8,
) -> Result<Reply, NoMemory>
    ensures { IfOk result (λ reply. reply ≡ verdict lanes line.now) }
{
    match read_call_with(alloc, scratch, line, lanes) {
        Ok(_) => Ok(Reply::accepted(Given::Accepted)),
        Err(LineFault::OutOfMemory) => Err(NoMemory),
        Err(fault) => Ok(fault_reply(fault)),
    }
}
