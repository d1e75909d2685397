ghost use Rattle.std.specs.Prelude.{OnOk};
ghost use Rattle.st_json.specs.Adds.{AddsData};
ghost use Rattle.st_replies.specs.Results.{result_data};
ghost use Rattle.st_replies.specs.Shown.{reply_data, line_data};

use crate::result::put_result;
use crate::text::text_of;
use json::Writer;
use st_json::{close_object, count_member, open_object, put_key, text_member};
use st_model::{Given, Reply};
use st_units::NoMemory;
use std::alloc::Global;

/// The reply as an object of its code, its result and its text, as the trace shows it.
#[tactic(auto, unfolding(crate::specs::Shown::reply_data))]
pub fn put_reply(alloc: Global, out: &mut Writer, reply: &Reply) -> Result<(), NoMemory>
    ensures { OnOk result (AddsData out.old out.new (reply_data reply.now)) }
{
    let text = text_of(alloc, &reply.cause)?;
    open_object(out)?;
    count_member(out, "code", u64::from(reply.code))?;
    put_key(out, "result")?;
    put_result(alloc, out, &reply.result)?;
    text_member(out, "text", text.as_str())?;
    close_object(out)?;
    Ok(())
}

/// What answers a line: a code, the line's number, a result and a text.
#[tactic(auto, unfolding(crate::specs::Shown::line_data))]
pub(crate) fn put_line(
    alloc: Global,
    out: &mut Writer,
    code: u64,
    line: u64,
    given: &Option<Given>,
    text: &str,
) -> Result<(), NoMemory>
    ensures { OnOk result (AddsData out.old out.new (line_data code line (result_data given.now) text.now)) }
{
    open_object(out)?;
    count_member(out, "code", code)?;
    count_member(out, "line", line)?;
    put_key(out, "result")?;
    put_result(alloc, out, given)?;
    text_member(out, "text", text)?;
    close_object(out)?;
    Ok(())
}
