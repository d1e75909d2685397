ghost use Rattle.std.specs.Prelude.{◌≡◌, IfOk, OnOk, map};
ghost use Rattle.st_json.specs.Adds.{AddsData, AddsItems};
ghost use Rattle.st_trace.specs.Traced.{entry_data, entries_data, arrive_data, grant_data, release_data, event_data, trace_line};

use crate::call::put_call;
use crate::values::{put_env, put_origin, put_want};
use json::Writer;
use st_history::Event;
use st_json::{
    close_list, close_object, count_member, line_of, new_line, open_list, open_object, put_key,
    text_member,
};
use st_model::Entry;
use st_replies::put_reply;
use st_units::{Bytes, NoMemory};
use st_wants::Want;
use std::alloc::Global;

#[tactic(auto, unfolding(crate::specs::Traced::entry_data))]
fn put_entry(alloc: Global, out: &mut Writer, entry: &Entry) -> Result<(), NoMemory>
    ensures { OnOk result (AddsData out.old out.new (entry_data entry.now)) }
{
    open_object(out)?;
    put_key(out, "call")?;
    put_call(alloc, out, &entry.call)?;
    put_key(out, "env")?;
    put_env(alloc, out, &entry.env)?;
    put_key(out, "from")?;
    put_origin(out, entry.from)?;
    put_key(out, "reply")?;
    put_reply(alloc, out, &entry.reply)?;
    close_object(out)?;
    Ok(())
}

fn put_each_entry(alloc: Global, out: &mut Writer, entries: &[Entry]) -> Result<(), NoMemory>
    ensures { OnOk result (AddsItems out.old out.new (map entry_data entries.now)) }
{
    for entry in entries {
        put_entry(alloc, out, entry)?;
    }
    Ok(())
}

#[tactic(auto, unfolding(crate::specs::Traced::entries_data))]
fn put_entries(alloc: Global, out: &mut Writer, entries: &[Entry]) -> Result<(), NoMemory>
    ensures { OnOk result (AddsData out.old out.new (entries_data entries.now)) }
{
    open_list(out)?;
    put_each_entry(alloc, out, entries)?;
    close_list(out)?;
    Ok(())
}

#[tactic(auto, unfolding(crate::specs::Traced::arrive_data))]
fn put_arrive(out: &mut Writer, seat: u64, ticket: u64, want: &Want) -> Result<(), NoMemory>
    ensures { OnOk result (AddsData out.old out.new (arrive_data seat ticket want.now)) }
{
    open_object(out)?;
    text_member(out, "event", "arrive")?;
    count_member(out, "seat", seat)?;
    count_member(out, "ticket", ticket)?;
    put_key(out, "want")?;
    put_want(out, want)?;
    close_object(out)?;
    Ok(())
}

#[tactic(auto, unfolding(crate::specs::Traced::grant_data))]
fn put_grant(out: &mut Writer, seat: u64, ticket: u64) -> Result<(), NoMemory>
    ensures { OnOk result (AddsData out.old out.new (grant_data seat ticket)) }
{
    open_object(out)?;
    text_member(out, "event", "grant")?;
    count_member(out, "seat", seat)?;
    count_member(out, "ticket", ticket)?;
    close_object(out)?;
    Ok(())
}

#[tactic(auto, unfolding(crate::specs::Traced::release_data))]
fn put_release(
    alloc: Global,
    out: &mut Writer,
    seat: u64,
    ticket: u64,
    entries: &[Entry],
) -> Result<(), NoMemory>
    ensures { OnOk result (AddsData out.old out.new (release_data seat ticket entries.now)) }
{
    open_object(out)?;
    put_key(out, "entries")?;
    put_entries(alloc, out, entries)?;
    text_member(out, "event", "release")?;
    count_member(out, "seat", seat)?;
    count_member(out, "ticket", ticket)?;
    close_object(out)?;
    Ok(())
}

#[tactic(auto, unfolding(crate::specs::Traced::event_data))]
fn put_event(alloc: Global, out: &mut Writer, event: &Event) -> Result<(), NoMemory>
    ensures { OnOk result (AddsData out.old out.new (event_data event.now)) }
{
    match event {
        Event::Arrive(seat, ticket, want) => put_arrive(out, *seat, *ticket, want),
        Event::Grant(seat, ticket) => put_grant(out, *seat, *ticket),
        Event::Release(seat, ticket, entries) => {
            put_release(alloc, out, *seat, *ticket, entries.items())
        }
    }
}

/// The trace's line of the event: compact JSON and LF.
#[tactic(auto, unfolding(crate::specs::Traced::trace_line))]
pub fn trace_line(alloc: Global, event: &Event) -> Result<Bytes, NoMemory>
    ensures { IfOk result (λ line. line ≡ trace_line event.now) }
{
    let mut out = new_line(alloc)?;
    put_event(alloc, &mut out, event)?;
    line_of(out)
}
