ghost use Rattle.std.specs.Prelude.{◌≡◌, ◌≤◌, Err, IfOk, OnOk, OnErr, length, [], if◌then◌else◌};
ghost use Rattle.std.specs.Io.KnownBytes.{Appends};
ghost use Rattle.st_units.specs.Causes.{Rose};
ghost use Rattle.st_lines.specs.Printing.{Prints, Started, Stops};
ghost use Rattle.st_session.specs.Out.{trace_of};
ghost use Rattle.st_session.specs.inner.Printing.{Replies, whole, IsShown, AreShown, shown_line, shown_ok, shown_from, shown_oks};
ghost use Rattle.st_laning.specs.inner.Running.{IsRelease};

use st_calls::call_word;
use st_check::{count_ok, fault_reply, print_summary};
use st_history::{Event, Log};
use st_laning::Answer;
use st_lines::{Outlet, Sink, WriteStop};
use st_model::Reply;
use st_replies::{not_built_line, reply_line};
use st_trace::trace_line;
use st_units::{Bytes, Cause, NoMemory};
use std::alloc::Global;

/// What a line is answered, and whether its code is 0.
#[derive(Drop)]
struct LineText {
    text: Bytes,
    ok: bool,
}

/// The reply in the release at that place of the log.
fn reply_at(log: &Log, number: u64, place: usize) -> &Reply
    requires { IsRelease number log.now.items place }
    ensures { Replies number log.now.items result.now }
{
    match log.at(place) {
        Event::Release(_, _, entries) => &entries.at(0).reply,
        Event::Arrive(_, _, _) | Event::Grant(_, _) => unreachable!(),
    }
}

fn line_text(alloc: Global, log: &Log, number: u64, answer: &Answer) -> Result<LineText, NoMemory>
    requires { IsShown number log.now.items answer.now }
    ensures text { IfOk result (λ line. line.text ≡ shown_line number log.now.items answer.now) }
    ensures ok { IfOk result (λ line. line.ok ≡ shown_ok number log.now.items answer.now) }
{
    match answer {
        Answer::Ran(place) => {
            let reply = reply_at(log, number, *place);
            let text = reply_line(alloc, number, reply)?;
            Ok(LineText {
                text,
                ok: reply.code == 0,
            })
        }
        Answer::Fault(fault) => {
            let text = reply_line(alloc, number, &fault_reply(*fault))?;
            Ok(LineText { text, ok: false })
        }
        Answer::NotBuilt(call) => {
            let text = not_built_line(alloc, number, call_word(call))?;
            Ok(LineText { text, ok: false })
        }
        Answer::Refused => {
            let text = reply_line(alloc, number, &Reply::refused(Cause::OutOfMemory))?;
            Ok(LineText { text, ok: false })
        }
    }
}

/// Prints the reply lines, and counts those with code 0.
fn print_replies<K: Sink>(
    alloc: Global,
    sink: &mut K,
    outlet: &mut Outlet,
    log: &Log,
    answers: &[Answer],
) -> Result<u64, WriteStop>
    requires { AreShown 1 log.now.items answers.now }
    ensures prints { OnOk result (Prints (K.held sink.old) outlet.old (K.held sink.new) outlet.new (shown_from 1 log.now.items answers.now)) }
    ensures counted { IfOk result (λ oks. oks ≡ shown_oks 1 log.now.items answers.now) }
    ensures few { IfOk result (λ oks. oks ≤ length answers.now) }
    ensures stops { OnErr result (Stops (K.held sink.old) outlet.old (K.held sink.new) (shown_from 1 log.now.items answers.now)) }
    ensures fault { result ≡ Err WriteStop.Fault → Rose (K.faults sink.old) (K.faults sink.new) }
    ensures later { K.faults sink.old ≤ K.faults sink.new }
{
    let mut number = 1u64;
    let mut oks = 0u64;
    for answer in answers {
        let line = line_text(alloc, log, number, answer)?;
        outlet.print(sink, line.text.items())?;
        oks = count_ok(oks, line.ok);
        number += 1;
    }
    Ok(oks)
}

/// Prints a line for each event.
fn print_trace<K: Sink>(
    alloc: Global,
    sink: &mut K,
    outlet: &mut Outlet,
    events: &[Event],
) -> Result<(), WriteStop>
    ensures prints { OnOk result (Prints (K.held sink.old) outlet.old (K.held sink.new) outlet.new (trace_of events.now)) }
    ensures stops { OnErr result (Stops (K.held sink.old) outlet.old (K.held sink.new) (trace_of events.now)) }
    ensures fault { result ≡ Err WriteStop.Fault → Rose (K.faults sink.old) (K.faults sink.new) }
    ensures later { K.faults sink.old ≤ K.faults sink.new }
{
    for event in events {
        let text = trace_line(alloc, event)?;
        outlet.print(sink, text.items())?;
    }
    Ok(())
}

/// The events that are printed: all of them, or none.
fn traced(log: &Log, trace: bool) -> &[Event]
    ensures { result.now ≡ (if trace then log.now.items else []) }
{
    if trace { log.items() } else { &[] }
}

/// Writes the whole output: the reply lines, the trace where it is asked for, and the summary.
pub(crate) fn write_out<K: Sink>(
    alloc: Global,
    sink: &mut K,
    log: &Log,
    answers: &[Answer],
    trace: bool,
) -> Result<(), WriteStop>
    requires { AreShown 1 log.now.items answers.now }
    ensures written { OnOk result (Appends (K.held sink.old) (K.held sink.new) (whole trace log.now.items answers.now)) }
    ensures prefix { OnErr result (Started (K.held sink.old) (K.held sink.new) (whole trace log.now.items answers.now)) }
    ensures fault { result ≡ Err WriteStop.Fault → Rose (K.faults sink.old) (K.faults sink.new) }
    ensures later { K.faults sink.old ≤ K.faults sink.new }
{
    let mut outlet = Outlet::make(alloc)?;
    let oks = print_replies(alloc, sink, &mut outlet, log, answers)?;
    print_trace(alloc, sink, &mut outlet, traced(log, trace))?;
    print_summary(alloc, sink, &mut outlet, answers.len() as u64, oks)?;
    outlet.flush(sink)?;
    Ok(())
}
