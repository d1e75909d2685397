ghost use Rattle.std.specs.Prelude.{◌≡◌, ◌≤◌, ◌⊎◌, Err, Ok, None, Some, IfOk, IfSome, OnErr, OnOk, length, map};
ghost use Rattle.std.specs.Io.KnownBytes.{Appends, IsAtEnd};
ghost use Rattle.std.specs.List.{enumerate_from, filter, flat_map};
ghost use Rattle.st_units.specs.Causes.{Rose};
ghost use Rattle.st_limits.specs.declared.TheConstants.{MAX_LANES};
ghost use Rattle.st_lines.specs.Limits.{first_broken};
ghost use Rattle.st_lines.specs.Printing.{Prints, Started, Stops};
ghost use Rattle.st_status.specs.Statuses.{IsAfterInput, IsEarly, IsOfInput, IsWritten};
ghost use Rattle.st_check.specs.Checked.{IsCheck, checked, is_ok, numbered_line, verdict};

use crate::summary::{count_ok, print_summary};
use crate::verdict::verdict;
use json::Scratch;
use st_lines::{Limit, Lines, Outlet, Sink, Source, WriteStop, read_lines};
use st_replies::reply_line;
use st_status::Status;
use std::alloc::Global;

/// Prints a reply to each line, and counts those with code 0.
fn print_verdicts<K: Sink>(
    alloc: Global,
    sink: &mut K,
    outlet: &mut Outlet,
    lines: &Lines,
    lanes: u8,
) -> Result<u64, WriteStop>
    ensures prints { OnOk result (Prints (K.held sink.old) outlet.old (K.held sink.new) outlet.new (flat_map numbered_line (enumerate_from 1 (map (verdict lanes) lines.now)))) }
    ensures counted { IfOk result (λ oks. oks ≡ length (filter is_ok (map (verdict lanes) lines.now))) }
    ensures few { IfOk result (λ oks. oks ≤ length lines.now) }
    ensures stops { OnErr result (Stops (K.held sink.old) outlet.old (K.held sink.new) (flat_map numbered_line (enumerate_from 1 (map (verdict lanes) lines.now)))) }
    ensures fault { result ≡ Err WriteStop.Fault → Rose (K.faults sink.old) (K.faults sink.new) }
    ensures later { K.faults sink.old ≤ K.faults sink.new }
{
    let mut scratch = Scratch::new(alloc);
    let mut oks = 0u64;
    for i in 0..lines.len() {
        let reply = verdict(alloc, &mut scratch, lines.at(i), lanes)?;
        let text = reply_line(alloc, i as u64 + 1, &reply)?;
        outlet.print(sink, text.items())?;
        oks = count_ok(oks, reply.code == 0);
    }
    Ok(oks)
}

/// Writes a reply to each line, and the summary.
fn write_verdicts<K: Sink>(
    alloc: Global,
    sink: &mut K,
    lines: &Lines,
    lanes: u8,
) -> Result<(), WriteStop>
    ensures written { OnOk result (Appends (K.held sink.old) (K.held sink.new) (checked lanes lines.now)) }
    ensures prefix { OnErr result (Started (K.held sink.old) (K.held sink.new) (checked lanes lines.now)) }
    ensures fault { result ≡ Err WriteStop.Fault → Rose (K.faults sink.old) (K.faults sink.new) }
    ensures later { K.faults sink.old ≤ K.faults sink.new }
{
    let mut outlet = Outlet::make(alloc)?;
    let oks = print_verdicts(alloc, sink, &mut outlet, lines, lanes)?;
    print_summary(alloc, sink, &mut outlet, lines.len() as u64, oks)?;
    outlet.flush(sink)?;
    Ok(())
}

/// Looks at the form of each line, for so many lanes, and runs none: reads the whole input, and writes for each line
/// what is wrong with it or that it is accepted, and then the summary.
///
/// Nothing is written before the whole input was read. Want of memory may end a check at any moment; each other
/// status has its cause as a clause.
pub fn check_lines<S: Source, K: Sink>(
    alloc: Global,
    source: &mut S,
    sink: &mut K,
    lanes: u8,
) -> Status
    requires some { 1 ≤ lanes }
    requires most { lanes ≤ MAX_LANES }

    // What was written.
    ensures checked { IsCheck lanes result (S.left source.old) (K.held sink.old) (K.held sink.new) }
    ensures early { IsEarly result → sink.new ≡ sink.old }
    ensures end { IsWritten result → IsAtEnd (S.left source.new) }

    // The cause of each status.
    ensures status { IsAfterInput result ⊎ IsOfInput result }
    ensures read_fault { result ≡ Status.ReadFault → Rose (S.faults source.old) (S.faults source.new) }
    ensures write_fault { result ≡ Status.WriteFault → Rose (K.faults sink.old) (K.faults sink.new) }
    ensures limit { (limit : Limit) → result ≡ Status.InputLimit limit → IfSome (S.left source.old) (λ input. first_broken input ≡ Some limit) }
    ensures within_limit { IsWritten result → IfSome (S.left source.old) (λ input. first_broken input ≡ None) }
{
    let lines = match read_lines(alloc, source) {
        Ok(lines) => lines,
        Err(stop) => return Status::from(stop),
    };
    match write_verdicts(alloc, sink, &lines, lanes) {
        Ok(()) => Status::Done,
        Err(stop) => Status::from(stop),
    }
}
