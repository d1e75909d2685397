ghost use Rattle.std.specs.Prelude.{◌≡◌, ◌+◌, ◌-◌, ◌^◌, ◌<◌, ◌≤◌, Err, OnErr, OnOk, if◌then◌else◌};
ghost use Rattle.st_units.specs.Causes.{Rose};
ghost use Rattle.st_lines.specs.Printing.{Prints, Stops};
ghost use Rattle.st_replies.specs.Shown.{summary_line};
ghost use Rattle.st_check.specs.Checked.{still};

use st_lines::{Outlet, Sink, WriteStop};
use st_replies::{Summary, summary_line};
use std::alloc::Global;

/// The replies with code 0 so far, with one reply more.
pub fn count_ok(oks: u64, ok: bool) -> u64
    requires { oks < 2 ^ 64 - 1 }
    ensures { result ≡ oks + (if ok then 1 else 0) }
{
    if ok { oks + 1 } else { oks }
}

/// Prints the summary of so many lines, of which `oks` were answered with code 0 and none wrote or read a sector.
pub fn print_summary<K: Sink>(
    alloc: Global,
    sink: &mut K,
    outlet: &mut Outlet,
    lines: u64,
    oks: u64,
) -> Result<(), WriteStop>
    requires { oks ≤ lines }
    ensures prints { OnOk result (Prints (K.held sink.old) outlet.old (K.held sink.new) outlet.new (summary_line (still lines oks))) }
    ensures stops { OnErr result (Stops (K.held sink.old) outlet.old (K.held sink.new) (summary_line (still lines oks))) }
    ensures fault { result ≡ Err WriteStop.Fault → Rose (K.faults sink.old) (K.faults sink.new) }
    ensures later { K.faults sink.old ≤ K.faults sink.new }
{
    let sums = Summary {
        lines,
        ok: oks,
        refused: lines - oks,
        written: 0,
        read: 0,
    };
    let text = summary_line(alloc, &sums)?;
    outlet.print(sink, text.items())?;
    Ok(())
}
