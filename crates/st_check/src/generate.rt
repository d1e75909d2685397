ghost use Rattle.std.specs.Prelude.{◌≡◌, ◌≤◌, Err, OnErr, OnOk};
ghost use Rattle.std.specs.Io.KnownBytes.{Appends};
ghost use Rattle.st_units.specs.Causes.{Rose};
ghost use Rattle.st_limits.specs.declared.TheConstants.{MAX_LANES};
ghost use Rattle.st_lines.specs.Printing.{Prints, Started, Stops};
ghost use Rattle.st_gen.specs.Script.{script};
ghost use Rattle.st_status.specs.Statuses.{IsAfterInput, Wrote};

use st_gen::{GEN_LINES, gen_line};
use st_lines::{Outlet, Sink, WriteStop};
use st_status::Status;
use std::alloc::Global;

fn print_script<K: Sink>(
    alloc: Global,
    sink: &mut K,
    outlet: &mut Outlet,
    lanes: u8,
    number: u64,
) -> Result<(), WriteStop>
    requires some { 1 ≤ lanes }
    requires most { lanes ≤ MAX_LANES }
    ensures prints { OnOk result (Prints (K.held sink.old) outlet.old (K.held sink.new) outlet.new (script lanes number)) }
    ensures stops { OnErr result (Stops (K.held sink.old) outlet.old (K.held sink.new) (script lanes number)) }
    ensures fault { result ≡ Err WriteStop.Fault → Rose (K.faults sink.old) (K.faults sink.new) }
    ensures later { K.faults sink.old ≤ K.faults sink.new }
{
    let mut x = number;
    for i in 0..GEN_LINES {
        let (line, next) = gen_line(alloc, lanes, i, x)?;
        outlet.print(sink, line.items())?;
        outlet.print(sink, b"\n")?;
        x = next;
    }
    Ok(())
}

fn write_script<K: Sink>(
    alloc: Global,
    sink: &mut K,
    lanes: u8,
    number: u64,
) -> Result<(), WriteStop>
    requires some { 1 ≤ lanes }
    requires most { lanes ≤ MAX_LANES }
    ensures written { OnOk result (Appends (K.held sink.old) (K.held sink.new) (script lanes number)) }
    ensures prefix { OnErr result (Started (K.held sink.old) (K.held sink.new) (script lanes number)) }
    ensures fault { result ≡ Err WriteStop.Fault → Rose (K.faults sink.old) (K.faults sink.new) }
{
    let mut outlet = Outlet::make(alloc)?;
    print_script(alloc, sink, &mut outlet, lanes, number)?;
    outlet.flush(sink)?;
    Ok(())
}

/// Writes the script of a number, for so many lanes: 20,000 lines.
pub fn gen_lines<K: Sink>(alloc: Global, sink: &mut K, lanes: u8, number: u64) -> Status
    requires some { 1 ≤ lanes }
    requires most { lanes ≤ MAX_LANES }
    ensures written { Wrote result (K.held sink.old) (K.held sink.new) (script lanes number) }
    ensures status { IsAfterInput result }
    ensures write_fault { result ≡ Status.WriteFault → Rose (K.faults sink.old) (K.faults sink.new) }
{
    match write_script(alloc, sink, lanes, number) {
        Ok(()) => Status::Done,
        Err(stop) => Status::from(stop),
    }
}
