//! A simulated engine over standard input and output.
#![tactic(auto)]

ghost use Rattle.std.specs.Prelude.{◌≡◌, IfOk};
ghost use Rattle.st_history.specs.Failures.{failures};
ghost use Rattle.st_history.specs.History.{History};
ghost use Rattle.st_rack.specs.Calls.{IsFit};
ghost use Rattle.st_memrack.specs.Blank.{IsBlank};
ghost use Rattle.st_blank.specs.Blank.{unused};
ghost use Rattle.sim_devices.specs.Devices.{the_devices};

use st_lines::{Reading, Sink, Source, Writing};
use st_memrack::NoFaultRack;
use st_model::NoGate;
use st_rack::Rack;
use st_session::{Outcome, run_words};
use st_status::{Status, exit_status, status_line};
use st_units::NoMemory;
use std::alloc::Global;
use std::process::ExitCode;
use std::sync::Wait;
use std::thread::Threads;
use std::{env, io};

/// How many devices the program makes.
const DEVICES: usize = 12;

/// The words after the program's name.
fn words(rt: &HostRuntime) -> io::Result<Vec<String>> {
    let mut list = Vec::new(rt.alloc());
    for word in env::args(rt)?.skip(1) {
        list.push(word)?;
    }
    Ok(list)
}

/// Does what the words ask for, on the program's devices. They are blank: so the run begins with no pool, and they stand for a state of the
/// engine. They never fail: so none ends the run with a fault, and no call is answered with one.
fn run_on<W: Threads + Wait + Copy + Sync, S: Source, K: Sink>(
    rt: &W,
    alloc: Global,
    words: &[String],
    source: &mut S,
    sink: &mut K,
    rack: NoFaultRack,
) -> Outcome<NoFaultRack>
    requires fit { IsFit (⟦<NoFaultRack as Rack>⟧.devs rack) }
    requires devices { ⟦<NoFaultRack as Rack>⟧.devs rack ≡ the_devices }
    requires blank { IsBlank ⟦<NoFaultRack as Rack>⟧.devs ⟦<NoFaultRack as Rack>⟧.moment ⟦<NoFaultRack as Rack>⟧.state_at ⟦<NoFaultRack as Rack>⟧.reads the_devices rack }
    ensures known { History (unused the_devices) result.log.items }
    ensures calls { failures result.log.items ≡ 0 }
    ensures opened { result.status ≡ Status.OpenFault → ⊥ }
    ensures own { (n : _) → result.status ≡ Status.Foreign n → ⊥ }
{
    run_words(rt, alloc, words, source, sink, rack, &NoGate)
}

/// The same, where there is memory for the devices.
#[tactic(none)]
fn run<W: Threads + Wait + Copy + Sync, S: Source, K: Sink>(
    rt: &W,
    alloc: Global,
    words: &[String],
    source: &mut S,
    sink: &mut K,
) -> Result<Outcome<NoFaultRack>, NoMemory>
    ensures known { IfOk result (λ outcome. History (unused the_devices) outcome.log.items) }
    ensures calls { IfOk result (λ outcome. failures outcome.log.items ≡ 0) }
    ensures opened { IfOk result (λ outcome. outcome.status ≡ Status.OpenFault → ⊥) }
    ensures own { IfOk result (λ outcome. (n : _) → outcome.status ≡ Status.Foreign n → ⊥) }
{
    match sim_devices::rack(alloc, DEVICES) {
        Ok(rack) => Ok(run_on(rt, alloc, words, source, sink, rack)),
        Err(refused) => Err(refused),
    }
}

/// Tells how the run ended, where that can be told, and gives the exit status in any case.
fn end(rt: &HostRuntime, status: &Status) -> ExitCode {
    if let Ok(Some(line)) = status_line(rt.alloc(), status) {
        let _told = rt.eprintln(line.as_str());
    }
    ExitCode::from(exit_status(status))
}

fn main(rt: HostRuntime) -> ExitCode {
    let Ok(words) = words(&rt) else {
        return end(&rt, &Status::OutOfMemory);
    };
    let mut source = Reading::new(rt.reader());
    let mut sink = Writing::new(io::writer(&rt));
    match run(&rt, rt.alloc(), &words, &mut source, &mut sink) {
        Ok(outcome) => end(&rt, &outcome.status),
        Err(NoMemory) => end(&rt, &Status::OutOfMemory),
    }
}
