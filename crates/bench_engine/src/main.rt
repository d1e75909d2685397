//! A run of the program on its devices, which can also tell what they hold in the end, to be held against what a plain program
//! leaves (`bench/engine`). It does nothing without an argument.
#![tactic(auto)]

mod devices;

use devices::{SHOWN, seal_of};
use st_lines::{Reading, Sink, Source, Writing};
use st_memrack::NoFaultRack;
use st_model::NoGate;
use st_rack::Rack;
use st_session::{Outcome, run_words};
use st_units::NoMemory;
use std::alloc::Global;
use std::sync::Wait;
use std::thread::Threads;
use std::{env, io};

/// How many devices the program makes.
const DEVICES: usize = 12;

/// The words after the program's name.
fn words(rt: &HostRuntime) -> io::Result<Vec<String>> {
    let mut list = Vec::new(rt.alloc());
    for word in env::args(rt)?.skip(1) {
        list.push(word)?;
    }
    Ok(list)
}

/// Does what the words ask for, on devices of its own.
fn run<W: Threads + Wait + Copy + Sync, S: Source, K: Sink>(
    rt: &W,
    alloc: Global,
    words: &[String],
    source: &mut S,
    sink: &mut K,
) -> Result<Outcome<NoFaultRack>, NoMemory> {
    let rack = match sim_devices::rack(alloc, DEVICES) {
        Ok(rack) => rack,
        Err(refused) => return Err(refused),
    };
    Ok(run_words(rt, alloc, words, source, sink, rack, &NoGate))
}

/// Prints a seal of the first sectors of each device.
fn show<R: Rack>(rt: &HostRuntime, rack: &mut R) -> io::Result<()> {
    let mut buf = vec![in rt.alloc(); 0u8; SHOWN]?;
    for i in 0..DEVICES {
        match seal_of(rack, i, &mut buf) {
            Some(seal) => println!(*rt; "device {i} {}", hex::encode(rt.alloc(), seal)?)?,
            None => println!(*rt; "device {i} wasn't read")?,
        }
    }
    Ok(())
}

/// The first word is the program's; a second one asks what the devices hold.
fn main(rt: HostRuntime) -> io::Result<()> {
    let words = words(&rt)?;
    if words.is_empty() {
        return Ok(());
    }
    let mut source = Reading::new(rt.reader());
    let mut sink = Writing::new(io::writer(&rt));
    match run(&rt, rt.alloc(), &words[..1], &mut source, &mut sink) {
        Ok(outcome) => {
            let mut rack = outcome.rack;
            if words.len() > 1 {
                show(&rt, &mut rack)?;
            }
            Ok(())
        }
        Err(NoMemory) => println!(rt; "no memory"),
    }
}
