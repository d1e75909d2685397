// Runs of the program's own call on a rack that a test makes.
use st_lines::{MemorySink, MemorySource};
use st_memrack::MemRack;
use st_model::NoGate;
use st_session::{is_fit, run_words};
use st_status::{Status, status_line};
use std::alloc::Global;
use std::sync::Wait;
use std::test::Fail;
use std::thread::Threads;

/// How a run ended, what it wrote, and its devices.
#[derive(Drop)]
pub struct Ran {
    pub status: Status,
    pub sink: MemorySink,
    pub rack: MemRack,
}

impl Ran {
    pub fn bytes(&self) -> &[u8] {
        self.sink.bytes()
    }

    pub fn is_done(&self) -> bool {
        match self.status {
            Status::Done => true,
            _ => false,
        }
    }

    pub fn is_open_fault(&self) -> bool {
        match self.status {
            Status::OpenFault => true,
            _ => false,
        }
    }

    /// What the program says of how the run ended: nothing where it is done.
    pub fn told(&self, alloc: Global) -> Result<String, Fail> {
        match status_line(alloc, &self.status)? {
            Some(line) => Ok(line),
            None => Ok(String::new(alloc)),
        }
    }
}

fn words(alloc: Global) -> Result<Vec<String>, Fail> {
    let word = String::from_str(alloc, "run")?;
    Ok(vec![in alloc; word]?)
}

fn source(alloc: Global, input: &str) -> Result<MemorySource, Fail> {
    let bytes = Vec::from_slice(alloc, input.as_bytes())?;
    Ok(MemorySource::new(bytes, 4_096, Vec::new(alloc)))
}

/// Runs an input on these devices.
pub fn run<W: Threads + Wait + Copy + Sync>(
    rt: &W,
    alloc: Global,
    rack: MemRack,
    input: &str,
) -> Result<Ran, Fail> {
    let words = words(alloc)?;
    let mut source = source(alloc, input)?;
    let mut sink = MemorySink::new(alloc, 4_096, Vec::new(alloc));
    if !is_fit(&rack) {
        return Err("not fit".into());
    }
    let outcome = run_words(rt, alloc, &words, &mut source, &mut sink, rack, &NoGate);
    Ok(Ran {
        status: outcome.status,
        sink,
        rack: outcome.rack,
    })
}
