ghost use Rattle.std.specs.Prelude.{◌≡◌, ◌+◌, true, IfOk, OnErr};
ghost use Rattle.st_model.specs.Sound.{IsSound};
ghost use Rattle.st_running.specs.Calls.{runs};
ghost use Rattle.st_laning.specs.inner.Running.{Answered, RanCall};

use crate::answers::Answer;
use crate::on_part::{RanPart, run_part};
use json::Scratch;
use st_alone::{Home, Taken};
use st_board::EngineBoard;
use st_calls::{LineFault, read_call_with};
use st_model::{Call, Gate};
use st_pool::Pool;
use st_rack::Rack;
use st_units::NoMemory;
use std::alloc::Global;

/// The book after a call, and the place of its release in the log, or that memory was refused before it arrived.
struct CallDone<R: Rack> {
    home: Home<Pool<R>, EngineBoard<R>>,
    place: Result<usize, NoMemory>,
}

/// The book after a line, and what became of it, or that memory was refused to read it.
pub(crate) struct LineDone<R: Rack> {
    pub home: Home<Pool<R>, EngineBoard<R>>,
    pub answer: Result<Answer, NoMemory>,
}

#[tactic(none)]
/// Runs the call by its lane's seat, under a grant of its own, from its arrival to its release.
fn run_call<R: Rack, G: Gate>(
    alloc: Global,
    gate: &G,
    lane: u8,
    number: u64,
    call: Call,
    home: Home<Pool<R>, EngineBoard<R>>,
) -> CallDone<R>
    requires sound { IsSound call }
    requires runs { runs call ≡ true }
    ensures ran { IfOk result.place (λ place. RanCall runs (lane + 1) number call home result.home place) }
    ensures refused { OnErr result.place (result.home ≡ home) }
{
    match home.take(alloc, lane as u64 + 1, &call) {
        Ok(Taken { out, part, entries }) => {
            gate.pass(number);
            let RanPart { part, entry } = run_part(alloc, number, call, part, out.before());
            let place = out.place();
            let home = out.give_back(part, entries, entry);
            CallDone {
                home,
                place: Ok(place),
            }
        }
        Err((home, refused)) => CallDone {
            home,
            place: Err(refused),
        },
    }
}

#[tactic(none)]
/// Runs the call that the line is, where it is one.
pub(crate) fn run_line<R: Rack, G: Gate>(
    alloc: Global,
    scratch: &mut Scratch,
    gate: &G,
    lanes: u8,
    home: Home<Pool<R>, EngineBoard<R>>,
    number: u64,
    line: &[u8],
) -> LineDone<R>
    ensures answered { IfOk result.answer (λ answer. Answered runs lanes number line.now home result.home answer) }
    ensures refused { OnErr result.answer (result.home ≡ home) }
{
    let (lane, call) = match read_call_with(alloc, scratch, line, lanes) {
        Ok(read) => read,
        Err(LineFault::OutOfMemory) => {
            return LineDone {
                home,
                answer: Err(NoMemory),
            };
        }
        Err(fault) => {
            return LineDone {
                home,
                answer: Ok(Answer::Fault(fault)),
            };
        }
    };
    if !st_running::runs(&call) {
        return LineDone {
            home,
            answer: Ok(Answer::NotBuilt(call)),
        };
    }
    let CallDone { home, place } = run_call(alloc, gate, lane, number, call, home);
    match place {
        Ok(place) => LineDone {
            home,
            answer: Ok(Answer::Ran(place)),
        },
        Err(NoMemory) => LineDone {
            home,
            answer: Ok(Answer::Refused),
        },
    }
}
