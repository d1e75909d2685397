// The engine begins on a rack, runs calls, and gives the rack back.
ghost use Rattle.std.specs.Prelude.{◌≡◌, [], true};
ghost use Rattle.st_history.specs.History.{replay};
ghost use Rattle.st_lock.specs.Opening.{IsOpening};
ghost use Rattle.st_model.specs.Valid.{IsValid};
ghost use Rattle.st_board.specs.View.{faults_of};

use crate::said::{Line, call_of, put_reply};
use crate::site::is_fit;
use st_begin::{Begun, begin_board};
use st_board::EngineBoard;
use st_closing::close_board;
use st_engine::{Closed, Engine, EngineSeat};
use st_ghost::Ghost;
use st_history::Log;
use st_memrack::MemRack;
use st_model::{EngineState, NoGate, Origin};
use std::alloc::Global;
use std::process::Abort;
use std::sync::Wait;
use std::test::Fail;

type Seat = EngineSeat<MemRack>;

/// An engine over a board, and its seat.
fn open(rt: &impl Abort, alloc: Global, board: EngineBoard<MemRack>) -> (Engine<MemRack>, Seat)
    requires spare { board.spare ≡ true }
    requires faults { faults_of board ≡ 0 }
    requires opens { IsOpening board.state }
    ensures here { result.1.turn ≡ result.0 }
    ensures seen { result.1.seen ≡ [] }
    ensures valid { IsValid result.1.opening.state }
{
    match Engine::make(alloc, board) {
        Ok(made) => made,
        Err(_) => panic!(rt; "no memory for an engine"),
    }
}

/// Runs a call, and says what it is answered.
fn run_line(
    rt: &impl Wait,
    alloc: Global,
    engine: &Engine<MemRack>,
    seat: &mut Seat,
    line: &Line,
    out: &mut String,
) -> Result<(), Fail>
    requires here { seat.old.turn ≡ engine.now }
    ensures here { seat.new.turn ≡ engine.now }
    ensures opening { seat.new.opening ≡ seat.old.opening }
{
    let call = call_of(alloc, line)?;
    let answer = engine.call(rt, alloc, seat, &NoGate, Origin::Line(1), call);
    put_reply(alloc, out, &answer.reply)
}

/// Runs calls, and says what they are answered.
fn run_lines(
    rt: &impl Wait,
    alloc: Global,
    engine: &Engine<MemRack>,
    seat: &mut Seat,
    lines: &[Line],
) -> Result<String, Fail>
    requires here { seat.old.turn ≡ engine.now }
    ensures here { seat.new.turn ≡ engine.now }
    ensures opening { seat.new.opening ≡ seat.old.opening }
{
    let mut out = String::new(alloc);
    for line in lines {
        run_line(rt, alloc, engine, seat, line, &mut out)?;
    }
    Ok(out)
}

/// The state after a log.
fn state_after(opening: &Ghost<EngineState>, log: &Log) -> Ghost<EngineState>
    ensures { result.value ≡ replay opening.now.value log.now.items }
{
    Ghost::new(opening, log)
}

/// Closes the engine, and puts its devices into one rack.
fn close(
    rt: &impl Abort,
    engine: Engine<MemRack>,
    seat: Seat,
    opening: &Ghost<EngineState>,
) -> MemRack
    requires here { seat.turn ≡ engine }
    requires opening { opening.now.value ≡ seat.opening.state }
    requires valid { IsValid seat.opening.state }
{
    match engine.close(seat) {
        Closed::Quiet(board, cells, log) => {
            let state = state_after(opening, &log);
            close_board(cells, board, &state)
        }
        Closed::Unjoined(_engine, _seat, others) => panic!(rt; "{others} seats are out"),
        Closed::Left(_engine, _seat, ticket) => panic!(rt; "ticket {ticket} is left"),
    }
}

fn run_board(
    rt: &(impl Wait + Abort),
    alloc: Global,
    board: EngineBoard<MemRack>,
    lines: &[Line],
) -> Result<(String, MemRack), Fail>
    requires spare { board.spare ≡ true }
    requires faults { faults_of board ≡ 0 }
    requires opens { IsOpening board.state }
{
    let (engine, mut seat) = open(rt, alloc, board);
    let opening = seat.state();
    let said = run_lines(rt, alloc, &engine, &mut seat, lines);
    let rack = close(rt, engine, seat, &opening);
    Ok((said?, rack))
}

/// Begins the engine on a rack, runs calls and closes it: what they are answered, or why the engine didn't begin; and the rack.
pub fn run(
    rt: &(impl Wait + Abort),
    alloc: Global,
    rack: MemRack,
    lines: &[Line],
) -> Result<(String, MemRack), Fail> {
    if !is_fit(&rack) {
        return Err("not fit".into());
    }
    match begin_board(alloc, rack) {
        Begun::Ready(board) => run_board(rt, alloc, board, lines),
        Begun::Fault(rack) => Ok((format!(in alloc; "fault")?, rack)),
        Begun::Foreign(serial, rack) => {
            let serial = serial.number();
            Ok((format!(in alloc; "foreign {serial}")?, rack))
        }
        Begun::NoMemory(_) => Err("no memory".into()),
    }
}
