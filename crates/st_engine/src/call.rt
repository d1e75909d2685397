ghost use Rattle.std.specs.Prelude.{◌≡◌, ◌+◌, ◌≤◌, false, length, option_map, true};
ghost use Rattle.std.specs.List.{AllByRecursion};
ghost use Rattle.st_limits.specs.declared.TheConstants.{MAX_POOLS};
ghost use Rattle.st_units.specs.declared.cause.Cause.TheVariants.{OutOfMemory};
ghost use Rattle.st_model.specs.Answer.{refused};
ghost use Rattle.st_model.specs.Wanted.{want_of};
ghost use Rattle.st_history.specs.History.{IsNotPrepare};
ghost use Rattle.st_book.specs.Stands.{PartShows};
ghost use Rattle.st_pool.specs.View.{IsKeptOn};
ghost use Rattle.st_board.specs.View.{pools_of};
ghost use Rattle.st_lock.specs.Seats.{state_at};
ghost use Rattle.st_serving.specs.Serving.{Holds};
ghost use Rattle.st_running.specs.Calls.{runs};
ghost use Rattle.st_running.specs.Part.{as_table, faults_out};
ghost use Rattle.st_engine.specs.Called.{Called, Released};

use crate::engine::{Engine, EngineSeat};
use st_board::EngineBoard;
use st_lock::Guard;
use st_model::{Call, Entry, Gate, Origin, Reply};
use st_pool::{Pool, PoolReply};
use st_rack::Rack;
use st_running::{RanOn, run_on, what_comes_back};
use st_serving::{Job, Running, arrive, job_of, release, wait};
use st_units::Cause;
use std::alloc::Global;
use std::sync::Wait;

/// What a call is answered.
#[derive(Drop)]
pub struct Answer {
    pub reply: Reply,
    /// The call's pool is to be checked.
    pub low: bool,
}

/// Passes the gate, for a line or an event.
fn pass(gate: &impl Gate, from: Origin) {
    match from {
        Origin::Line(line) => gate.pass(line),
        Origin::Event => gate.pass(0),
        Origin::Prepare | Origin::Close => {}
    }
}

impl<R: Rack> Engine<R> {
    /// Runs a job under its grant, and gives what its ticket has back.
    fn finish(
        &self,
        rt: &impl Wait,
        alloc: Global,
        seat: &mut EngineSeat<R>,
        gate: &impl Gate,
        running: Running<Pool<R>, EngineBoard<R>>,
    ) -> Answer
        requires here { seat.old.turn ≡ self.now }
        requires runs { runs running.job.call ≡ true }
        requires from { IsNotPrepare running.job.from }
        requires holds { Holds seat.old running.guard.ticket running.job.call (pools_of running.guard.part.cells.items) (option_map (as_table R.faults) running.guard.part.table) (faults_out running.guard.part.cells.items running.guard.part.table) }
        requires shown { running.guard.part.short ≡ false → PartShows (want_of running.job.call) (state_at seat.old) running.guard.part.infos.items running.guard.part.table_info }
        requires kept { AllByRecursion (IsKeptOn R.devs R.moment R.state_at) running.guard.part.cells.items }
        requires places { MAX_POOLS ≤ length running.guard.part.cells.items + running.guard.part.cells.room }
        ensures released { Released running.job.call running.job.from result.reply running.guard.ticket seat.old seat.new }
        ensures low { result.low ≡ false }
    {
        what_comes_back::<R>();
        let Running { guard, job } = running;
        let Job {
            call,
            from,
            entries,
        } = job;
        let Guard { ticket, part } = guard;
        let before = seat.state();
        let RanOn { part, answer } = run_on(alloc, &call, part, &before);
        pass(gate, from);
        let PoolReply {
            reply,
            twin,
            env,
            low,
        } = answer;
        let entry = Entry {
            call,
            env,
            from,
            reply,
        };
        let guard = Guard { ticket, part };
        release(&self.lock, rt, seat, guard, entries, entry);
        Answer { reply: twin, low }
    }

    /// Runs a call. Before its arrival it takes the memory of its want and of its entry; it waits for its grant.
    pub fn call(
        &self,
        rt: &impl Wait,
        alloc: Global,
        seat: &mut EngineSeat<R>,
        gate: &impl Gate,
        from: Origin,
        call: Call,
    ) -> Answer
        requires here { seat.old.turn ≡ self.now }
        requires runs { runs call ≡ true }
        requires from { IsNotPrepare from }
        ensures called { Called call from result.reply seat.old seat.new }
        ensures low { result.low ≡ false }
    {
        let Ok(job) = job_of(alloc, call, from) else {
            return refused();
        };
        match arrive(&self.lock, rt, alloc, seat, job) {
            Err(_) => refused(),
            Ok(waiting) => {
                let running = wait(&self.lock, rt, seat, waiting);
                self.finish(rt, alloc, seat, gate, running)
            }
        }
    }
}

/// Memory was refused before the call arrived.
fn refused() -> Answer
    ensures reply { result.reply ≡ refused OutOfMemory }
    ensures low { result.low ≡ false }
{
    Answer {
        reply: Reply::refused(Cause::OutOfMemory),
        low: false,
    }
}
