ghost use Rattle.std.specs.Prelude.{◌≡◌, ◌≤◌, IfErr, IfOk, length};
ghost use Rattle.st_limits.specs.declared.TheConstants.{MAX_LINES};
ghost use Rattle.st_rack.specs.Calls.{IsFit};
ghost use Rattle.st_laning.specs.inner.Running.{AreAnswers};
ghost use Rattle.st_running.specs.Calls.{runs};
ghost use Rattle.st_session.specs.Headline.{Counts, IsRunOf};
ghost use Rattle.st_session.specs.inner.Ended.{DidNotBegin};

use crate::on_board::{Ended, run_board};
use crate::outcome::Outcome;
use crate::told::state_of;
use st_begin::{Begun, begin_board};
use st_lines::Lines;
use st_model::Gate;
use st_rack::Rack;
use st_status::Status;
use std::alloc::Global;
use std::snapshot::Snapshot;

#[tactic(none)]
/// Begins the engine on the rack, runs the lines, and closes it. Where it doesn't begin, that is the run's end.
pub(crate) fn run_rack<R: Rack, G: Gate>(
    alloc: Global,
    gate: &G,
    lanes: u8,
    rack: R,
    lines: &Lines,
) -> Result<Ended<R>, Outcome<R>>
    requires fit { IsFit (R.devs rack) }
    requires few { length lines.now ≤ MAX_LINES }
    ensures run { IfOk result (λ ended. IsRunOf R.devs R.moment R.state_at R.faults rack lanes lines.now ended.log.items ended.rack) }
    ensures counts { IfOk result (λ ended. Counts R.devs R.moment R.state_at R.faults rack ended.log.items ended.rack) }
    ensures answers { IfOk result (λ ended. IfOk ended.answers (λ answers. AreAnswers runs lanes lines.now ended.log.items answers)) }
    ensures all { IfOk result (λ ended. IfOk ended.answers (λ answers. length answers ≡ length lines.now)) }
    ensures early { IfErr result (λ early. DidNotBegin R.devs R.moment R.state_at R.faults rack early.status early.log.items early.rack) }
{
    let was = Snapshot::of(&rack);
    match begin_board(alloc, rack) {
        Begun::Ready(board) => {
            let state = state_of(was);
            Ok(run_board(alloc, gate, lanes, board, state, lines))
        }
        Begun::Fault(rack) => Err(Outcome::early(alloc, Status::OpenFault, rack)),
        Begun::Foreign(serial, rack) => Err(Outcome::early(alloc, Status::Foreign(serial), rack)),
        Begun::NoMemory(rack) => Err(Outcome::early(alloc, Status::OutOfMemory, rack)),
    }
}
