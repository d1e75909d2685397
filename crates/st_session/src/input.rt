ghost use Rattle.std.specs.Prelude.{◌≡◌, ◌⊎◌, ◌≤◌, [], None, Some, IfOk, IfSome, length};
ghost use Rattle.std.specs.Io.KnownBytes.{Appends, IsAtEnd};
ghost use Rattle.st_limits.specs.declared.TheConstants.{MAX_LINES};
ghost use Rattle.st_units.specs.Causes.{Rose};
ghost use Rattle.st_model.specs.declared.state.EngineState.{EngineState};
ghost use Rattle.st_history.specs.History.{History};
ghost use Rattle.st_lines.specs.Limits.{first_broken};
ghost use Rattle.st_lines.specs.Printing.{Started};
ghost use Rattle.st_rack.specs.Calls.{IsFit};
ghost use Rattle.st_rack.specs.Device.{held};
ghost use Rattle.st_image.specs.Rack.{IsForeign, RackStands};
ghost use Rattle.st_begin.specs.Begun.{IsBack};
ghost use Rattle.st_laning.specs.inner.Running.{AreAnswers};
ghost use Rattle.st_running.specs.Calls.{runs};
ghost use Rattle.st_status.specs.Statuses.{IsAfterInput, IsEarly, IsOfDevices, IsWritten};
ghost use Rattle.st_session.specs.Headline.{Counts, HasStopped, IsCutOff, IsDone};
ghost use Rattle.st_session.specs.Out.{out};
ghost use Rattle.st_session.specs.inner.Ended.{DidNotBegin, HasOutput};
ghost use Rattle.st_session.specs.inner.Printing.{AreShown, whole};

use crate::on_board::Ended;
use crate::on_rack::run_rack;
use crate::outcome::Outcome;
use crate::output::write_out;
use st_history::Log;
use st_laning::Answer;
use st_lines::{Limit, Lines, Sink, Source, read_lines};
use st_model::Gate;
use st_onestate::laws::stands_as_one;
use st_rack::Rack;
use st_status::Status;
use st_words::Words;
use std::alloc::Global;

/// Writes the output, and tells how that ended.
fn written<K: Sink>(
    alloc: Global,
    sink: &mut K,
    log: &Log,
    answers: &[Answer],
    trace: bool,
) -> Status
    requires { AreShown 1 log.now.items answers.now }
    ensures status { IsAfterInput result }
    ensures done { result ≡ Status.Done → Appends (K.held sink.old) (K.held sink.new) (whole trace log.now.items answers.now) }
    ensures cut { (result ≡ Status.Done → ⊥) → Started (K.held sink.old) (K.held sink.new) (whole trace log.now.items answers.now) }
    ensures fault { result ≡ Status.WriteFault → Rose (K.faults sink.old) (K.faults sink.new) }
{
    match write_out(alloc, sink, log, answers, trace) {
        Ok(()) => Status::Done,
        Err(stop) => Status::from(stop),
    }
}

/// Writes the output of lines that have run.
fn written_after<K: Sink, R>(
    alloc: Global,
    lines: &Lines,
    words: Words,
    sink: &mut K,
    ended: Ended<R>,
) -> Outcome<R>
    requires answers { IfOk ended.answers (λ answers. AreAnswers runs words.lanes lines.now ended.log.items answers) }
    requires all { IfOk ended.answers (λ answers. length answers ≡ length lines.now) }
    ensures rack { result.rack ≡ ended.rack }
    ensures log { result.log.items ≡ ended.log.items }
    ensures status { IsAfterInput result.status }
    ensures done { result.status ≡ Status.Done → Appends (K.held sink.old) (K.held sink.new) (out words.lanes words.trace lines.now ended.log.items) }
    ensures cut { (result.status ≡ Status.Done → ⊥) → Started (K.held sink.old) (K.held sink.new) (out words.lanes words.trace lines.now ended.log.items) }
    ensures fault { result.status ≡ Status.WriteFault → Rose (K.faults sink.old) (K.faults sink.new) }
{
    let _ = lines;
    let Ended { rack, log, answers } = ended;
    let Ok(answers) = answers else {
        return Outcome {
            status: Status::OutOfMemory,
            rack,
            log,
        };
    };
    let status = written(alloc, sink, &log, answers.items(), words.trace);
    Outcome { status, rack, log }
}

/// Runs the lines on this rack, and writes the output. Where the engine doesn't begin, nothing is written.
fn run_input<K: Sink, R: Rack, G: Gate>(
    alloc: Global,
    lines: &Lines,
    words: Words,
    sink: &mut K,
    rack: R,
    gate: &G,
) -> Outcome<R>
    requires fit { IsFit (R.devs rack) }
    requires few { length lines.now ≤ MAX_LINES }
    ensures ended { (DidNotBegin R.devs R.moment R.state_at R.faults rack result.status result.log.items result.rack × (sink.new ≡ sink.old))
        ⊎ HasOutput R.devs R.moment R.state_at R.faults rack words.lanes words.trace lines.now (K.held sink.old) (K.held sink.new) result.status result.log.items result.rack }
    ensures fault { result.status ≡ Status.WriteFault → Rose (K.faults sink.old) (K.faults sink.new) }
{
    match run_rack(alloc, gate, words.lanes, rack, lines) {
        Ok(ended) => written_after(alloc, lines, words, sink, ended),
        Err(early) => early,
    }
}

/// Runs the lines of the whole input, and writes the output.
pub(crate) fn run_script<S: Source, K: Sink, R: Rack, G: Gate>(
    alloc: Global,
    words: Words,
    source: &mut S,
    sink: &mut K,
    rack: R,
    gate: &G,
) -> Outcome<R>
    requires { IsFit (R.devs rack) }
    ensures done { result.status ≡ Status.Done → IsDone R.devs R.moment R.state_at R.faults rack words.lanes words.trace (S.left source.old) (K.held sink.old) (K.held sink.new) result.log.items result.rack }
    ensures cut_off { result.status ≡ Status.WriteFault → IsCutOff R.devs R.moment R.state_at R.faults rack words.lanes words.trace (S.left source.old) (K.held sink.old) (K.held sink.new) result.log.items result.rack }
    ensures out_of_memory { result.status ≡ Status.OutOfMemory → HasStopped R.devs R.moment R.state_at R.faults rack words.lanes words.trace (S.left source.old) (K.held sink.old) (K.held sink.new) result.log.items result.rack }
    ensures early { IsEarly result.status → (sink.new ≡ sink.old) × (result.log.items ≡ []) }
    ensures untouched { IsEarly result.status → (IsOfDevices result.status → ⊥) → result.rack ≡ rack }
    ensures back { IsOfDevices result.status → IsBack R.devs R.moment R.state_at R.faults rack result.rack }
    ensures end { IsWritten result.status → IsAtEnd (S.left source.new) }
    ensures history { (s0 : EngineState) → RackStands (R.devs rack) (held (R.state_at rack (R.moment rack))) s0 → History s0 result.log.items }
    ensures counts { Counts R.devs R.moment R.state_at R.faults rack result.log.items result.rack }
    ensures no_usage { result.status ≡ Status.Usage → ⊥ }
    ensures read_fault { result.status ≡ Status.ReadFault → Rose (S.faults source.old) (S.faults source.new) }
    ensures write_fault { result.status ≡ Status.WriteFault → Rose (K.faults sink.old) (K.faults sink.new) }
    ensures limit { (limit : Limit) → result.status ≡ Status.InputLimit limit → IfSome (S.left source.old) (λ input. first_broken input ≡ Some limit) }
    ensures within_limit { IsWritten result.status → IfSome (S.left source.old) (λ input. first_broken input ≡ None) }
    ensures open_fault { result.status ≡ Status.OpenFault → Rose (R.faults rack) (R.faults result.rack) }
    ensures foreign { (n : _) → result.status ≡ Status.Foreign n → IsForeign (R.devs rack) (held (R.state_at rack (R.moment rack))) n }
{
    stands_as_one();
    let lines = match read_lines(alloc, source) {
        Ok(lines) => lines,
        Err(stop) => return Outcome::early(alloc, Status::from(stop), rack),
    };
    run_input(alloc, &lines, words, sink, rack, gate)
}
