ghost use Rattle.std.specs.Prelude.{◌≡◌, ◌⊎◌, ◌≤◌, [], false, true, Some, None, Err, map, string_bytes, IfErr, IfOk, IfSome, OnOk};
ghost use Rattle.std.specs.Io.KnownBytes.{IsAtEnd};
ghost use Rattle.st_units.specs.Causes.{Rose};
ghost use Rattle.st_limits.specs.declared.TheConstants.{MAX_LANES};
ghost use Rattle.st_model.specs.declared.state.EngineState.{EngineState};
ghost use Rattle.st_history.specs.History.{History};
ghost use Rattle.st_lines.specs.Limits.{first_broken};
ghost use Rattle.st_rack.specs.Calls.{IsFit};
ghost use Rattle.st_rack.specs.Device.{held};
ghost use Rattle.st_image.specs.Rack.{IsForeign, RackStands};
ghost use Rattle.st_begin.specs.Begun.{IsBack};
ghost use Rattle.st_words.specs.Meaning.{words_of};
ghost use Rattle.st_gen.specs.Script.{script};
ghost use Rattle.st_status.specs.Statuses.{IsWritten, IsEarly, IsOfInput, IsOfDevices, Wrote};
ghost use Rattle.st_check.specs.Checked.{IsCheck};
ghost use Rattle.st_session.specs.Headline.{Counts, HasStopped, IsCutOff, IsDone};
ghost use Rattle.st_session.specs.Modes.{are_served, asks_lanes, asks_mode, asks_number, asks_trace, ask_input};

use crate::input::run_script;
use crate::outcome::Outcome;
use st_check::{check_lines, gen_lines};
use st_lines::{Limit, Sink, Source};
use st_model::Gate;
use st_rack::Rack;
use st_status::Status;
use st_words::{RunMode, Words, WordsFault, read_words};
use std::alloc::Global;
use std::sync::Wait;
use std::thread::Threads;

/// The words, where they are served: `--recover` isn't yet.
fn served_words(alloc: Global, words: &[String]) -> Result<Words, Status>
    ensures words { IfOk result (λ read. words_of (map string_bytes words.now) ≡ Some read) }
    ensures served { OnOk result (are_served (words_of (map string_bytes words.now)) ≡ true) }
    ensures usage { result ≡ Err Status.Usage → are_served (words_of (map string_bytes words.now)) ≡ false }
    ensures other { IfErr result (λ status. (status ≡ Status.Usage) ⊎ (status ≡ Status.OutOfMemory)) }
    ensures lanes { IfOk result (λ read. (1 ≤ read.lanes) × (read.lanes ≤ MAX_LANES)) }
{
    match read_words(alloc, words) {
        Ok(words) if words.recover => Err(Status::Usage),
        Ok(words) => Ok(words),
        Err(WordsFault::Usage) => Err(Status::Usage),
        Err(WordsFault::OutOfMemory) => Err(Status::OutOfMemory),
    }
}

/// Does what the words ask for. In mode `run` that is a run of a script: it reads the whole input, begins the engine on the rack, runs each
/// line that is a call, closes the engine, and writes the reply lines, with `--trace` the trace, and the summary. In mode `check` it looks
/// at the lines' form alone, and in mode `gen` it writes a script.
///
/// Nothing is written before all lines have run and the engine is closed. All devices come back in one rack, with every status, and the log
/// of the lock with it. Want of memory may end a run at any moment; each other status has its cause as a clause.
pub fn run_words<
    W: Threads + Wait + Copy + Sync,
    S: Source,
    K: Sink,
    R: Rack + Send,
    G: Gate + Sync,
>(
    rt: &W,
    alloc: Global,
    words: &[String],
    source: &mut S,
    sink: &mut K,
    rack: R,
    gate: &G,
) -> Outcome<R>
    requires { IsFit (R.devs rack) }

    // In mode `run`: what was done, what was written, and which devices came back.
    ensures done { asks_mode (words_of (map string_bytes words.now)) ≡ Some RunMode.Run → result.status ≡ Status.Done → IsDone R.devs R.moment R.state_at R.faults rack (asks_lanes (words_of (map string_bytes words.now))) (asks_trace (words_of (map string_bytes words.now))) (S.left source.old) (K.held sink.old) (K.held sink.new) result.log.items result.rack }
    ensures cut_off { asks_mode (words_of (map string_bytes words.now)) ≡ Some RunMode.Run → result.status ≡ Status.WriteFault → IsCutOff R.devs R.moment R.state_at R.faults rack (asks_lanes (words_of (map string_bytes words.now))) (asks_trace (words_of (map string_bytes words.now))) (S.left source.old) (K.held sink.old) (K.held sink.new) result.log.items result.rack }
    ensures out_of_memory { asks_mode (words_of (map string_bytes words.now)) ≡ Some RunMode.Run → result.status ≡ Status.OutOfMemory → HasStopped R.devs R.moment R.state_at R.faults rack (asks_lanes (words_of (map string_bytes words.now))) (asks_trace (words_of (map string_bytes words.now))) (S.left source.old) (K.held sink.old) (K.held sink.new) result.log.items result.rack }

    // In the other modes no line runs, and no device is touched.
    ensures checked { asks_mode (words_of (map string_bytes words.now)) ≡ Some RunMode.Check → IsCheck (asks_lanes (words_of (map string_bytes words.now))) result.status (S.left source.old) (K.held sink.old) (K.held sink.new) }
    ensures generated { asks_mode (words_of (map string_bytes words.now)) ≡ Some RunMode.Gen → Wrote result.status (K.held sink.old) (K.held sink.new) (script (asks_lanes (words_of (map string_bytes words.now))) (asks_number (words_of (map string_bytes words.now)))) }
    ensures nothing_ran { (asks_mode (words_of (map string_bytes words.now)) ≡ Some RunMode.Run → ⊥) → (result.log.items ≡ []) × (result.rack ≡ rack) }

    // In every mode.
    ensures early { IsEarly result.status → (sink.new ≡ sink.old) × (result.log.items ≡ []) }
    ensures untouched { IsEarly result.status → (IsOfDevices result.status → ⊥) → result.rack ≡ rack }
    ensures back { IsOfDevices result.status → IsBack R.devs R.moment R.state_at R.faults rack result.rack }
    ensures unserved { are_served (words_of (map string_bytes words.now)) ≡ false → (source.new ≡ source.old) × (sink.new ≡ sink.old) }
    ensures end { ask_input (words_of (map string_bytes words.now)) ≡ true → IsWritten result.status → IsAtEnd (S.left source.new) }
    ensures no_input { ask_input (words_of (map string_bytes words.now)) ≡ false → source.new ≡ source.old }

    // What holds of the log with every status.
    ensures history { (s0 : EngineState) → RackStands (R.devs rack) (held (R.state_at rack (R.moment rack))) s0 → History s0 result.log.items }
    ensures counts { Counts R.devs R.moment R.state_at R.faults rack result.log.items result.rack }

    // The cause of each status.
    ensures usage { result.status ≡ Status.Usage → are_served (words_of (map string_bytes words.now)) ≡ false }
    ensures no_usage { are_served (words_of (map string_bytes words.now)) ≡ false → (result.status ≡ Status.Usage) ⊎ (result.status ≡ Status.OutOfMemory) }
    ensures read_fault { result.status ≡ Status.ReadFault → Rose (S.faults source.old) (S.faults source.new) }
    ensures write_fault { result.status ≡ Status.WriteFault → Rose (K.faults sink.old) (K.faults sink.new) }
    ensures limit { (limit : Limit) → result.status ≡ Status.InputLimit limit → IfSome (S.left source.old) (λ input. first_broken input ≡ Some limit) }
    ensures within_limit { ask_input (words_of (map string_bytes words.now)) ≡ true → IsWritten result.status → IfSome (S.left source.old) (λ input. first_broken input ≡ None) }
    ensures of_input { IsOfInput result.status → ask_input (words_of (map string_bytes words.now)) ≡ true }
    ensures open_fault { result.status ≡ Status.OpenFault → Rose (R.faults rack) (R.faults result.rack) }
    ensures foreign { (n : _) → result.status ≡ Status.Foreign n → IsForeign (R.devs rack) (held (R.state_at rack (R.moment rack))) n }
    ensures of_devices { IsOfDevices result.status → asks_mode (words_of (map string_bytes words.now)) ≡ Some RunMode.Run }
{
    let _ = rt;
    let words = match served_words(alloc, words) {
        Ok(words) => words,
        Err(status) => return Outcome::early(alloc, status, rack),
    };
    match words.mode {
        RunMode::Run => run_script(alloc, words, source, sink, rack, gate),
        RunMode::Check => {
            let status = check_lines(alloc, source, sink, words.lanes);
            Outcome::early(alloc, status, rack)
        }
        RunMode::Gen => {
            let status = gen_lines(alloc, sink, words.lanes, words.number);
            Outcome::early(alloc, status, rack)
        }
    }
}
