ghost use Rattle.std.specs.Prelude.{◌≡◌, ◌≤◌, ℕ, List, true, false, Some, None, Err, IfOk, IfSome, map, option_map, string_bytes};
ghost use Rattle.st_limits.specs.declared.TheConstants.{MAX_LANES};
ghost use Rattle.clap.specs.Words.{first_of, found_of, matches_of, rows_of};
ghost use Rattle.st_words.specs.Command.{command, takes_words};
ghost use Rattle.st_words.specs.Meaning.{as_lanes, is_told, lanes_told, meaning, mode_named, number_in, number_told, words_of};

use crate::command::command;
use clap::ArgMatches;
use clap::error::ErrorKind;
use st_limits::MAX_LANES;
use std::alloc::{AllocError, Global};
use thiserror::Error;

/// What the program is to do.
#[derive(Clone, Copy, Debug, PartialEq, Eq)]
pub enum RunMode {
    /// Run the lines of the input.
    Run,
    /// Look at the lines' form alone.
    Check,
    /// Write a script.
    Gen,
}

/// What the words ask for. An option that the mode doesn't use has its value all the same.
#[derive(Clone, Copy, Debug, PartialEq, Eq)]
pub struct Words {
    pub mode: RunMode,
    /// From 1 to 8.
    pub lanes: u8,
    /// Whether the trace is written too.
    pub trace: bool,
    /// Whether the rack is cycled, and all pools are started again, when the lines have run.
    pub recover: bool,
    /// The number of the script that is written.
    pub number: u64,
}

/// Why the words weren't read.
#[derive(Clone, Copy, Debug, PartialEq, Eq, Error)]
pub enum WordsFault {
    #[error("not words of this program")]
    Usage,
    #[error("out of memory")]
    OutOfMemory,
}

impl From<AllocError> for WordsFault {
    ghost use Rattle.std.specs.Prelude.{◌≡◌};
    ghost use Rattle.st_words.specs.declared.words.WordsFault.TheVariants.{OutOfMemory};

    ghost from_gives = { λ _ e. e ≡ OutOfMemory };

    fn from(_refused: AllocError) -> WordsFault {
        WordsFault::OutOfMemory
    }
}

/// Reads the words after the program's name: `MODE [--lanes N] [--number N] [--trace]`.
#[tactic(auto, unfolding(crate::specs::Meaning::words_of))]
pub fn read_words(alloc: Global, words: &[String]) -> Result<Words, WordsFault>
    ensures words { IfOk result (λ read. words_of (map string_bytes words.now) ≡ Some read) }
    ensures usage { result ≡ Err WordsFault.Usage → words_of (map string_bytes words.now) ≡ None }
    ensures lanes { IfOk result (λ read. (1 ≤ read.lanes) × (read.lanes ≤ MAX_LANES)) }
{
    let matches = matches_of(alloc, words)?;
    match meaning(&matches) {
        Some(read) => Ok(read),
        None => Err(WordsFault::Usage),
    }
}

/// The matches of the command, where it takes the words.
fn matches_of(alloc: Global, words: &[String]) -> Result<ArgMatches<'_>, WordsFault>
    ensures taken { IfOk result (λ m. (takes_words (map string_bytes words.entry.now) ≡ true) × (rows_of (found_of m) ≡ matches_of command (map string_bytes words.entry.now))) }
    ensures usage { result ≡ Err WordsFault.Usage → takes_words (map string_bytes words.entry.now) ≡ false }
{
    match command(alloc)?.try_get_matches_from(words) {
        Ok(matches) => Ok(matches),
        Err(error) => Err(fault_of(error.kind())),
    }
}

fn fault_of(kind: ErrorKind) -> WordsFault
    ensures memory { kind ≡ ErrorKind.OutOfMemory → result ≡ WordsFault.OutOfMemory }
    ensures usage { result ≡ WordsFault.Usage → (kind ≡ ErrorKind.OutOfMemory → ⊥) }
{
    match kind {
        ErrorKind::OutOfMemory => WordsFault::OutOfMemory,
        _ => WordsFault::Usage,
    }
}

#[tactic(auto, unfolding(crate::specs::Meaning::meaning))]
fn meaning(matches: &ArgMatches<'_>) -> Option<Words>
    ensures meaning { result ≡ meaning (rows_of (found_of matches.now)) }
    ensures lanes { IfSome result (λ read. (1 ≤ read.lanes) × (read.lanes ≤ MAX_LANES)) }
{
    let mode = mode_named(value(matches, "mode")?)?;
    let lanes = lanes_told(value(matches, "lanes"))?;
    let number = number_told(value(matches, "number"))?;
    Some(Words {
        mode,
        lanes,
        trace: is_told(value(matches, "trace")),
        recover: false,
        number,
    })
}

/// The value of an argument, where it has one.
fn value<'a>(matches: &ArgMatches<'a>, id: &str) -> Option<&'a str>
    ensures { option_map (λ text. text.now) result ≡ first_of id.now (rows_of (found_of matches.now)) }
{
    matches.get_str(id)
}

fn mode_named(text: &str) -> Option<RunMode>
    ensures { result ≡ mode_named text.now }
{
    match text {
        "run" => Some(RunMode::Run),
        "check" => Some(RunMode::Check),
        "gen" => Some(RunMode::Gen),
        _ => None,
    }
}

#[tactic(auto, unfolding(crate::specs::Meaning::lanes_told))]
fn lanes_told(text: Option<&str>) -> Option<u8>
    ensures told { result ≡ lanes_told (option_map (λ text. text.now) text.entry) }
    ensures lanes { IfSome result (λ lanes. (1 ≤ lanes) × (lanes ≤ MAX_LANES)) }
{
    match text {
        Some(text) => as_lanes(number_in(text)?),
        None => Some(MAX_LANES as u8),
    }
}

fn as_lanes(lanes: u64) -> Option<u8>
    ensures is { result ≡ as_lanes lanes }
    ensures lanes { IfSome result (λ lanes. (1 ≤ lanes) × (lanes ≤ MAX_LANES)) }
{
    if 1 <= lanes && lanes <= MAX_LANES {
        Some(lanes as u8)
    } else {
        None
    }
}

#[tactic(auto, unfolding(crate::specs::Meaning::number_told))]
fn number_told(text: Option<&str>) -> Option<u64>
    ensures { result ≡ number_told (option_map (λ text. text.now) text.entry) }
{
    match text {
        Some(text) => number_in(text),
        None => Some(0),
    }
}

fn number_in(text: &str) -> Option<u64>
    ensures { result ≡ number_in text.now }
{
    text.parse().ok()
}

/// Whether the flag was given, by the value that it has.
fn is_told(flag: Option<&str>) -> bool
    ensures { result ≡ is_told (option_map (λ text. text.now) flag.entry) }
{
    match flag {
        Some(text) => text == "true",
        None => false,
    }
}
