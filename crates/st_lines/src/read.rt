ghost use Rattle.std.specs.Prelude.{ℕ, List, ◌≡◌, ◌≤◌, Some, None, IfOk, OnOk, Err, IfSome, length};
ghost use Rattle.std.specs.Option.{option_or};
ghost use Rattle.std.specs.Io.KnownBytes.{Consumes, IsAtEnd};
ghost use Rattle.st_units.specs.Causes.{Rose};
ghost use Rattle.st_limits.specs.declared.TheConstants.{MAX_LINES};
ghost use Rattle.st_lines.specs.declared.read.ReadStop.TheVariants.{OutOfMemory};
ghost use Rattle.st_lines.specs.Limits.{broken_by_lines, first_broken};
ghost use Rattle.st_lines.specs.Lines.{lines_of};

use crate::limit::Limit;
use crate::lines::Lines;
use crate::stream::{Failed, Source};
use st_limits::MAX_INPUT_BYTES;
use st_units::NoMemory;
use std::alloc::{AllocError, Global};
use thiserror::Error;

/// How many bytes an input may have.
const MOST_BYTES: usize = MAX_INPUT_BYTES as usize;

/// How many bytes are asked of a source at once.
const PIECE: usize = 65_536;

/// Why an input wasn't read.
#[derive(Clone, Copy, Debug, PartialEq, Eq, Error)]
pub enum ReadStop {
    #[error("read fault")]
    Fault,
    #[error("input limit: {0}")]
    Limit(Limit),
    #[error("out of memory")]
    OutOfMemory,
}

impl From<AllocError> for ReadStop {
    ghost from_gives = { λ _ e. e ≡ OutOfMemory };

    fn from(_refused: AllocError) -> ReadStop {
        ReadStop::OutOfMemory
    }
}

impl From<NoMemory> for ReadStop {
    ghost from_gives = { λ _ e. e ≡ OutOfMemory };

    fn from(_refused: NoMemory) -> ReadStop {
        ReadStop::OutOfMemory
    }
}

/// Reads a source to its end, and cuts what it gave into lines, where no limit is broken. Else the
/// first limit that is broken in the order of the bytes is the answer.
///
/// After an error the source has lost the bytes that were read.
pub fn read_lines<S: Source>(alloc: Global, source: &mut S) -> Result<Lines, ReadStop>
    ensures lines { IfOk result (λ lines. IfSome (S.left source.old) (λ input. lines ≡ lines_of input)) }
    ensures kept { OnOk result (IfSome (S.left source.old) (λ input. first_broken input ≡ None)) }
    ensures few { IfOk result (λ lines. length lines ≤ MAX_LINES) }
    ensures end { OnOk result (IsAtEnd (S.left source.new)) }
    ensures limit { (limit : Limit) → result ≡ Err (ReadStop.Limit limit) → IfSome (S.left source.old) (λ input. first_broken input ≡ Some limit) }
    ensures fault { result ≡ Err ReadStop.Fault → Rose (S.faults source.old) (S.faults source.new) }
    ensures later { S.faults source.old ≤ S.faults source.new }
    ensures taken { (bytes : List ℕ) × Consumes (S.left source.old) (S.left source.new) bytes }
{
    let mut input = read_all(alloc, source)?;
    if input.len() <= MOST_BYTES {
        return Lines::cut(alloc, input);
    }
    input.truncate(MOST_BYTES + 1);
    Err(stop_of_long(alloc, input))
}

/// Why a text isn't read whose last byte is one too many.
fn stop_of_long(alloc: Global, text: Vec<u8>) -> ReadStop
    ensures limit { (limit : Limit) → result ≡ ReadStop.Limit limit → option_or (broken_by_lines 1 (lines_of text.items)) (Some Limit.Bytes) ≡ Some limit }
    ensures fault { result ≡ ReadStop.Fault → ⊥ }
{
    match Lines::cut(alloc, text) {
        Ok(_) => ReadStop::Limit(Limit::Bytes),
        Err(stop) => stop,
    }
}

/// Reads a source to its end, or to a byte more than an input may have.
fn read_all<S: Source>(alloc: Global, source: &mut S) -> Result<Vec<u8>, ReadStop>
    ensures all { IfOk result (λ input. Consumes (S.left source.old) (S.left source.new) input.items) }
    ensures end { IfOk result (λ input. length input.items ≤ MOST_BYTES → IsAtEnd (S.left source.new)) }
    ensures fault { result ≡ Err ReadStop.Fault → Rose (S.faults source.old) (S.faults source.new) }
    ensures limit { (limit : Limit) → result ≡ Err (ReadStop.Limit limit) → ⊥ }
    ensures later { S.faults source.old ≤ S.faults source.new }
    ensures taken { (bytes : List ℕ) × Consumes (S.left source.old) (S.left source.new) bytes }
{
    let mut input = Vec::new(alloc);
    let mut piece = zeroes(alloc, PIECE)?;
    for _ in 0..MOST_BYTES + 1 {
        match source.next(piece.as_mut_slice()) {
            Ok(0) => return Ok(input),
            Ok(count) => {
                input.extend_from_slice(&piece[..count])?;
                if input.len() > MOST_BYTES {
                    return Ok(input);
                }
            }
            Err(Failed) => return Err(ReadStop::Fault),
        }
    }
    unreachable!()
}

fn zeroes(alloc: Global, len: usize) -> Result<Vec<u8>, AllocError>
    ensures { IfOk result (λ bytes. length bytes.items ≡ len) }
{
    vec![in alloc; 0u8; len]
}
