ghost use Rattle.std.specs.Prelude.{◌≡◌};
ghost use Rattle.st_lines.specs.Limits.{broken_by_line};

use st_limits::{MAX_LINE_BYTES, MAX_LINES};
use thiserror::Error;

/// A limit on the input that is broken.
#[derive(Clone, Copy, Debug, PartialEq, Eq, Error)]
pub enum Limit {
    /// More than 67,108,864 bytes.
    #[error("bytes")]
    Bytes,
    /// More than 65,536 lines.
    #[error("lines")]
    Lines,
    /// The line of this number, from 1, has more than 16,384 bytes.
    #[error("line {0}")]
    Line(u64),
}

/// The limit that a line of this number and this length breaks.
pub(crate) fn broken_by_line(number: u64, len: usize) -> Option<Limit>
    ensures { result ≡ broken_by_line number len }
{
    if number > MAX_LINES {
        Some(Limit::Lines)
    } else if len as u64 > MAX_LINE_BYTES {
        Some(Limit::Line(number))
    } else {
        None
    }
}
