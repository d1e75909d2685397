ghost use Rattle.std.specs.Prelude.{◌≡◌, ◌<◌, ◌≤◌, Some, None, Err, IfOk, OnOk, [], ◌∷◌, ◌++◌, length, slice_get, map, All, unwrap_or};
ghost use Rattle.std.specs.List.{position};
ghost use Rattle.st_limits.specs.declared.TheConstants.{MAX_LINES};
ghost use Rattle.st_lines.specs.Limits.{broken_by_lines};
ghost use Rattle.st_lines.specs.Lines.{is_feed, lines_of};
ghost use Rattle.st_lines.specs.declared.read.ReadStop.{ReadStop};
ghost use Rattle.st_lines.specs.Spans.{line_at, LiesIn};

use crate::limit::{Limit, broken_by_line};
use crate::read::ReadStop;
use memchr::memchr;
use st_units::NoMemory;
use std::alloc::Global;
use std::marker::Model;

/// Where a line stands in its text: from its first byte to before its LF.
#[derive(Clone, Copy)]
struct Span {
    from: usize,
    to: usize,
}

/// A text that is cut into its lines, which are kept as places in it.
#[derive(Drop)]
pub struct Lines {
    text: Vec<u8>,
    spans: Vec<Span>,
}

impl Model for Lines {
    ghost use Rattle.std.specs.Prelude.{ℕ, List, map, All};
    ghost use Rattle.st_lines.specs.Spans.{line_at, LiesIn};

    ghost Value = { List (List ℕ) };

    ghost view = { λ s. map (line_at s.text.items) s.spans.items };

    ghost invariant = { λ s. All (LiesIn s.text.items) s.spans.items };
}

impl Lines {
    /// The lines of a text, where none of them breaks a limit. The text isn't copied.
    pub(crate) fn cut(alloc: Global, text: Vec<u8>) -> Result<Lines, ReadStop>
        ensures lines { IfOk result (λ lines. lines ≡ lines_of text.items) }
        ensures kept { OnOk result (broken_by_lines 1 (lines_of text.items) ≡ None) }
        ensures few { IfOk result (λ lines. length lines ≤ MAX_LINES) }
        ensures limit { (limit : Limit) → result ≡ Err (ReadStop.Limit limit) → broken_by_lines 1 (lines_of text.items) ≡ Some limit }
        ensures fault { result ≡ Err ReadStop.Fault → ⊥ }
    {
        let spans = spans_of(alloc, text.as_slice())?;
        Ok(Lines { text, spans })
    }

    pub fn len(&self) -> usize
        ensures { result ≡ length self.now }
    {
        self.spans.len()
    }

    /// A line without its LF.
    pub fn at(&self, i: usize) -> &[u8]
        requires { i < length self.now }
        ensures { slice_get self.now i ≡ Some result.now }
    {
        let span = self.spans[i];
        &self.text[span.from..span.to]
    }
}

fn spans_of(alloc: Global, text: &[u8]) -> Result<Vec<Span>, ReadStop>
    ensures lines { IfOk result (λ spans. map (line_at text.now) spans.items ≡ lines_of text.now) }
    ensures within { IfOk result (λ spans. All (LiesIn text.now) spans.items) }
    ensures kept { OnOk result (broken_by_lines 1 (lines_of text.now) ≡ None) }
    ensures limit { (limit : Limit) → result ≡ Err (ReadStop.Limit limit) → broken_by_lines 1 (lines_of text.now) ≡ Some limit }
    ensures fault { result ≡ Err ReadStop.Fault → ⊥ }
{
    let mut spans = Vec::new(alloc);
    let mut from = 0;
    while from < text.len() {
        let len = line_len(&text[from..]);
        let to = from + len;
        if let Some(limit) = broken_by_line(spans.len() as u64 + 1, len) {
            return Err(ReadStop::Limit(limit));
        }
        push(&mut spans, Span { from, to })?;
        from = to + 1;
    }
    Ok(spans)
}

fn push(spans: &mut Vec<Span>, span: Span) -> Result<(), NoMemory>
    ensures { OnOk result (spans.new.items ≡ spans.old.items ++ span ∷ []) }
{
    spans.push(span)?;
    Ok(())
}

/// How many bytes stand before the first LF, or in all where there is none.
fn line_len(text: &[u8]) -> usize
    ensures { result ≡ unwrap_or (position is_feed text.now) (length text.now) }
{
    first_feed(text).unwrap_or(text.len())
}

fn first_feed(text: &[u8]) -> Option<usize>
    ensures { result ≡ position is_feed text.now }
{
    memchr(b'\n', text)
}
