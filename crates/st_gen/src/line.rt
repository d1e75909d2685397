ghost use Rattle.std.specs.Prelude.{◌≡◌, ◌≤◌, ◌++◌, IfOk, OnOk, string_bytes, decimal};
ghost use Rattle.st_limits.specs.declared.TheConstants.{MAX_LANES};
ghost use Rattle.st_gen.specs.Script.{pool_line, filesystem_line, snapshot_line, destroy_line, write_line, read_line, report_line, drawn_line, line_at, number_after};

use crate::draw::{byte_of, drawn, kind_of, sector_of, sectors_of};
use itoa::Buffer;
use st_limits::MAX_LANES;
use st_units::{Bytes, NoMemory};
use std::alloc::Global;

/// How many lines a script has.
pub const GEN_LINES: u64 = 20_000;

/// More than the longest line.
const ROOM: usize = 128;

/// Puts the label and the number behind it.
fn push(text: &mut String, label: &str, number: u64) -> Result<(), NoMemory>
    ensures { OnOk result (string_bytes text.new ≡ string_bytes text.old ++ label.now ++ decimal number) }
{
    let mut digits = Buffer::new();
    text.push_str(label)?;
    text.push_str(digits.format(number))?;
    Ok(())
}

#[tactic(auto, unfolding(crate::specs::Script::pool_line))]
fn pool_line(alloc: Global, lane: u64) -> Result<String, NoMemory>
    ensures { IfOk result (λ text. string_bytes text ≡ pool_line lane) }
{
    let mut text = String::with_capacity(alloc, ROOM)?;
    push(
        &mut text,
        "{\"call\":\"CreatePool\",\"devices\":[\"/dev/sim",
        lane,
    )?;
    push(&mut text, "\"],\"lane\":", lane)?;
    push(&mut text, ",\"name\":\"g", lane)?;
    text.push_str("\"}")?;
    Ok(text)
}

#[tactic(auto, unfolding(crate::specs::Script::filesystem_line))]
fn filesystem_line(alloc: Global, lane: u64) -> Result<String, NoMemory>
    ensures { IfOk result (λ text. string_bytes text ≡ filesystem_line lane) }
{
    let mut text = String::with_capacity(alloc, ROOM)?;
    push(
        &mut text,
        "{\"call\":\"CreateFilesystems\",\"filesystems\":[{\"name\":\"a\"}],\"lane\":",
        lane,
    )?;
    push(&mut text, ",\"pool\":\"g", lane)?;
    text.push_str("\"}")?;
    Ok(text)
}

#[tactic(auto, unfolding(crate::specs::Script::snapshot_line))]
fn snapshot_line(alloc: Global, lane: u64) -> Result<String, NoMemory>
    ensures { IfOk result (λ text. string_bytes text ≡ snapshot_line lane) }
{
    let mut text = String::with_capacity(alloc, ROOM)?;
    push(
        &mut text,
        "{\"call\":\"SnapshotFilesystem\",\"lane\":",
        lane,
    )?;
    push(
        &mut text,
        ",\"name\":\"s\",\"origin\":\"a\",\"pool\":\"g",
        lane,
    )?;
    text.push_str("\"}")?;
    Ok(text)
}

#[tactic(auto, unfolding(crate::specs::Script::destroy_line))]
fn destroy_line(alloc: Global, lane: u64) -> Result<String, NoMemory>
    ensures { IfOk result (λ text. string_bytes text ≡ destroy_line lane) }
{
    let mut text = String::with_capacity(alloc, ROOM)?;
    push(
        &mut text,
        "{\"call\":\"DestroyFilesystems\",\"lane\":",
        lane,
    )?;
    push(&mut text, ",\"names\":[\"s\"],\"pool\":\"g", lane)?;
    text.push_str("\"}")?;
    Ok(text)
}

#[tactic(auto, unfolding(crate::specs::Script::write_line))]
fn write_line(alloc: Global, lane: u64, x: u64) -> Result<String, NoMemory>
    ensures { IfOk result (λ text. string_bytes text ≡ write_line lane x) }
{
    let mut text = String::with_capacity(alloc, ROOM)?;
    push(&mut text, "{\"call\":\"FsWrite\",\"fill\":", byte_of(x))?;
    push(&mut text, ",\"lane\":", lane)?;
    push(&mut text, ",\"name\":\"a\",\"pool\":\"g", lane)?;
    push(&mut text, "\",\"sector\":", sector_of(x))?;
    push(&mut text, ",\"sectors\":", sectors_of(x))?;
    text.push_str("}")?;
    Ok(text)
}

#[tactic(auto, unfolding(crate::specs::Script::read_line))]
fn read_line(alloc: Global, lane: u64, x: u64) -> Result<String, NoMemory>
    ensures { IfOk result (λ text. string_bytes text ≡ read_line lane x) }
{
    let mut text = String::with_capacity(alloc, ROOM)?;
    push(&mut text, "{\"call\":\"FsRead\",\"lane\":", lane)?;
    push(&mut text, ",\"name\":\"a\",\"pool\":\"g", lane)?;
    push(&mut text, "\",\"sector\":", sector_of(x))?;
    push(&mut text, ",\"sectors\":", sectors_of(x))?;
    text.push_str("}")?;
    Ok(text)
}

#[tactic(auto, unfolding(crate::specs::Script::report_line))]
fn report_line(alloc: Global, lane: u64) -> Result<String, NoMemory>
    ensures { IfOk result (λ text. string_bytes text ≡ report_line lane) }
{
    let mut text = String::with_capacity(alloc, ROOM)?;
    push(&mut text, "{\"call\":\"PoolReport\",\"lane\":", lane)?;
    push(&mut text, ",\"pool\":\"g", lane)?;
    text.push_str("\"}")?;
    Ok(text)
}

#[tactic(auto, unfolding(crate::specs::Script::drawn_line))]
fn drawn_line(alloc: Global, lane: u64, x: u64) -> Result<String, NoMemory>
    ensures { IfOk result (λ text. string_bytes text ≡ drawn_line lane x) }
{
    let kind = kind_of(x);
    if kind < 1 {
        snapshot_line(alloc, lane)
    } else if kind < 2 {
        destroy_line(alloc, lane)
    } else if kind < 8 {
        write_line(alloc, lane, x)
    } else if kind < 15 {
        read_line(alloc, lane, x)
    } else {
        report_line(alloc, lane)
    }
}

#[tactic(auto, unfolding(crate::specs::Script::line_at))]
fn line_text(alloc: Global, lanes: u64, i: u64, x: u64) -> Result<String, NoMemory>
    requires some { 1 ≤ lanes }
    requires most { lanes ≤ MAX_LANES }
    ensures { IfOk result (λ text. string_bytes text ≡ line_at lanes i x) }
{
    let lane = i % lanes;
    if i < lanes {
        pool_line(alloc, lane)
    } else if i < 2 * lanes {
        filesystem_line(alloc, lane)
    } else {
        drawn_line(alloc, lane, drawn(x))
    }
}

#[tactic(auto, unfolding(crate::specs::Script::number_after))]
fn number_after(lanes: u64, i: u64, x: u64) -> u64
    requires { lanes ≤ MAX_LANES }
    ensures { result ≡ number_after lanes i x }
{
    if i < 2 * lanes { x } else { drawn(x) }
}

/// Line `i` of the script, from 0, without its LF, and the number from after it. `x` is the number
/// from before it: for line 0 the script's own.
pub fn gen_line(alloc: Global, lanes: u8, i: u64, x: u64) -> Result<(Bytes, u64), NoMemory>
    requires some { 1 ≤ lanes }
    requires most { lanes ≤ MAX_LANES }
    ensures line { IfOk result (λ made. made.0 ≡ line_at lanes i x) }
    ensures number { IfOk result (λ made. made.1 ≡ number_after lanes i x) }
{
    let lanes = u64::from(lanes);
    let text = line_text(alloc, lanes, i, x)?;
    Ok((Bytes::of(text.into_bytes()), number_after(lanes, i, x)))
}
