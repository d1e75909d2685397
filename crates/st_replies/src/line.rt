ghost use Rattle.std.specs.Prelude.{◌≡◌, ◌++◌, IfOk, OnOk, string_bytes, decimal};
ghost use Rattle.st_replies.specs.Results.{result_data};
ghost use Rattle.st_replies.specs.Shown.{json_line, line_data, reply_line, not_built_line, summary_line};

use crate::reply::put_line;
use crate::text::{one_value, text_of};
use st_json::{line_of, new_line};
use st_model::{Given, Reply};
use st_units::{Bytes, ItemList, NoMemory};
use std::alloc::Global;

/// What a script came to.
#[derive(Clone, Copy, Debug, PartialEq, Eq)]
pub struct Summary {
    /// How many lines it has.
    pub lines: u64,
    /// The replies with code 0.
    pub ok: u64,
    /// The other replies.
    pub refused: u64,
    /// The sectors that accepted lines wrote.
    pub written: u64,
    /// The sectors that accepted lines read.
    pub read: u64,
}

fn answer_line(
    alloc: Global,
    code: u64,
    line: u64,
    given: &Option<Given>,
    text: &str,
) -> Result<Bytes, NoMemory>
    ensures { IfOk result (λ bytes. bytes ≡ json_line (line_data code line (result_data given.now) text.now)) }
{
    let mut out = new_line(alloc)?;
    put_line(alloc, &mut out, code, line, given, text)?;
    line_of(out)
}

/// The line that answers the line of this number: compact JSON and LF.
#[tactic(auto, unfolding(crate::specs::Shown::reply_line))]
pub fn reply_line(alloc: Global, line: u64, reply: &Reply) -> Result<Bytes, NoMemory>
    ensures { IfOk result (λ text. text ≡ reply_line line reply.now) }
{
    let text = text_of(alloc, &reply.cause)?;
    answer_line(
        alloc,
        u64::from(reply.code),
        line,
        &reply.result,
        text.as_str(),
    )
}

/// The line that answers a call of this name which isn't built; no reply is made of it.
/// This goes when all calls are built.
#[tactic(auto, unfolding(crate::specs::Shown::not_built_line, crate::specs::Results::result_data))]
pub fn not_built_line(alloc: Global, line: u64, name: &str) -> Result<Bytes, NoMemory>
    ensures { IfOk result (λ text. text ≡ not_built_line line name.now) }
{
    let text = one_value(alloc, "NotBuilt call=", name)?;
    answer_line(alloc, 30, line, &None, text.as_str())
}

/// Puts the label and the number behind it.
fn push_count(alloc: Global, text: &mut String, label: &str, count: u64) -> Result<(), NoMemory>
    ensures { OnOk result (string_bytes text.new ≡ string_bytes text.old ++ label.now ++ decimal count) }
{
    let digits = count.to_string(alloc)?;
    text.push_str(label)?;
    text.push_str(digits.as_str())?;
    Ok(())
}

/// The last line of the answer.
#[tactic(auto, unfolding(crate::specs::Shown::summary_line))]
pub fn summary_line(alloc: Global, sums: &Summary) -> Result<Bytes, NoMemory>
    ensures { IfOk result (λ text. text ≡ summary_line sums.now) }
{
    let mut text = String::new(alloc);
    push_count(alloc, &mut text, "summary lines ", sums.lines)?;
    push_count(alloc, &mut text, " ok ", sums.ok)?;
    push_count(alloc, &mut text, " refused ", sums.refused)?;
    push_count(alloc, &mut text, " written ", sums.written)?;
    push_count(alloc, &mut text, " read ", sums.read)?;
    text.push_str("\n")?;
    Ok(ItemList::of(text.into_bytes()))
}
