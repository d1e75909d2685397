ghost use Rattle.std.specs.Prelude.{◌≡◌, ◌++◌, Some, IfOk, option_map, string_bytes, decimal};
ghost use Rattle.st_status.specs.Told.{exit_of, limit_text, line_of};

use crate::status::Status;
use st_lines::Limit;
use st_units::NoMemory;
use std::alloc::Global;

/// The exit status of the program.
pub fn exit_status(status: &Status) -> u8
    ensures { result ≡ exit_of status.now }
{
    match status {
        Status::Done => 0,
        Status::Usage => 2,
        Status::ReadFault => 3,
        Status::WriteFault => 4,
        Status::OutOfMemory => 5,
        Status::InputLimit(_) => 6,
        Status::OpenFault => 7,
        Status::Foreign(_) => 8,
    }
}

/// The line to standard error, none where the run is done.
pub fn status_line(alloc: Global, status: &Status) -> Result<Option<String>, NoMemory>
    ensures { IfOk result (λ line. option_map string_bytes line ≡ line_of status.now) }
{
    let line = match status {
        Status::Done => return Ok(None),
        Status::Usage => fixed(
            alloc,
            "usage: stratis_sim MODE [--lanes N] [--trace] [--recover] [--number N]",
        )?,
        Status::ReadFault => fixed(alloc, "read fault")?,
        Status::WriteFault => fixed(alloc, "write fault")?,
        Status::OutOfMemory => fixed(alloc, "out of memory")?,
        Status::InputLimit(limit) => limit_line(alloc, *limit)?,
        Status::OpenFault => fixed(alloc, "open fault")?,
        Status::Foreign(serial) => numbered(alloc, "foreign pool ", serial.number())?,
    };
    Ok(Some(line))
}

fn limit_line(alloc: Global, limit: Limit) -> Result<String, NoMemory>
    ensures { IfOk result (λ line. string_bytes line ≡ limit_text limit) }
{
    match limit {
        Limit::Bytes => fixed(alloc, "input limit: bytes"),
        Limit::Lines => fixed(alloc, "input limit: lines"),
        Limit::Line(number) => numbered(alloc, "input limit: line ", number),
    }
}

fn fixed(alloc: Global, text: &str) -> Result<String, NoMemory>
    ensures { IfOk result (λ line. string_bytes line ≡ text.now) }
{
    let line = String::from_str(alloc, text)?;
    Ok(line)
}

/// The label, and the number in decimal digits.
fn numbered(alloc: Global, label: &str, number: u64) -> Result<String, NoMemory>
    ensures { IfOk result (λ line. string_bytes line ≡ label.now ++ decimal number) }
{
    let mut line = String::from_str(alloc, label)?;
    let digits = number.to_string(alloc)?;
    line.push_str(digits.as_str())?;
    Ok(line)
}
