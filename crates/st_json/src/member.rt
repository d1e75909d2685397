ghost use Rattle.std.specs.Prelude.{OnOk};
ghost use Rattle.serde_json.specs.Data.{boolean, number, string, unsigned};
ghost use Rattle.st_json.specs.Adds.{AddsMember};

use crate::put::{put_bool, put_count, put_key, put_name, put_text};
use json::Writer;
use st_units::{Name, NoMemory};

/// A member that is a string.
#[inline]
pub fn text_member(out: &mut Writer, key: &str, text: &str) -> Result<(), NoMemory>
    ensures { OnOk result (AddsMember out.old out.new key.now (string text.now)) }
{
    put_key(out, key)?;
    put_text(out, text)?;
    Ok(())
}

/// A member that is a name.
#[inline]
pub fn name_member(out: &mut Writer, key: &str, name: &Name) -> Result<(), NoMemory>
    ensures { OnOk result (AddsMember out.old out.new key.now (string name.now)) }
{
    put_key(out, key)?;
    put_name(out, name)?;
    Ok(())
}

/// A member that is a number.
#[inline]
pub fn count_member(out: &mut Writer, key: &str, count: u64) -> Result<(), NoMemory>
    ensures { OnOk result (AddsMember out.old out.new key.now (number (unsigned count))) }
{
    put_key(out, key)?;
    put_count(out, count)?;
    Ok(())
}

/// A member that is true or false.
#[inline]
pub fn bool_member(out: &mut Writer, key: &str, value: bool) -> Result<(), NoMemory>
    ensures { OnOk result (AddsMember out.old out.new key.now (boolean value)) }
{
    put_key(out, key)?;
    put_bool(out, value)?;
    Ok(())
}
