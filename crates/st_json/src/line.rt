ghost use Rattle.std.specs.Prelude.{◌≡◌, [], ◌∷◌, ◌++◌, IfOk};
ghost use Rattle.serde_json.specs.Data.{Data};
ghost use Rattle.serde_json.specs.Written.{compact_text};
ghost use Rattle.st_json.specs.Adds.{data_tokens};

use json::Writer;
use st_units::{Bytes, ItemList, NoMemory};
use std::alloc::Global;

/// The bytes that a line begins with: most lines fit.
const ROOM: usize = 1024;

/// A writer of one line.
pub fn new_line(alloc: Global) -> Result<Writer, NoMemory>
    ensures { IfOk result (λ out. (out.before ≡ []) × (out.tokens ≡ [])) }
{
    Ok(Writer::new(Vec::with_capacity(alloc, ROOM)?))
}

/// The line of the value that was written: its compact JSON and LF.
pub fn line_of(out: Writer) -> Result<Bytes, NoMemory>
    ensures { IfOk result (λ line. (d : Data) → out.before ≡ [] → out.tokens ≡ data_tokens d → line ≡ compact_text d ++ 10 ∷ []) }
{
    let mut bytes = out.into_inner();
    bytes.push(b'\n')?;
    Ok(ItemList::of(bytes))
}
