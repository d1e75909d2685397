ghost use Rattle.std.specs.Prelude.{◌≡◌, ◌+◌, ◌≤◌, ◌++◌, length, take, true, false, Err, IfOk};
ghost use Rattle.st_units.specs.Text.{is_name, is_path};
ghost use Rattle.st_recrows.specs.Texts.{filled, text_in};
ghost use Rattle.st_recrows.specs.declared.fault.RecFault.TheVariants.{NotARecord};

use crate::fault::RecFault;
use st_fields::put;
use st_units::{DevPath, Name, NameFault, PathFault};
use std::alloc::Global;

/// How many bytes the field of a text has.
pub const TEXT_ROOM: usize = 64;

/// Puts the text into the field from `at` on, filled with zero bytes.
pub fn put_text(bytes: &mut [u8], at: usize, text: &[u8])
    requires room { at + 64 ≤ length bytes.old }
    requires short { length text.now ≤ 64 }
    ensures front { take (at + 64) bytes.new ≡ take at bytes.old ++ filled text.now }
    ensures len { length bytes.new ≡ length bytes.old }
{
    let zeros = [0; TEXT_ROOM];
    put(bytes, at, text);
    put(bytes, at + text.len(), &zeros[text.len()..]);
}

/// The text of so many bytes in the field from `at` on; no more than the field has.
pub fn text_at(bytes: &[u8], at: usize, count: u16) -> &[u8]
    requires { at + 64 ≤ length bytes.now }
    ensures { result.now ≡ text_in count at bytes.now }
{
    let count = usize::from(count).min(TEXT_ROOM);
    &bytes[at..at + count]
}

/// The name that these bytes spell.
pub fn name_of(alloc: Global, text: &[u8]) -> Result<Name, RecFault>
    ensures ok { IfOk result (λ name. (is_name text.now ≡ true) × (name ≡ text.now)) }
    ensures bad { result ≡ Err NotARecord → is_name text.now ≡ false }
{
    match Name::read(alloc, text) {
        Ok(name) => Ok(name),
        Err(NameFault::BadName) => Err(RecFault::NotARecord),
        Err(NameFault::OutOfMemory) => Err(RecFault::OutOfMemory),
    }
}

/// The path that these bytes spell.
pub fn path_of(alloc: Global, text: &[u8]) -> Result<DevPath, RecFault>
    ensures ok { IfOk result (λ path. (is_path text.now ≡ true) × (path ≡ text.now)) }
    ensures bad { result ≡ Err NotARecord → is_path text.now ≡ false }
{
    match DevPath::read(alloc, text) {
        Ok(path) => Ok(path),
        Err(PathFault::BadPath) => Err(RecFault::NotARecord),
        Err(PathFault::OutOfMemory) => Err(RecFault::OutOfMemory),
    }
}
