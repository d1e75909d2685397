ghost use Rattle.std.specs.Prelude.{◌≡◌, true, false, IfOk, IfSome, IfNone};
ghost use Rattle.std.specs.List.{list_all};
ghost use Rattle.st_units.specs.Text.{is_graphic, is_path};

use crate::memory::NoMemory;
use std::alloc::Global;
use std::marker::Model;
use std::str;
use thiserror::Error;

/// Why bytes gave no path.
#[derive(Debug, Drop, Error)]
pub enum PathFault {
    #[error("not a path of a device: 2 to 64 graphic bytes, a slash first")]
    BadPath,
    #[error("out of memory")]
    OutOfMemory,
}

/// The path of a device: 2 to 64 bytes from 0x21 to 0x7E, a slash first.
#[derive(Drop)]
pub struct DevPath {
    text: String,
}

impl Model for DevPath {
    ghost use Rattle.std.specs.Prelude.{ℕ, List, ◌≡◌, true, string_bytes};
    ghost use Rattle.st_units.specs.Text.{is_path};

    ghost Value = { List ℕ };

    ghost view = { λ n. string_bytes n.text };

    ghost invariant = { λ n. is_path (string_bytes n.text) ≡ true };
}

impl DevPath {
    /// The path that these bytes spell. `BadPath` comes exactly where they are outside the limits.
    pub fn read(alloc: Global, bytes: &[u8]) -> Result<DevPath, PathFault>
        ensures ok { IfOk result (λ n. (is_path bytes.now ≡ true) × (n ≡ bytes.now)) }
        ensures bad { result ≡ Err PathFault.BadPath → is_path bytes.now ≡ false }
    {
        let Some(text) = path_text(bytes) else {
            return Err(PathFault::BadPath);
        };
        match String::from_str(alloc, text) {
            Ok(text) => Ok(DevPath { text }),
            Err(_) => Err(PathFault::OutOfMemory),
        }
    }

    /// The bytes of the path.
    pub fn bytes(&self) -> &[u8]
        ensures value { result.now ≡ self.now }
        ensures is_path { is_path self.now ≡ true }
    {
        self.text.as_bytes()
    }

    /// The path as a text.
    pub fn as_str(&self) -> &str
        ensures { result.now ≡ self.now }
    {
        self.text.as_str()
    }

    /// The same path once more.
    pub fn copy(&self) -> Result<DevPath, NoMemory>
        ensures { IfOk result (λ n. n ≡ self.now) }
    {
        let text = self.text.clone()?;
        Ok(DevPath { text })
    }
}

fn is_path_code(b: u8) -> bool
    ensures { result ≡ is_graphic b }
{
    b >= 0x21 && b <= 0x7e
}

fn all_path_codes(bytes: &[u8]) -> bool
    ensures { result ≡ list_all is_graphic bytes.now }
{
    bytes.iter().all(|b| is_path_code(*b))
}

fn is_path_text(bytes: &[u8]) -> bool
    ensures { result ≡ is_path bytes.now }
{
    2 <= bytes.len() && bytes.len() <= 64 && bytes[0] == b'/' && all_path_codes(bytes)
}

fn path_text(bytes: &[u8]) -> Option<&str>
    ensures some { IfSome result (λ text. (text.now ≡ bytes.now) × (is_path bytes.now ≡ true)) }
    ensures none { IfNone result (is_path bytes.now ≡ false) }
{
    if !is_path_text(bytes) {
        return None;
    }
    match str::from_utf8(bytes) {
        Ok(text) => Some(text),
        Err(_) => unreachable!(),
    }
}
