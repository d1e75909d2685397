ghost use Rattle.std.specs.Prelude.{◌≡◌, ◌≤◌, IfOk};
ghost use Rattle.st_model.specs.InPlace.{sectors_in};
ghost use Rattle.st_model.specs.steps.FsWrite.{bytes_in};

use st_limits::SECTOR_BYTES;
use st_model::Payload;
use st_units::{Bytes, NoMemory};
use std::alloc::Global;

/// The sectors of a payload, which are whole.
pub(crate) fn sectors_in(payload: &Payload) -> u64
    ensures { result ≡ sectors_in payload.now }
{
    match payload {
        Payload::Fill(_, sectors) => *sectors,
        Payload::Given(bytes) => bytes.len() as u64 / SECTOR_BYTES,
    }
}

/// The bytes of a payload.
pub(crate) fn bytes_in(alloc: Global, payload: &Payload) -> Result<Bytes, NoMemory>
    requires { sectors_in payload.now ≤ 128 }
    ensures { IfOk result (λ bytes. bytes ≡ bytes_in payload.now) }
{
    match payload {
        Payload::Fill(byte, sectors) => {
            let len = (SECTOR_BYTES * *sectors) as usize;
            Ok(Bytes::of(vec![in alloc; *byte; len]?))
        }
        Payload::Given(bytes) => Bytes::copy_of(alloc, bytes.items()),
    }
}
