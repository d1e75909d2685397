ghost use Rattle.std.specs.Prelude.{ℕ, ◌≡◌, take, OnOk, OnErr};
ghost use Rattle.std.specs.Io.KnownBytes.{Appends};
ghost use Rattle.st_units.specs.Causes.{HasCause};

use crate::stream::{Failed, Sink};

/// Writes all of the bytes, in as many puts as the sink needs; after a failure a prefix of them.
pub fn put_all<K: Sink>(sink: &mut K, bytes: &[u8]) -> Result<(), Failed>
    ensures ok { OnOk result (Appends (K.held sink.old) (K.held sink.new) bytes.now) }
    ensures err { OnErr result ((n : ℕ) × Appends (K.held sink.old) (K.held sink.new) (take n bytes.now)) }
    ensures cause { HasCause (K.faults sink.old) (K.faults sink.new) result }
{
    let mut done = 0;
    while done < bytes.len() {
        let count = sink.put(&bytes[done..])?;
        if count == 0 {
            return Err(Failed);
        }
        done += count;
    }
    Ok(())
}
