// The same bytes as a commit's, hashed and copied and nothing else.
ghost use Rattle.std.specs.Prelude.{◌≡◌, ◌+◌, ◌≤◌, ◌^◌, length};

use st_fields::{put, seal};

/// The bytes of a head, before its seal.
const FIELDS: [u8; 32] = [1; 32];

/// Hashes the body, and copies it behind 64 bytes of a head into the text.
fn sealed(text: &mut [u8], body: &[u8])
    requires { 64 + length body.now ≤ length text.old }
    ensures { length text.new ≡ length text.old }
{
    put(text, 0, &FIELDS);
    put(text, 32, &seal(&FIELDS, body));
    put(text, 64, body);
}

/// The bytes between the first bytes of two devices in the block.
const DEVICE: usize = 4_194_304;

/// Copies the text to this place of the block, or nowhere if it doesn't fit.
fn copy_to(block: &mut [u8], at: usize, text: &[u8])
    ensures { length block.new ≡ length block.old }
{
    if at <= block.len() && text.len() <= block.len() - at {
        block[at..at + text.len()].copy_from_slice(text);
    }
}

/// What so many commits hash and copy: a log's text each time, to the next place behind 128 KiB of the block, and a record's text to a
/// place of each device. Those that don't fit are made, but copied nowhere.
pub fn hash_and_copy(
    block: &mut [u8],
    devices: usize,
    body: &[u8],
    rec: &[u8],
    log_text: &mut [u8],
    text: &mut [u8],
    times: u64,
) {
    if log_text.len() < 64 || body.len() > log_text.len() - 64 {
        return;
    }
    if text.len() < 64 || rec.len() > text.len() - 64 {
        return;
    }
    let mut at = 131_072;
    for _ in 0..times {
        sealed(log_text, body);
        if block.len() < log_text.len() || at > block.len() - log_text.len() {
            at = 131_072;
        }
        copy_to(block, at, log_text);
        at = at.saturating_add(log_text.len());
        sealed(text, rec);
        for i in 0..devices {
            copy_to(block, DEVICE.saturating_mul(i), text);
        }
    }
}
