// A room of bytes. Those behind its end count as zeros.
ghost use Rattle.std.specs.Prelude.{◌≡◌, ◌+◌, ◌≤◌, ◌++◌, ℕ, get_or, length, replicate, take, vec_len, vec_capacity};
ghost use Rattle.st_rack.specs.Story.{put_in};

use st_fields::put;

/// Puts bytes over others.
pub fn overwrite(room: &mut Vec<u8>, at: usize, bytes: &[u8])
    requires { at + length bytes.now ≤ vec_len room.old }
    ensures items { (i : ℕ) → get_or room.new.items i 0 ≡ put_in at bytes.now (λ j. get_or room.old.items j 0) i }
    ensures len { vec_len room.new ≡ vec_len room.old }
    ensures capacity { vec_capacity room.old ≤ vec_capacity room.new }
{
    put(room, at, bytes);
}

/// Zeros up to that length, for which there is room.
pub fn zeros_to(room: &mut Vec<u8>, len: usize)
    requires longer { vec_len room.old ≤ len }
    requires fits { len ≤ vec_capacity room.old }
    ensures items { (i : ℕ) → get_or room.new.items i 0 ≡ get_or room.old.items i 0 }
    ensures len { vec_len room.new ≡ len }
    ensures capacity { vec_capacity room.old ≤ vec_capacity room.new }
{
    match room.resize(len, 0) {
        Ok(()) => {}
        Err(_) => unreachable!(),
    }
}

/// Appends bytes, for which there is room.
pub fn append(room: &mut Vec<u8>, bytes: &[u8])
    requires { vec_len room.old + length bytes.now ≤ vec_capacity room.old }
    ensures items { (i : ℕ) → get_or room.new.items i 0 ≡ put_in (vec_len room.old) bytes.now (λ j. get_or room.old.items j 0) i }
    ensures len { vec_len room.new ≡ vec_len room.old + length bytes.now }
    ensures capacity { vec_capacity room.old ≤ vec_capacity room.new }
{
    match room.extend_from_slice(bytes) {
        Ok(()) => {}
        Err(_) => unreachable!(),
    }
}

/// Zeros in place of so many bytes.
pub fn clear(bytes: &mut [u8], at: usize, len: usize)
    requires { at + len ≤ length bytes.old }
    ensures front { take (at + len) bytes.new ≡ take at bytes.old ++ replicate len 0 }
    ensures len { length bytes.new ≡ length bytes.old }
{
    bytes[at..at + len].fill(0);
}
