// Plain copies of the same bytes: into a block, and out of it.
ghost use Rattle.std.specs.Prelude.{◌≡◌, ◌≤◌, length};

/// Copies the bytes in so often.
pub fn copy_in(block: &mut [u8], bytes: &[u8], times: u64)
    requires { length bytes.now ≤ length block.old }
    ensures { length block.new ≡ length block.old }
{
    let mut at = 0;
    for _ in 0..times {
        if block.len() - at < bytes.len() {
            at = 0;
        }
        block[at..at + bytes.len()].copy_from_slice(bytes);
        at += bytes.len();
    }
}

/// Copies so many bytes out so often.
pub fn copy_out(block: &[u8], buf: &mut [u8], times: u64)
    requires { length buf.old ≤ length block.now }
    ensures { length buf.new ≡ length buf.old }
{
    let mut at = 0;
    for _ in 0..times {
        if block.len() - at < buf.len() {
            at = 0;
        }
        buf.copy_from_slice(&block[at..at + buf.len()]);
        at += buf.len();
    }
}
