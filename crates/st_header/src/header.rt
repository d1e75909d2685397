ghost use Rattle.std.specs.Prelude.{◌≡◌, ℕ, length, take, MatchOption};
ghost use Rattle.st_header.specs.Header.{header_text, copy_of, header_of, IsHeader};

use st_fields::{put, put_u64, seal, u64_at};
use st_limits::MIN_DEVICE_SECTORS;
use st_units::PoolSerial;

const MAGIC: [u8; 8] = *b"STRSHDR1";

/// A copy of the header: one sector, with the pool's serial and the device's sectors.
pub fn header_bytes(serial: PoolSerial, sectors: u64) -> [u8; 512]
    ensures { result ≡ header_text serial sectors }
{
    let mut bytes = [0; 512];
    put(&mut bytes, 0, &MAGIC);
    put_u64(&mut bytes, 8, serial.number());
    put_u64(&mut bytes, 16, sectors);
    put(&mut bytes, 24, &[0; 456]);
    let sealed = seal(&bytes[..480], &[]);
    put(&mut bytes, 480, &sealed);
    bytes
}

/// The serial in the header of a device of so many sectors, whose first 16 sectors are `area`.
///
/// `None` exactly where there is no header.
pub fn read_header(area: &[u8], sectors: u64) -> Option<PoolSerial>
    requires { length area.now ≡ 8192 }
    ensures value { result ≡ header_of sectors area.now }
    ensures grammar { MatchOption result ((n : ℕ) → ¬ IsHeader sectors area.now n) (IsHeader sectors area.now) }
{
    if sectors < MIN_DEVICE_SECTORS {
        return None;
    }
    match read_copy(&area[512..1_024], sectors) {
        Some(serial) => Some(serial),
        None => read_copy(&area[4_608..5_120], sectors),
    }
}

/// The serial in one copy, if that is valid. What is read is spelled again and compared.
fn read_copy(bytes: &[u8], sectors: u64) -> Option<PoolSerial>
    requires { length bytes.now ≡ 512 }
    ensures { result ≡ copy_of sectors bytes.now }
{
    let serial = u64_at(bytes, 8);
    if serial == 0 || serial > PoolSerial::LAST {
        return None;
    }
    let serial = PoolSerial::of(serial);
    if bytes == header_bytes(serial, sectors).as_slice() {
        Some(serial)
    } else {
        None
    }
}
