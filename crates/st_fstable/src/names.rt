ghost use Rattle.std.specs.Prelude.{◌≡◌, ◌<◌, ◌≤◌, length, map, filter, find, insert, remove, slice_index_or, not, bytes_eq, true, false, Some, IfOk, IfErr, vec_len, vec_capacity};
ghost use Rattle.std.specs.List.{list_any};
ghost use Rattle.st_order.specs.Sorted.{IsRising, entered, ordered};
ghost use Rattle.st_fstable.specs.Rows.{AreRows, is_there, without};
ghost use Rattle.st_fstable.specs.inner.ByName.{IsIndexed, name_at, name_of, serial_in};

use crate::rows::{place_of, search_serial};
use st_units::FsRow;

/// The name of the filesystem of this serial.
fn name_at<'a>(rows: &'a [FsRow], serial: u64) -> &'a [u8]
    requires { AreRows rows.now }
    ensures { result.now ≡ name_at rows.now serial }
{
    match search_serial(rows, serial) {
        Ok(i) => rows[i].name.bytes(),
        Err(_) => &[],
    }
}

/// The place of a name among the serials, by halving; or else the place where the serial of one belongs.
pub(crate) fn search_name(rows: &[FsRow], names: &[u64], name: &[u8]) -> Result<usize, usize>
    requires rows { AreRows rows.now }
    requires rising { IsRising (map (name_at rows.now) names.now) }
    ensures within { IfOk result (λ i. i < length names.now) }
    ensures found { IfOk result (λ i. (d : _) → find (λ serial. bytes_eq (name_at rows.now serial) name.now) names.now ≡ Some (slice_index_or names.now i d)) }
    ensures others { IfOk result (λ i. remove names.now i ≡ filter (λ serial. not (bytes_eq (name_at rows.now serial) name.now)) names.now) }
    ensures before { IfErr result (λ i. i ≤ length names.now) }
    ensures absent { IfErr result (λ _. list_any (λ serial. bytes_eq (name_at rows.now serial) name.now) names.now ≡ false) }
    ensures place { IfErr result (λ i. (serial : _) → name_at rows.now serial ≡ name.now → insert names.now i serial ≡ entered (name_at rows.now) serial names.now) }
{
    names.binary_search_by(|serial| name_at(rows, *serial).cmp(name))
}

/// Takes the serial of a filesystem out.
pub(crate) fn leave(rows: &[FsRow], names: &mut Vec<u64>, serial: u64)
    requires indexed { IsIndexed rows.now names.old.items }
    requires there { is_there serial rows.now ≡ true }
    ensures others { names.new.items ≡ map serial_in (ordered name_of (without serial rows.now)) }
    ensures room { vec_len names.new < vec_capacity names.new }
{
    let i = place_of(rows, serial);
    match search_name(rows, names, rows[i].name.bytes()) {
        Ok(place) => {
            names.remove(place);
        }
        Err(_) => unreachable!(),
    }
}

/// Puts the serial of a filesystem in, into the room that is there.
pub(crate) fn enter(rows: &[FsRow], names: &mut Vec<u64>, serial: u64)
    requires rows { AreRows rows.now }
    requires there { is_there serial rows.now ≡ true }
    requires others { names.old.items ≡ map serial_in (ordered name_of (without serial rows.now)) }
    requires room { vec_len names.old < vec_capacity names.old }
    ensures { IsIndexed rows.now names.new.items }
{
    let i = place_of(rows, serial);
    match search_name(rows, names, rows[i].name.bytes()) {
        Ok(_) => unreachable!(),
        Err(place) => match names.insert(place, serial) {
            Ok(()) => {}
            Err(_) => unreachable!(),
        },
    }
}
