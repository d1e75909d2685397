// The records that a commit writes, both ways: the largest, the least, and malformed neighbours.
mod deltas;
mod flex;
mod pool;

use st_fields::put;
use st_units::{ItemList, NoMemory};
use std::alloc::Global;
use std::test::Fail;

/// What stands where in a record that is changed in one field: the row's name, the place of the field, its width, the new number,
/// and whether the bytes are still a record.
pub type Change = (&'static str, usize, usize, u64, bool);

/// The bytes with this number in the field of so many bytes at this place.
pub fn changed(
    alloc: Global,
    bytes: &[u8],
    at: usize,
    width: usize,
    number: u64,
) -> Result<Vec<u8>, Fail> {
    let mut copy = bytes.to_vec(alloc)?;
    if width > 8 || copy.len() < width || at > copy.len() - width {
        return Err("no such field".into());
    }
    let field = number.to_be_bytes();
    put(&mut copy, at, &field[8 - width..]);
    Ok(copy)
}

/// Puts the item last.
pub fn put_last<T: Drop>(list: &mut ItemList<T>, item: T) -> Result<(), NoMemory> {
    match list.push(item) {
        Ok(()) => Ok(()),
        Err((_, refused)) => Err(refused),
    }
}
