ghost use Rattle.std.specs.Prelude.{◌≡◌, ◌<◌, ◌++◌, ◌↔◌, ℕ, List, length, IsTrue, OnOk};
ghost use Rattle.st_recrows.specs.Rows.{Reads, ReadsFields, Spells, AllFit, rows_text};

use crate::fault::RecFault;
use st_units::{ItemList, NoMemory};
use std::alloc::Global;

/// A part of a record's body that has a fixed width: a head or a row.
pub trait Row: Sized {
    /// How many bytes it has.
    const WIDTH: usize;

    ghost WIDTH: { ℕ };

    /// Which values have a spelling.
    ghost fits: { Self → Type 0 };

    /// What a value needs for that, beside what its type tells.
    ghost needs: { Self → Type 0 };

    /// The one spelling of a value.
    ghost text: { Self → List ℕ };

    /// What stands in the fields of these bytes.
    ghost fields: { List ℕ → Self };

    /// Puts the spelling at the end.
    fn put(&self, out: &mut Vec<u8>) -> Result<(), NoMemory>
        requires { needs self.now }
        ensures fits { fits self.now }
        ensures ok { OnOk result (out.new.items ≡ out.old.items ++ text self.now) };

    /// What stands in the fields. It isn't tested that nothing else stands there.
    fn read_fields(alloc: Global, bytes: &[u8]) -> Result<Self, RecFault>
        requires { length bytes.now ≡ WIDTH }
        ensures { ReadsFields fits (fields bytes.now) result };

    /// Whether the bytes are the spelling of this value.
    fn is_spelled(&self, bytes: &[u8]) -> bool
        ensures { IsTrue result ↔ (bytes.now ≡ text self.now) };

    ghost is_positive: { 0 < WIDTH };

    ghost has_width: { (row : Self) → fits row → length (text row) ≡ WIDTH };

    ghost reads_back: { (row : Self) → fits row → fields (text row) ≡ row };
}

/// Puts the spellings of the rows at the end, in order.
pub fn put_rows<R: Row>(out: &mut Vec<u8>, rows: &[R]) -> Result<(), NoMemory>
    requires { AllFit R.needs rows.now }
    ensures fit { OnOk result (AllFit R.fits rows.now) }
    ensures ok { OnOk result (out.new.items ≡ out.old.items ++ rows_text R.text rows.now) }
{
    for row in rows {
        row.put(out)?;
    }
    Ok(())
}

/// The value whose spelling the bytes are.
pub fn read_row<R: Row + Drop>(alloc: Global, bytes: &[u8]) -> Result<R, RecFault>
    requires { length bytes.now ≡ R.WIDTH }
    ensures { Reads (Spells R.fits R.text bytes.now) result }
{
    match R::read_fields(alloc, bytes) {
        Err(fault) => Err(fault),
        Ok(row) => {
            if row.is_spelled(bytes) {
                Ok(row)
            } else {
                Err(RecFault::NotARecord)
            }
        }
    }
}

/// The rows whose spellings the bytes are, all of the bytes. Memory is taken for rows that are there.
pub fn read_rows<R: Row + Drop>(alloc: Global, bytes: &[u8]) -> Result<ItemList<R>, RecFault>
    ensures { Reads (Spells (AllFit R.fits) (rows_text R.text) bytes.now) result }
{
    let mut rows = ItemList::make(alloc);
    let mut rest = bytes;
    while !rest.is_empty() {
        if rest.len() < R::WIDTH {
            return Err(RecFault::NotARecord);
        }
        let (front, after) = rest.split_at(R::WIDTH);
        match read_row(alloc, front) {
            Ok(row) => rows.push(row)?,
            Err(fault) => return Err(fault),
        }
        rest = after;
    }
    Ok(rows)
}
