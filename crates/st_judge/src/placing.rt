ghost use Rattle.std.specs.Prelude.{◌≡◌, ◌<◌, map, filter, option_copied, IfOk};
ghost use Rattle.std.specs.List.{list_all, list_any};
ghost use Rattle.st_judge.specs.Placing.{has_row, holds, look_at, is_silent, on_rows_alone, row_fits, rows_fit, lacks, missing_of, lacking};

use crate::candidates::{is_of, kept};
use st_looks::DevLook;
use st_units::{Bytes, DevList, DevPath, DevRow, NoMemory, PoolSerial};
use std::alloc::Global;

/// Whether one of the rows has this path.
fn has_row(rows: &[DevRow], path: &DevPath) -> bool
    ensures { result ≡ has_row rows.now path.now }
{
    rows.iter().any(|row| row.path.bytes() == path.bytes())
}

/// Whether no slot of the device is of this pool, whatever its header.
fn is_silent(look: &DevLook, serial: PoolSerial) -> bool
    ensures { result ≡ is_silent serial look.now }
{
    kept(&look.even, serial).is_none() && kept(&look.odd, serial).is_none()
}

/// Whether slots of the pool stand on devices of its rows alone.
pub fn on_rows_alone(looks: &[DevLook], serial: PoolSerial, rows: &[DevRow]) -> bool
    ensures { result ≡ on_rows_alone serial rows.now looks.now }
{
    looks.iter().all(|look| has_row(rows, &look.path) || is_silent(look, serial))
}

/// What the device of this path shows, if it is there.
fn look_at<'a>(looks: &'a [DevLook], path: &DevPath) -> Option<&'a DevLook>
    ensures { option_copied result ≡ look_at looks.now path.now }
{
    looks.iter().find(|look| look.path.bytes() == path.bytes())
}

/// Whether the device of a row has its sectors and a header for the pool, if it is there.
fn row_fits(looks: &[DevLook], serial: PoolSerial, row: &DevRow) -> bool
    ensures { result ≡ row_fits serial looks.now row.now }
{
    match look_at(looks, &row.path) {
        None => true,
        Some(look) => look.sectors == row.sectors && is_of(look, serial),
    }
}

/// Whether each device of the rows that is there is the right one.
pub fn rows_fit(looks: &[DevLook], serial: PoolSerial, rows: &[DevRow]) -> bool
    ensures { result ≡ rows_fit serial looks.now rows.now }
{
    rows.iter().all(|row| row_fits(looks, serial, row))
}

/// The first of the rows whose device isn't there.
pub fn missing<'a>(looks: &[DevLook], rows: &'a [DevRow]) -> Option<&'a DevRow>
    ensures { option_copied result ≡ missing_of looks.now rows.now }
{
    rows.iter().find(|row| look_at(looks, &row.path).is_none())
}

/// Whether the device is one of the rows with a header for the pool, and lacks the record.
fn lacks(look: &DevLook, serial: PoolSerial, rows: &[DevRow], newest: &(u64, Bytes)) -> bool
    ensures { result ≡ lacks serial rows.now newest.now look.now }
{
    is_of(look, serial)
        && has_row(rows, &look.path)
        && !holds(
            if newest.0 % 2 == 0 {
                &look.even
            } else {
                &look.odd
            },
            newest,
        )
}

/// Whether the slot holds this record.
fn holds(slot: &Option<(u64, Bytes)>, newest: &(u64, Bytes)) -> bool
    ensures { result ≡ holds newest.now slot.now }
{
    match slot {
        None => false,
        Some(found) => found.0 == newest.0 && found.1.items() == newest.1.items(),
    }
}

/// The devices of the rows with a header for the pool that lack the record.
pub fn lacking(
    alloc: Global,
    looks: &[DevLook],
    serial: PoolSerial,
    rows: &[DevRow],
    newest: &(u64, Bytes),
) -> Result<DevList, NoMemory>
    ensures { IfOk result (λ devs. devs ≡ lacking serial rows.now newest.now looks.now) }
{
    let mut devs = DevList::make(alloc);
    for i in 0..looks.len() {
        let look = &looks[i];
        if lacks(look, serial, rows, newest) {
            devs.push(look.path.copy()?)?;
        }
    }
    Ok(devs)
}
