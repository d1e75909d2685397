ghost use Rattle.std.specs.Prelude.{◌≡◌, true, Some, IfOk};
ghost use Rattle.st_judge.specs.Candidates.{newest_among};
ghost use Rattle.st_judge.specs.Placing.{on_rows_alone};
ghost use Rattle.st_judge.specs.Verdicts.{IsSaid, row_of};
ghost use Rattle.st_judge.specs.inner.Sound.{IsSound};

use crate::candidates::{are_one, newest_among};
use crate::placing::{lacking, missing, on_rows_alone, rows_fit};
use crate::rows::{FoundRow, GoneRow};
use crate::spelled::{are_records, record_in};
use st_looks::DevLook;
use st_poolrec::PoolRec;
use st_units::{Bytes, DevPath, NoMemory, PoolSerial};
use std::alloc::Global;

/// What devices say of one pool.
#[derive(Drop)]
pub enum Verdict {
    /// No device has a candidate: there is no pool.
    Nothing,
    /// The newest record says that the pool is gone.
    Gone(GoneRow),
    /// The pool is known, and lacks a device.
    Lacking(FoundRow),
    /// The pool is known with this generation and record, and all its devices are there; its log is still to be read.
    Here(u64, PoolRec),
    /// One of its rules is broken.
    Breaks,
}

/// What the devices that were looked at say of a pool.
///
/// Rules that can be broken: two candidates of one generation with different bodies; a candidate that is no record; a slot of the pool on
/// a device that is in no row of its newest; and of a pool that is known a device of a row with other sectors, or with a header that isn't
/// the pool's.
pub fn judge(alloc: Global, looks: &[DevLook], serial: PoolSerial) -> Result<Verdict, NoMemory>
    ensures { IfOk result (IsSaid serial looks.now) }
{
    match newest_among(looks, serial) {
        None => Ok(Verdict::Nothing),
        Some(newest) => judge_newest(alloc, looks, serial, newest),
    }
}

/// What they say, if this is the newest candidate.
fn judge_newest(
    alloc: Global,
    looks: &[DevLook],
    serial: PoolSerial,
    newest: &(u64, Bytes),
) -> Result<Verdict, NoMemory>
    requires { newest_among serial looks.now ≡ Some newest.now }
    ensures { IfOk result (IsSaid serial looks.now) }
{
    if !are_one(looks, serial) {
        return Ok(Verdict::Breaks);
    }
    let spelled = are_records(alloc, looks, serial)?;
    if !spelled {
        return Ok(Verdict::Breaks);
    }
    let read = record_in(alloc, newest.1.items())?;
    match read {
        None => Ok(Verdict::Breaks),
        Some(rec) => judge_record(alloc, looks, serial, newest, rec),
    }
}

/// What they say, if this is the newest record, and all candidates are sound.
fn judge_record(
    alloc: Global,
    looks: &[DevLook],
    serial: PoolSerial,
    newest: &(u64, Bytes),
    rec: PoolRec,
) -> Result<Verdict, NoMemory>
    requires { IsSound serial looks.now newest.now rec }
    ensures { IfOk result (IsSaid serial looks.now) }
{
    if !on_rows_alone(looks, serial, rec.devs.items()) {
        return Ok(Verdict::Breaks);
    }
    if rec.gone {
        return gone_row(alloc, looks, serial, newest, &rec);
    }
    if !rows_fit(looks, serial, rec.devs.items()) {
        return Ok(Verdict::Breaks);
    }
    match missing(looks, rec.devs.items()) {
        None => Ok(Verdict::Here(newest.0, rec)),
        Some(row) => {
            let path = row.path.copy()?;
            Ok(Verdict::Lacking(lacking_row(alloc, serial, &rec, path)?))
        }
    }
}

/// The row of a pool that lacks this device.
fn lacking_row(
    alloc: Global,
    serial: PoolSerial,
    rec: &PoolRec,
    path: DevPath,
) -> Result<FoundRow, NoMemory>
    requires { rec.now.serial ≡ serial }
    ensures { IfOk result (λ row. row ≡ row_of rec.now (Some path)) }
{
    Ok(FoundRow {
        serial,
        name: rec.name.copy()?,
        devs: rec.devs.copy(alloc)?,
        missing: Some(path),
    })
}

/// The verdict on a pool that is gone.
fn gone_row(
    alloc: Global,
    looks: &[DevLook],
    serial: PoolSerial,
    newest: &(u64, Bytes),
    rec: &PoolRec,
) -> Result<Verdict, NoMemory>
    requires sound { IsSound serial looks.now newest.now rec.now }
    requires alone { on_rows_alone serial rec.now.devs looks.now ≡ true }
    requires gone { rec.now.gone ≡ true }
    ensures { IfOk result (IsSaid serial looks.now) }
{
    let devs = lacking(alloc, looks, serial, rec.devs.items(), newest)?;
    Ok(Verdict::Gone(GoneRow {
        serial,
        generation: newest.0,
        rec: Bytes::copy_of(alloc, newest.1.items())?,
        devs,
    }))
}
