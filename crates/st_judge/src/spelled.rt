ghost use Rattle.std.specs.Prelude.{◌≡◌, ◌↔◌, IsTrue, IfOk, option_copied};
ghost use Rattle.st_judge.specs.Spelled.{HasRecord, IsReadAs, IsSpelled, HasSpelled, AreSpelled};

use crate::candidates::{even_of, odd_of};
use st_looks::DevLook;
use st_poolrec::{PoolRec, decode};
use st_recrows::RecFault;
use st_units::{Bytes, NoMemory, PoolSerial};
use std::alloc::Global;

/// Whether the body of each candidate of the pool is a record.
pub fn are_records(alloc: Global, looks: &[DevLook], serial: PoolSerial) -> Result<bool, NoMemory>
    ensures { IfOk result (λ all. IsTrue all ↔ AreSpelled serial looks.now) }
{
    for i in 0..looks.len() {
        let both = has_records(alloc, &looks[i], serial)?;
        if !both {
            return Ok(false);
        }
    }
    Ok(true)
}

/// Whether the bodies of a device's candidates are records.
fn has_records(alloc: Global, look: &DevLook, serial: PoolSerial) -> Result<bool, NoMemory>
    ensures { IfOk result (λ both. IsTrue both ↔ HasSpelled serial look.now) }
{
    Ok(is_record(alloc, even_of(look, serial))? && is_record(alloc, odd_of(look, serial))?)
}

/// Whether the body is a record, if there is one.
fn is_record(alloc: Global, found: Option<&(u64, Bytes)>) -> Result<bool, NoMemory>
    ensures { IfOk result (λ is. IsTrue is ↔ IsSpelled (option_copied found.entry)) }
{
    match found {
        None => Ok(true),
        Some(found) => has_record(alloc, found.1.items()),
    }
}

/// Whether the bytes are a record.
#[tactic(auto, using(crate::proofs::Reading::has_one, crate::proofs::Reading::has_none))]
fn has_record(alloc: Global, body: &[u8]) -> Result<bool, NoMemory>
    ensures { IfOk result (λ is. IsTrue is ↔ HasRecord body.now) }
{
    match record_in(alloc, body)? {
        None => Ok(false),
        Some(_) => Ok(true),
    }
}

/// The record that the bytes are, if they are one.
#[tactic(auto, using(crate::proofs::Reading::is_read, crate::proofs::Reading::is_none))]
pub fn record_in(alloc: Global, body: &[u8]) -> Result<Option<PoolRec>, NoMemory>
    ensures { IfOk result (IsReadAs body.now) }
{
    match decode(alloc, body) {
        Err(RecFault::NotARecord) => Ok(None),
        Err(RecFault::OutOfMemory) => Err(NoMemory),
        Ok(rec) => Ok(Some(rec)),
    }
}
