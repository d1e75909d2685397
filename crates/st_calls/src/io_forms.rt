ghost use Rattle.std.specs.Prelude.{◌≡◌, option_map, option_copied};
ghost use Rattle.st_calls.specs.inner.View.{view};
ghost use Rattle.st_calls.specs.Gives.{Gives};
ghost use Rattle.st_calls.specs.IoForms.{whole_sectors, hex_payload, as_byte, fill_payload, payload_by, payload_of, fs_write, fs_read};

use crate::fault::LineFault;
use crate::members::number_at;
use crate::pool_forms::{own_name_at, pool_at};
use crate::value::{as_text, get};
use hex::FromHexError;
use json::Value;
use st_limits::SECTOR_BYTES;
use st_model::{Call, Payload};
use st_units::{Bytes, Member};
use std::alloc::Global;

fn whole_sectors(bytes: Bytes) -> Result<Payload, LineFault>
    ensures { Gives (λ payload. payload) result (whole_sectors bytes) }
{
    if bytes.len() as u64 % SECTOR_BYTES == 0 {
        Ok(Payload::Given(bytes))
    } else {
        Err(LineFault::BadCall(Member::Hex))
    }
}

#[tactic(auto, unfolding(crate::specs::IoForms::hex_payload))]
fn hex_payload(alloc: Global, value: &Value<'_>) -> Result<Payload, LineFault>
    ensures { Gives (λ payload. payload) result (hex_payload (view value.now)) }
{
    let Some(text) = as_text(value) else {
        return Err(LineFault::BadCall(Member::Hex));
    };
    match hex::decode(alloc, text) {
        Ok(bytes) => whole_sectors(Bytes::of(bytes)),
        Err(FromHexError::OutOfMemory) => Err(LineFault::OutOfMemory),
        Err(_) => Err(LineFault::BadCall(Member::Hex)),
    }
}

fn as_byte(number: u64) -> Result<u8, LineFault>
    ensures { Gives (λ byte. byte) result (as_byte number) }
{
    if number <= 255 {
        Ok(number as u8)
    } else {
        Err(LineFault::BadCall(Member::Fill))
    }
}

#[tactic(auto, unfolding(crate::specs::IoForms::fill_payload))]
fn fill_payload(value: &Value<'_>) -> Result<Payload, LineFault>
    ensures { Gives (λ payload. payload) result (fill_payload (view value.now)) }
{
    let byte = as_byte(number_at(value, "fill", Member::Fill)?)?;
    let sectors = number_at(value, "sectors", Member::Sectors)?;
    Ok(Payload::Fill(byte, sectors))
}

fn payload_by(
    alloc: Global,
    hex: Option<&Value<'_>>,
    value: &Value<'_>,
) -> Result<Payload, LineFault>
    ensures { Gives (λ payload. payload) result (payload_by (option_map view (option_copied hex.entry)) (view value.now)) }
{
    match hex {
        Some(hex) => hex_payload(alloc, hex),
        None => fill_payload(value),
    }
}

/// The bytes in hex where they are there, else one byte throughout.
#[tactic(auto, unfolding(crate::specs::IoForms::payload_of))]
fn payload_of(alloc: Global, value: &Value<'_>) -> Result<Payload, LineFault>
    ensures { Gives (λ payload. payload) result (payload_of (view value.now)) }
{
    payload_by(alloc, get(value, "hex"), value)
}

#[tactic(auto, unfolding(crate::specs::IoForms::fs_write))]
pub(crate) fn fs_write(alloc: Global, value: &Value<'_>) -> Result<Call, LineFault>
    ensures { Gives (λ call. call) result (fs_write (view value.now)) }
{
    let pool = pool_at(alloc, value)?;
    let name = own_name_at(alloc, value)?;
    let sector = number_at(value, "sector", Member::Sector)?;
    let payload = payload_of(alloc, value)?;
    Ok(Call::FsWrite {
        pool,
        name,
        sector,
        payload,
    })
}

#[tactic(auto, unfolding(crate::specs::IoForms::fs_read))]
pub(crate) fn fs_read(alloc: Global, value: &Value<'_>) -> Result<Call, LineFault>
    ensures { Gives (λ call. call) result (fs_read (view value.now)) }
{
    let pool = pool_at(alloc, value)?;
    let name = own_name_at(alloc, value)?;
    let sector = number_at(value, "sector", Member::Sector)?;
    let sectors = number_at(value, "sectors", Member::Sectors)?;
    Ok(Call::FsRead {
        pool,
        name,
        sector,
        sectors,
    })
}
