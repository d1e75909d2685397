ghost use Rattle.std.specs.Prelude.{◌≡◌, IfOk, option_copied};
ghost use Rattle.st_model.specs.declared.state.EngineState.{EngineState};
ghost use Rattle.st_model.specs.Valid.{IsValid};
ghost use Rattle.st_table.specs.Steps.{StandsFor};
ghost use Rattle.st_table.specs.Table.{halted_at, named};
ghost use Rattle.st_meant.specs.Meant.{IsMeant, by_info, by_mode, name_meant, serial_in};

use st_limits::MAX_POOL_SERIAL;
use st_model::PoolId;
use st_table::{HaltedMode, Table, tells_of_each_pool};
use st_units::{DevPath, Name, NoMemory, PoolSerial};

/// How the pool that a start means stands.
#[derive(Drop)]
pub enum Meant {
    /// No known pool is meant.
    Unknown,
    /// It is started.
    Started(Name),
    /// It lacks this device.
    Lacking(DevPath),
    /// It can be started.
    Halted(Name),
}

/// A pool's UUID has the serial in its upper half and this in its lower one.
const POOL_KIND: u128 = 0x0100_0000_0000_0000;

/// The number above the lower half of a UUID.
const LOWER_HALF: u128 = 0x1_0000_0000_0000_0000;

fn serial_in(uuid: u128) -> Option<PoolSerial>
    ensures { result ≡ serial_in uuid }
{
    let serial = uuid / LOWER_HALF;
    if uuid % LOWER_HALF == POOL_KIND && 1 <= serial && serial <= MAX_POOL_SERIAL as u128 {
        Some(PoolSerial::of(serial as u64))
    } else {
        None
    }
}

fn named(table: &Table, serial: PoolSerial) -> Result<Option<Name>, NoMemory>
    ensures { IfOk result (λ name. name ≡ named serial table.now.pools) }
{
    match table.named(serial) {
        Some(name) => Ok(Some(name.copy()?)),
        None => Ok(None),
    }
}

fn name_meant(table: &Table, id: &PoolId) -> Result<Option<Name>, NoMemory>
    ensures { IfOk result (λ name. name ≡ name_meant id.now table.now.pools) }
{
    match id {
        PoolId::ByName(name) => {
            if table.is_known(name) {
                Ok(Some(name.copy()?))
            } else {
                Ok(None)
            }
        }
        PoolId::ByUuid(uuid) => match serial_in(*uuid) {
            Some(serial) => named(table, serial),
            None => Ok(None),
        },
    }
}

fn by_mode(name: Name, mode: &HaltedMode) -> Result<Meant, NoMemory>
    ensures { IfOk result (λ m. m ≡ by_mode name mode.now) }
{
    match mode {
        HaltedMode::Incomplete(path) => Ok(Meant::Lacking(path.copy()?)),
        HaltedMode::Stopped => Ok(Meant::Halted(name)),
        HaltedMode::Unsettled => Ok(Meant::Halted(name)),
    }
}

fn by_info(table: &Table, name: Name) -> Result<Meant, NoMemory>
    ensures { IfOk result (λ m. m ≡ by_info name (halted_at name table.now.pools)) }
{
    match table.halted(&name) {
        Some(info) => by_mode(name, &info.mode),
        None => Ok(Meant::Started(name)),
    }
}

/// How the pool that is meant stands, as the table tells it.
pub fn pool_meant(table: &Table, id: &PoolId) -> Result<Meant, NoMemory>
    ensures { IfOk result (λ m. (s : EngineState) → IsValid s → StandsFor table.now s → IsMeant s id.now m) }
{
    tells_of_each_pool();
    match name_meant(table, id)? {
        Some(name) => by_info(table, name),
        None => Ok(Meant::Unknown),
    }
}
