ghost use Rattle.std.specs.Prelude.{◌≡◌, ◌≤◌, List, true, Some};
ghost use Rattle.st_units.specs.declared.cause.Cause.TheVariants.{DeviceFault};
ghost use Rattle.st_model.specs.declared.entry.Env.TheVariants.{FaultWrite, Plain};
ghost use Rattle.st_model.specs.declared.reply.Given.TheVariants.{Created};
ghost use Rattle.st_model.specs.declared.state.EngineState.{EngineState};
ghost use Rattle.st_model.specs.Answer.{accepted, refused};
ghost use Rattle.st_model.specs.Look.{Text};
ghost use Rattle.st_table.specs.Stands.{Stands};
ghost use Rattle.st_board.specs.View.{last};
ghost use Rattle.st_founding.specs.Founding.{HasFounded, IsLeft, MayFound, new_table};

use st_board::EngineBoard;
use st_cells::the_table;
use st_ghost::Ghost;
use st_model::{KnownPool, TableState};
use st_pool::{Made, Pool};
use st_rack::Rack;
use st_table::Table;
use st_units::{DevList, Name, PoolSerial};
use std::alloc::Global;

/// What became of a pool that was to be made of free devices, with the board after that.
pub enum Founded<R: Rack> {
    /// It is up.
    Ready(EngineBoard<R>, Pool<R>),
    /// A device failed; the pool is down.
    Broken(EngineBoard<R>, Pool<R>),
    /// Memory was refused. No device was called, and nothing was changed.
    NoMemory(EngineBoard<R>),
}

/// What a table stands for with a new pool of this name on these devices.
fn state_after(was: &Ghost<TableState>, name: &Name, devs: &DevList) -> Ghost<TableState>
    ensures { result.value ≡ new_table name.now devs.now was.now.value }
{
    let named: Ghost<KnownPool> = Ghost::new(was, name);
    let known = on_devices(&named, devs);
    Ghost::new(was, &known)
}

/// A number that a count holds.
fn is_counted(_count: u64)
    ensures { _count ≤ last }
{}

/// The known pool on these devices.
fn on_devices(pool: &Ghost<KnownPool>, devs: &DevList) -> Ghost<KnownPool>
    ensures { result.value ≡ record pool.now.value { devices = devs.now } }
{
    Ghost::new(pool, devs)
}

/// Makes a pool of free devices. `table` is the engine's table with the pool.
pub fn found<R: Rack>(
    alloc: Global,
    name: Name,
    serial: PoolSerial,
    devs: DevList,
    table: Table,
    board: EngineBoard<R>,
) -> Founded<R>
    requires may { (s : EngineState) × (paths : List Text) × MayFound s board.state name paths devs }
    requires serial { serial ≡ board.state.next }
    requires table { Stands table (new_table name devs board.state) }
    ensures ready { (b pool : _) → result ≡ Founded.Ready b pool → (s : EngineState) (paths : List Text) → MayFound s board.state name paths devs
        → HasFounded R.devs R.moment R.state_at R.faults s name paths devs Plain (accepted (Created true (Some (serial, devs)))) board table.spare pool b }
    ensures broken { (b pool : _) → result ≡ Founded.Broken b pool → (s : EngineState) (paths : List Text) → MayFound s board.state name paths devs
        → HasFounded R.devs R.moment R.state_at R.faults s name paths devs FaultWrite (refused DeviceFault) board table.spare pool b }
    ensures refused { (b : _) → result ≡ Founded.NoMemory b → IsLeft R.faults board b }
{
    the_table();
    let EngineBoard {
        table: before,
        mut free,
        halted,
        past,
        state: was,
    } = board;
    is_counted(past);
    let state = state_after(&was, &name, &devs);
    let part = match free.split_off(alloc, &devs) {
        Ok(part) => part,
        Err(_) => {
            return Founded::NoMemory(EngineBoard {
                table: before,
                free,
                halted,
                past,
                state: was,
            });
        }
    };
    match Pool::make(alloc, name, serial, devs, part) {
        Made::Ready(pool) => Founded::Ready(
            EngineBoard {
                table,
                free,
                halted,
                past,
                state,
            },
            pool,
        ),
        Made::Broken(pool) => Founded::Broken(
            EngineBoard {
                table,
                free,
                halted,
                past,
                state,
            },
            pool,
        ),
        Made::NoMemory(part) => {
            free.absorb(part);
            Founded::NoMemory(EngineBoard {
                table: before,
                free,
                halted,
                past,
                state: was,
            })
        }
    }
}
