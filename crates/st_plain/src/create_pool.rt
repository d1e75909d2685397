ghost use Rattle.std.specs.Prelude.{◌≡◌, ◌≤◌, ◌<◌, ◌+◌, ◌^◌, ◌∷◌, ◌++◌, [], true, length, None, Some, IfOk, OnOk, OnErr, option_copied, find, bytes_eq};
ghost use Rattle.std.specs.List.{AllByRecursion};
ghost use Rattle.st_units.specs.declared.rows.DevRow.{DevRow};
ghost use Rattle.st_model.specs.declared.call.Call.TheVariants.{CreatePool};
ghost use Rattle.st_model.specs.declared.state.EngineState.{EngineState};
ghost use Rattle.st_model.specs.Look.{distinct};
ghost use Rattle.st_model.specs.OnTable.{with_known};
ghost use Rattle.st_model.specs.Parts.{pool_at};
ghost use Rattle.st_model.specs.Sums.{AreSmall};
ghost use Rattle.st_model.specs.steps.CreatePool.{data_rows};
ghost use Rattle.st_model.specs.Valid.{IsValid};
ghost use Rattle.st_plain.specs.Created.{known_made, reply_made, cell_made, table_made};
ghost use Rattle.st_plain.specs.Parts.{PartIs, IsAnswered};
ghost use Rattle.st_plain.specs.Views.{CellView, pools_of};

use crate::cell::PlainCell;
use crate::known::{create_answer, made_pool};
use crate::table::PlainTable;
use st_model::{Given, KnownPool, PoolState, Reply, TableState, look};
use st_units::{DevList, Name, NoMemory, PoolSerial, RoomyList};
use std::alloc::Global;

/// Runs CreatePool on a part that has every cell and the table. A refusal for want of memory
/// changes nothing.
pub fn create(
    alloc: Global,
    cells: &mut RoomyList<PlainCell>,
    table: &mut PlainTable,
    name: &Name,
    devices: &DevList,
) -> Result<Reply, NoMemory>
    requires next { 1 ≤ table.old.state.next }
    requires rack { AllByRecursion (λ (row : DevRow). row.sectors ≤ 2 ^ 32) table.old.state.devices }
    ensures answered { IfOk result (λ reply. (s : EngineState) → IsValid s → PartIs s (pools_of cells.old.items) table.old.state → IsAnswered s (CreatePool name.now devices.now) reply cells.new.items table.new) }
    ensures few { IfOk result (λ _. (s : EngineState) → IsValid s → PartIs s (pools_of cells.old.items) table.old.state → length cells.new.items ≤ 16) }
    ensures places { length cells.old.items + cells.old.room ≤ length cells.new.items + cells.new.room }
    ensures cells_kept { OnErr result (cells.new.items ≡ cells.old.items) }
    ensures table_kept { OnErr result (table.new ≡ table.old) }
{
    let own = own_pool(cells.items(), name);
    match create_answer(alloc, table.state(), own, name, devices)? {
        Some(reply) => Ok(reply),
        None => {
            let made = make(alloc, cells, table, name, devices)?;
            Ok(made)
        }
    }
}

fn cell_of<'a>(cells: &'a [PlainCell], name: &Name) -> Option<&'a PlainCell>
    ensures { option_copied result ≡ find (λ (c : CellView). bytes_eq c.pool.name name.now) cells.now }
{
    cells
        .iter()
        .find(|cell| cell.pool().name.bytes() == name.bytes())
}

/// The pool that has the name.
fn own_pool<'a>(cells: &'a [PlainCell], name: &Name) -> Option<&'a PoolState>
    ensures { option_copied result ≡ pool_at name.now (pools_of cells.now) }
{
    match cell_of(cells, name) {
        Some(cell) => Some(cell.pool()),
        None => None,
    }
}

/// What the table tells of a new pool on these paths.
#[tactic(auto, unfolding(crate::specs::Created::known_made))]
fn new_known(
    alloc: Global,
    table: &TableState,
    name: &Name,
    devices: &DevList,
) -> Result<KnownPool, NoMemory>
    requires first { 1 ≤ table.now.next }
    requires last { table.now.next ≤ 2 ^ 48 }
    ensures { IfOk result (λ known. known ≡ known_made table.now name.now devices.now) }
{
    let devices = look::distinct(alloc, devices.items())?;
    Ok(KnownPool {
        name: name.copy()?,
        serial: PoolSerial::of(table.next),
        new: None,
        devices,
    })
}

/// The new pool's cell.
#[tactic(auto, unfolding(crate::specs::Created::pool_made))]
fn new_cell(
    alloc: Global,
    table: &TableState,
    name: &Name,
    devices: &DevList,
) -> Result<PlainCell, NoMemory>
    requires first { 1 ≤ table.now.next }
    requires last { table.now.next ≤ 2 ^ 48 }
    requires small { AreSmall (data_rows table.now.devices (distinct devices.now)) }
    ensures { IfOk result (λ cell. cell ≡ cell_made table.now name.now devices.now) }
{
    let paths = look::distinct(alloc, devices.items())?;
    let pool = made_pool(alloc, table, name, &paths)?;
    PlainCell::with_spare(alloc, pool)
}

/// The answer where the pool is made.
#[tactic(auto, unfolding(crate::specs::Created::reply_made))]
fn new_reply(alloc: Global, table: &TableState, devices: &DevList) -> Result<Reply, NoMemory>
    requires first { 1 ≤ table.now.next }
    requires last { table.now.next ≤ 2 ^ 48 }
    ensures { IfOk result (λ reply. reply ≡ reply_made table.now devices.now) }
{
    let paths = look::distinct(alloc, devices.items())?;
    let serial = PoolSerial::of(table.next);
    Ok(Reply::accepted(Given::Created(true, Some((serial, paths)))))
}

/// Enters the new pool into the table, and puts its cell into the room that was made. A refusal
/// changes nothing.
fn enter(
    alloc: Global,
    cells: &mut RoomyList<PlainCell>,
    table: &mut PlainTable,
    cell: PlainCell,
    known: KnownPool,
) -> Result<(), NoMemory>
    requires next { table.old.state.next ≤ 2 ^ 48 }
    requires room { 0 < cells.old.room }
    ensures cells { OnOk result (cells.new.items ≡ cells.old.items ++ cell ∷ []) }
    ensures table { OnOk result (table.new ≡ record { state = with_known table.old.state known; spare = true }) }
    ensures places { length cells.old.items + cells.old.room ≤ length cells.new.items + cells.new.room }
    ensures cells_kept { OnErr result (cells.new.items ≡ cells.old.items) }
    ensures table_kept { OnErr result (table.new ≡ table.old) }
{
    match table.enter(alloc, known) {
        Ok(()) => {
            cells.put(cell);
            Ok(())
        }
        Err(refused) => Err(refused),
    }
}

/// Makes the pool, which nothing is against.
fn make(
    alloc: Global,
    cells: &mut RoomyList<PlainCell>,
    table: &mut PlainTable,
    name: &Name,
    devices: &DevList,
) -> Result<Reply, NoMemory>
    requires first { 1 ≤ table.old.state.next }
    requires last { table.old.state.next ≤ 2 ^ 48 }
    requires small { AreSmall (data_rows table.old.state.devices (distinct devices.now)) }
    ensures reply { IfOk result (λ reply. reply ≡ reply_made table.old.state devices.now) }
    ensures cells { IfOk result (λ _. cells.new.items ≡ cells.old.items ++ cell_made table.old.state name.now devices.now ∷ []) }
    ensures table { IfOk result (λ _. table.new ≡ table_made table.old.state name.now devices.now) }
    ensures places { length cells.old.items + cells.old.room ≤ length cells.new.items + cells.new.room }
    ensures cells_kept { OnErr result (cells.new.items ≡ cells.old.items) }
    ensures table_kept { OnErr result (table.new ≡ table.old) }
{
    cells.reserve(1)?;
    let reply = new_reply(alloc, table.state(), devices)?;
    let known = new_known(alloc, table.state(), name, devices)?;
    let cell = new_cell(alloc, table.state(), name, devices)?;
    enter(alloc, cells, table, cell, known)?;
    Ok(reply)
}
