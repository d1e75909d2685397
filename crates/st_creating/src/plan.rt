ghost use Rattle.std.specs.Prelude.{◌≡◌, IfOk, None, Some, true, false};
ghost use Rattle.std.specs.List.{AllByRecursion};
ghost use Rattle.st_model.specs.declared.reply.Given.TheVariants.{Created};
ghost use Rattle.st_model.specs.Answer.{accepted};
ghost use Rattle.st_model.specs.Valid.{IsValid};
ghost use Rattle.st_model.specs.steps.CreatePool.{create_answer};
ghost use Rattle.st_table.specs.Steps.{StandsFor};
ghost use Rattle.st_table.specs.Table.{IsFree, changed, has_serial, is_taken, new_pool, next_above, with_pool};
ghost use Rattle.st_creating.specs.Plan.{IsPlan};

use crate::laws::answers_as_the_model;
use st_ghost::Ghost;
use st_model::{EngineState, Given, Reply, look};
use st_table::{Table, changes_as_the_model, keeps_as_the_model, tells_as_the_model};
use st_units::{DevList, Name, NoMemory, PoolSerial};
use std::alloc::Global;

/// What a new pool takes before its first device call.
#[derive(Drop)]
pub struct Plan {
    pub name: Name,
    pub serial: PoolSerial,
    pub devs: DevList,
    /// The table with the pool, and an info of it.
    pub table: Table,
    pub reply: Reply,
    /// The same reply once more.
    pub twin: Reply,
}

/// The answer where the pool is made.
fn made(alloc: Global, serial: PoolSerial, devs: &DevList) -> Result<Reply, NoMemory>
    ensures { IfOk result (λ reply. reply ≡ accepted (Created true (Some (serial, devs.now)))) }
{
    let list = devs.copy(alloc)?;
    Ok(Reply::accepted(Given::Created(true, Some((serial, list)))))
}

/// The table with the pool, and an info of it.
fn table_with(
    alloc: Global,
    table: &Table,
    name: &Name,
    serial: PoolSerial,
    devs: &DevList,
) -> Result<Table, NoMemory>
    requires name { is_taken name.now table.now.pools ≡ false }
    requires serial { has_serial serial table.now.pools ≡ false }
    requires free { AllByRecursion (IsFree table.now.pools table.now.devices) devs.now }
    ensures { IfOk result (λ other. other ≡ record (changed table.now (with_pool (new_pool name.now serial devs.now) table.now.pools)) { next = next_above serial table.now.next; spare = true }) }
{
    let name = name.copy()?;
    let list = devs.copy(alloc)?;
    let mut other = table.copy(alloc)?;
    other.prepare(alloc)?;
    other.add(name, serial, list);
    other.refresh(alloc)?;
    Ok(other)
}

/// Plans the pool that nothing is against.
pub(crate) fn plan_of(
    alloc: Global,
    table: &Table,
    before: &Ghost<EngineState>,
    name: &Name,
    devices: &DevList,
) -> Result<Plan, NoMemory>
    requires valid { IsValid before.now.value }
    requires tells { StandsFor table.now before.now.value }
    requires unanswered { create_answer before.now.value name.now devices.now ≡ None }
    ensures { IfOk result (IsPlan before.now.value name.now devices.now) }
{
    answers_as_the_model();
    tells_as_the_model();
    changes_as_the_model();
    keeps_as_the_model();
    let devs = look::distinct(alloc, devices.items())?;
    let serial = PoolSerial::of(table.next_serial());
    let reply = made(alloc, serial, &devs)?;
    let twin = made(alloc, serial, &devs)?;
    let table = table_with(alloc, table, name, serial, &devs)?;
    let name = name.copy()?;
    Ok(Plan {
        name,
        serial,
        devs,
        table,
        reply,
        twin,
    })
}
