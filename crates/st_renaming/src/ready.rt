ghost use Rattle.std.specs.Prelude.{◌≡◌, false, None, IfOk, bytes_eq};
ghost use Rattle.st_model.specs.declared.call.Call.TheVariants.{RenamePool};
ghost use Rattle.st_model.specs.declared.entry.Env.TheVariants as envs;
ghost use Rattle.st_model.specs.Look.{holder};
ghost use Rattle.st_model.specs.Parts.{table_of};
ghost use Rattle.st_model.specs.Step.{step};
ghost use Rattle.st_renaming.specs.inner.Answers.{ChangesNothing};
ghost use Rattle.st_renaming.specs.inner.Ready.{IsFor, IsPlan, TellsDown, TellsRenamed};

use crate::answers::early;
use crate::tables::{holding, renamed};
use st_ghost::Ghost;
use st_model::{Call, EngineState, TableState};
use st_pool::PoolReply;
use st_ran::no_memory;
use st_table::{
    Table, changes_as_the_model, keeps_as_the_model, tells_as_the_model, tells_of_each_pool,
};
use st_units::{Name, NoMemory};
use std::alloc::Global;

/// A table to take the place of the engine's, and what it stands for.
#[derive(Drop)]
pub struct Next {
    pub table: Table,
    pub state: Ghost<TableState>,
}

/// What a rename takes before its pool is asked: the name, and the tables for what it may meet.
#[derive(Drop)]
pub struct Plan {
    pub new: Name,
    /// The pool has the new name.
    pub done: Next,
    /// A device failed: the pool holds the new name besides its own.
    pub down: Next,
}

/// What a rename of a started pool is answered without it, or what it takes.
#[derive(Drop)]
pub enum Ready {
    Answered(PoolReply),
    Planned(Plan),
}

fn asked(name: &Name, new: &Name) -> Ghost<Call>
    ensures { result.value ≡ RenamePool name.now new.now }
{
    Ghost::new(name, new)
}

/// What the table stands for after a call that met nothing.
fn state_done(before: &Ghost<EngineState>, call: &Ghost<Call>) -> Ghost<TableState>
    ensures { result.value ≡ table_of (step before.now.value call.now.value envs.Plain).1 }
{
    Ghost::new(before, call)
}

/// What the table stands for after a call that failed at a write.
fn state_down(before: &Ghost<EngineState>, call: &Ghost<Call>) -> Ghost<TableState>
    ensures { result.value ≡ table_of (step before.now.value call.now.value envs.FaultWrite).1 }
{
    Ghost::new(before, call)
}

/// The table for a rename that is done.
fn next_done(
    alloc: Global,
    table: &Table,
    before: &Ghost<EngineState>,
    name: &Name,
    new: &Name,
) -> Result<Next, NoMemory>
    requires here { IsFor before.now.value table.now name.now }
    requires free { holder new.now before.now.value.pools ≡ None }
    ensures { IfOk result (λ next. TellsRenamed before.now.value name.now new.now next.table next.state.value) }
{
    tells_as_the_model();
    tells_of_each_pool();
    changes_as_the_model();
    keeps_as_the_model();
    let state = state_done(before, &asked(name, new));
    match renamed(alloc, table, name, new) {
        Ok(table) => Ok(Next { table, state }),
        Err(_) => Err(NoMemory),
    }
}

/// The table for a rename that failed at a write.
fn next_down(
    alloc: Global,
    table: &Table,
    before: &Ghost<EngineState>,
    name: &Name,
    new: &Name,
) -> Result<Next, NoMemory>
    requires here { IsFor before.now.value table.now name.now }
    requires free { holder new.now before.now.value.pools ≡ None }
    ensures { IfOk result (λ next. TellsDown before.now.value name.now new.now next.table next.state.value) }
{
    tells_as_the_model();
    tells_of_each_pool();
    changes_as_the_model();
    keeps_as_the_model();
    let state = state_down(before, &asked(name, new));
    match holding(alloc, table, name, new) {
        Ok(table) => Ok(Next { table, state }),
        Err(_) => Err(NoMemory),
    }
}

/// What a rename to another name takes, which no pool holds.
fn planned(
    alloc: Global,
    table: &Table,
    before: &Ghost<EngineState>,
    name: &Name,
    new: &Name,
) -> Result<Plan, NoMemory>
    requires here { IsFor before.now.value table.now name.now }
    requires other { bytes_eq name.now new.now ≡ false }
    requires free { holder new.now before.now.value.pools ≡ None }
    ensures { IfOk result (IsPlan before.now.value name.now new.now) }
{
    let given = new.copy()?;
    let done = next_done(alloc, table, before, name, new)?;
    match next_down(alloc, table, before, name, new) {
        Ok(down) => Ok(Plan {
            new: given,
            done,
            down,
        }),
        Err(_) => Err(NoMemory),
    }
}

/// Makes a rename of a started pool ready.
pub fn make_ready(
    alloc: Global,
    table: &Table,
    before: &Ghost<EngineState>,
    name: &Name,
    new: &Name,
) -> Ready
    requires here { IsFor before.now.value table.now name.now }
    ensures answered { (answer : _) → result ≡ Ready.Answered answer → ChangesNothing before.now.value (RenamePool name.now new.now) answer }
    ensures planned { (plan : _) → result ≡ Ready.Planned plan → IsPlan before.now.value name.now new.now plan }
{
    tells_as_the_model();
    match early(table, name, new) {
        Some(answer) => Ready::Answered(answer),
        None => match planned(alloc, table, before, name, new) {
            Ok(plan) => Ready::Planned(plan),
            Err(_) => Ready::Answered(no_memory()),
        },
    }
}
