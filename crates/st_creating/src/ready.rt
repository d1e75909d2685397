ghost use Rattle.std.specs.Prelude.{◌≡◌, IfOk, option_copied, option_map};
ghost use Rattle.st_model.specs.declared.reply.Reply.{Reply};
ghost use Rattle.st_model.specs.Parts as parts;
ghost use Rattle.st_model.specs.Shown.{pool_info};
ghost use Rattle.st_model.specs.Valid.{IsValid};
ghost use Rattle.st_table.specs.Steps.{StandsFor};
ghost use Rattle.st_creating.specs.Plan.{IsReady};
ghost use Rattle.st_creating.specs.Told.{told_answer};

use crate::answer::create_answer;
use crate::laws::answers_as_the_model;
use crate::plan::{Plan, plan_of};
use st_ghost::Ghost;
use st_model::{EngineState, PoolInfo, Reply};
use st_table::Table;
use st_units::{DevList, Name, NoMemory};
use std::alloc::Global;

/// What a CreatePool comes to before a device is called.
#[derive(Drop)]
pub enum Ready {
    /// No pool is made: the answer, and the same once more.
    Answered(Reply, Reply),
    /// A pool is to be made.
    Planned(Plan),
}

/// The answer that makes no pool, where there is one, and the same once more.
fn answer_twice(
    alloc: Global,
    table: &Table,
    own: Option<&PoolInfo>,
    name: &Name,
    devices: &DevList,
) -> Result<Option<(Reply, Reply)>, NoMemory>
    ensures { IfOk result (λ twice. twice ≡ option_map (λ (reply : Reply). (reply, reply)) (told_answer table.now (option_copied own.entry) name.now devices.now)) }
{
    let pools = table.pools();
    let Some(reply) = create_answer(alloc, table, pools, own, name, devices)? else {
        return Ok(None);
    };
    match create_answer(alloc, table, pools, own, name, devices)? {
        Some(twin) => Ok(Some((reply, twin))),
        None => unreachable!(),
    }
}

/// Makes a CreatePool ready in the state `before`, of which the table tells. `own` is shown of the started pool that has the name. No
/// device is called, and nothing is changed.
pub fn make_ready(
    alloc: Global,
    table: &Table,
    own: Option<&PoolInfo>,
    before: &Ghost<EngineState>,
    name: &Name,
    devices: &DevList,
) -> Result<Ready, NoMemory>
    requires valid { IsValid before.now.value }
    requires tells { StandsFor table.now before.now.value }
    requires own { option_copied own ≡ option_map pool_info (parts.own name.now before.now.value) }
    ensures { IfOk result (IsReady before.now.value name.now devices.now) }
{
    answers_as_the_model();
    match answer_twice(alloc, table, own, name, devices)? {
        Some((reply, twin)) => Ok(Ready::Answered(reply, twin)),
        None => Ok(Ready::Planned(plan_of(alloc, table, before, name, devices)?)),
    }
}
