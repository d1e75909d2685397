ghost use Rattle.std.specs.Prelude.{◌≡◌, ◌⊎◌, false, IfOk};
ghost use Rattle.st_wants.specs.declared.want.Want.TheVariants.{All};
ghost use Rattle.st_wants.specs.declared.want.Mode.TheVariants.{Read};
ghost use Rattle.st_model.specs.declared.call.Call.TheVariants.{EngineStateReport};
ghost use Rattle.st_model.specs.declared.entry.Env.TheVariants.{Plain};
ghost use Rattle.st_model.specs.Parts.{shown_table, table_of};
ghost use Rattle.st_model.specs.Pieces.{ShowPools, every};
ghost use Rattle.st_model.specs.Step.{step};
ghost use Rattle.st_model.specs.Valid.{IsValid};
ghost use Rattle.st_book.specs.Stands.{PartShows};
ghost use Rattle.st_running.specs.Part.{IsReport};

use st_book::InfoList;
use st_ghost::Ghost;
use st_model::{EngineState, PoolInfo, Reply, TableInfo};
use st_plain::report;
use st_pool::PoolReply;
use st_ran::{no_memory, plainly};
use st_units::{NoMemory, Shared};
use std::alloc::Global;

/// The same infos once more.
fn copies(alloc: Global, infos: &[Shared<PoolInfo>]) -> Result<InfoList<PoolInfo>, NoMemory>
    ensures { IfOk result (λ list. list.items ≡ infos.now) }
{
    let mut list = InfoList::with_room(alloc, infos.len())?;
    for info in infos {
        list.put(info.copy()?);
    }
    Ok(list)
}

/// The report of what is shown, and the same once more.
fn report_twice(
    alloc: Global,
    table: Shared<TableInfo>,
    infos: InfoList<PoolInfo>,
    before: &Ghost<EngineState>,
) -> Result<(Reply, Reply), NoMemory>
    requires valid { IsValid before.now.value }
    requires table { table ≡ shown_table (table_of before.now.value) }
    requires infos { ShowPools every before.now.value infos.items }
    ensures { IfOk result (λ two. (two.0 ≡ (step before.now.value EngineStateReport Plain).0) × (two.1 ≡ (step before.now.value EngineStateReport Plain).0)) }
{
    let _ = before;
    let again = copies(alloc, infos.items())?;
    let twin = report(alloc, table.copy()?, again)?;
    let reply = report(alloc, table, infos)?;
    Ok((reply, twin))
}

/// Answers EngineStateReport, where something is shown.
pub(crate) fn answer_report(
    alloc: Global,
    table_info: Option<Shared<TableInfo>>,
    infos: InfoList<PoolInfo>,
    short: bool,
    before: &Ghost<EngineState>,
) -> PoolReply
    requires valid { IsValid before.now.value }
    requires shows { short ≡ false → PartShows (All Read) before.now.value infos.items table_info }
    ensures { IsReport before.now.value result }
{
    if short {
        return no_memory();
    }
    let Some(table) = table_info else {
        unreachable!()
    };
    match report_twice(alloc, table, infos, before) {
        Ok((reply, twin)) => plainly(reply, twin),
        Err(_) => no_memory(),
    }
}
