ghost use Rattle.std.specs.Prelude.{◌≡◌, [], IfOk};
ghost use Rattle.st_model.specs.declared.call.Call.TheVariants.{EngineStateReport};
ghost use Rattle.st_model.specs.declared.entry.Env.TheVariants.{Plain};
ghost use Rattle.st_model.specs.declared.state.EngineState.{EngineState};
ghost use Rattle.st_model.specs.Parts.{table_of, shown_table};
ghost use Rattle.st_model.specs.Step.{step};
ghost use Rattle.st_model.specs.Valid.{IsValid};
ghost use Rattle.st_model.specs.Pieces.{ShowPools, every};
ghost use Rattle.st_plain.specs.Reported.{entered};

use st_model::{Given, Infos, PoolInfo, Reply, TableInfo, insert_info};
use st_units::{NoMemory, RoomyList, Shared};
use std::alloc::Global;

/// Answers EngineStateReport from what is shown of the table and of each started pool, in any
/// order.
pub fn report(
    alloc: Global,
    table: Shared<TableInfo>,
    infos: RoomyList<Shared<PoolInfo>>,
) -> Result<Reply, NoMemory>
    ensures { IfOk result (λ reply. (s : EngineState) → IsValid s → table ≡ shown_table (table_of s) → ShowPools every s infos.items → reply ≡ (step s EngineStateReport Plain).0) }
{
    let list = in_order(alloc, infos)?;
    Ok(Reply::accepted(Given::Engine(table, list)))
}

/// The infos in byte order of their names.
fn in_order(alloc: Global, infos: RoomyList<Shared<PoolInfo>>) -> Result<Infos<PoolInfo>, NoMemory>
    ensures { IfOk result (λ list. list ≡ entered [] infos.items) }
{
    let mut infos = infos;
    let mut list: Infos<PoolInfo> = Infos::make(alloc);
    while infos.len() > 0 {
        insert_info(&mut list, infos.take_at(0))?;
    }
    Ok(list)
}
