ghost use Rattle.std.specs.Prelude.{◌≡◌, map, OnOk};
ghost use Rattle.serde_json.specs.Data.{array};
ghost use Rattle.serde_json.specs.View.{items_of};
ghost use Rattle.st_model.specs.Shown.{place_among_stopped};
ghost use Rattle.st_json.specs.Adds.{AddsData, AddsItems};
ghost use Rattle.st_report.specs.Engine.{mode_text, pool_row, stopped_row, pool_rows, engine_data};

use crate::identity::put_uuid;
use crate::values::put_paths;
use json::Writer;
use st_json::{
    close_list, close_object, count_member, name_member, open_list, open_object, put_key,
    text_member,
};
use st_model::{Identity, PoolInfo, ShownMode, StoppedRow, TableInfo};
use st_units::{Name, NoMemory, PoolSerial, Shared};

fn mode_text(mode: ShownMode) -> &'static str
    ensures { result.now ≡ mode_text mode }
{
    match mode {
        ShownMode::Up => "up",
        ShownMode::Down => "down",
        ShownMode::Stopped => "stopped",
        ShownMode::Unsettled => "unsettled",
        ShownMode::Incomplete => "incomplete",
    }
}

#[tactic(auto, unfolding(crate::specs::Engine::pool_row))]
fn put_row(
    out: &mut Writer,
    mode: ShownMode,
    name: &Name,
    serial: PoolSerial,
) -> Result<(), NoMemory>
    ensures { OnOk result (AddsData out.old out.new (pool_row mode name.now serial)) }
{
    open_object(out)?;
    text_member(out, "mode", mode_text(mode))?;
    name_member(out, "name", name)?;
    put_key(out, "uuid")?;
    put_uuid(out, Identity::Pool(serial))?;
    close_object(out)?;
    Ok(())
}

/// How many rows at the front have a lower name.
fn place_among(rows: &[StoppedRow], name: &Name) -> usize
    ensures { result ≡ place_among_stopped rows.now name.now }
{
    rows.iter()
        .take_while(|row| row.name.bytes().cmp(name.bytes()).is_lt())
        .count()
}

fn put_stopped(out: &mut Writer, rows: &[StoppedRow]) -> Result<(), NoMemory>
    ensures { OnOk result (AddsItems out.old out.new (map stopped_row rows.now)) }
{
    for row in rows {
        put_row(out, row.mode, &row.name, row.serial)?;
    }
    Ok(())
}

/// Started and stopped pools together, merged by their names.
#[tactic(auto, unfolding(crate::specs::Engine::pool_rows))]
fn put_rows(
    out: &mut Writer,
    infos: &[Shared<PoolInfo>],
    stopped: &[StoppedRow],
) -> Result<(), NoMemory>
    ensures { OnOk result (AddsItems out.old out.new (pool_rows infos.now stopped.now)) }
{
    let mut rest = stopped;
    for info in infos {
        let info = info.value();
        let (lower, higher) = rest.split_at(place_among(rest, &info.name));
        put_stopped(out, lower)?;
        put_row(out, info.mode, &info.name, info.serial)?;
        rest = higher;
    }
    put_stopped(out, rest)?;
    Ok(())
}

fn put_row_list(
    out: &mut Writer,
    infos: &[Shared<PoolInfo>],
    stopped: &[StoppedRow],
) -> Result<(), NoMemory>
    ensures { OnOk result (AddsData out.old out.new (array (items_of (pool_rows infos.now stopped.now)))) }
{
    open_list(out)?;
    put_rows(out, infos, stopped)?;
    close_list(out)?;
    Ok(())
}

/// The report of the engine.
#[tactic(auto, unfolding(crate::specs::Engine::engine_data))]
pub fn put_engine(
    out: &mut Writer,
    table: &TableInfo,
    infos: &[Shared<PoolInfo>],
) -> Result<(), NoMemory>
    ensures { OnOk result (AddsData out.old out.new (engine_data table.now infos.now)) }
{
    open_object(out)?;
    put_key(out, "free_devices")?;
    put_paths(out, table.free.items())?;
    count_member(out, "next_serial", table.next)?;
    put_key(out, "pools")?;
    put_row_list(out, infos, table.stopped.items())?;
    close_object(out)?;
    Ok(())
}
