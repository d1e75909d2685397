// Calls, and what they are answered, in few words.
ghost use Rattle.std.specs.Prelude.{◌≡◌, true, IfOk};
ghost use Rattle.st_running.specs.Calls.{runs};

use st_model::{Call, Given, Identity, Infos, PoolId, PoolInfo, Reply, ShownMode, TableInfo};
use st_units::{DevList, DevPath, Name, NoMemory};
use std::alloc::Global;
use std::test::Fail;

/// A call, in the order of its arguments.
#[derive(Clone, Copy, Debug)]
pub enum Line<'a> {
    Create(&'a str, &'a [&'a str]),
    Rename(&'a str, &'a str),
    Stop(&'a str),
    Start(&'a str),
    Destroy(&'a str),
    Report,
}

fn put_path(devices: &mut DevList, path: DevPath) -> Result<(), NoMemory> {
    devices.push(path)?;
    Ok(())
}

fn paths(alloc: Global, texts: &[&str]) -> Result<DevList, Fail> {
    let mut devices = DevList::make(alloc);
    for text in texts {
        put_path(&mut devices, DevPath::read(alloc, text.as_bytes())?)?;
    }
    Ok(devices)
}

fn name(alloc: Global, text: &str) -> Result<Name, Fail> {
    Ok(Name::read(alloc, text.as_bytes())?)
}

pub fn call_of(alloc: Global, line: &Line) -> Result<Call, Fail>
    ensures { IfOk result (λ call. runs call ≡ true) }
{
    match line {
        Line::Create(pool, devices) => {
            let (name, devices) = (name(alloc, pool)?, paths(alloc, devices)?);
            Ok(Call::CreatePool { name, devices })
        }
        Line::Rename(pool, new) => {
            let (name, new) = (name(alloc, pool)?, name(alloc, new)?);
            Ok(Call::RenamePool { name, new })
        }
        Line::Stop(pool) => Ok(Call::StopPool {
            name: name(alloc, pool)?,
        }),
        Line::Start(pool) => Ok(Call::StartPool {
            id: PoolId::ByName(name(alloc, pool)?),
        }),
        Line::Destroy(pool) => Ok(Call::DestroyPool {
            name: name(alloc, pool)?,
        }),
        Line::Report => Ok(Call::EngineStateReport),
    }
}

fn mode_word(mode: ShownMode) -> &'static str {
    match mode {
        ShownMode::Up => "up",
        ShownMode::Down => "down",
        ShownMode::Stopped => "stopped",
        ShownMode::Unsettled => "unsettled",
        ShownMode::Incomplete => "incomplete",
    }
}

/// As "free /dev/sim2; next 3; 1 tank up; 2 pond stopped;", the started pools first.
fn put_report(
    alloc: Global,
    out: &mut String,
    table: &TableInfo,
    infos: &Infos<PoolInfo>,
) -> Result<(), Fail> {
    out.push_str("free")?;
    for path in table.free.items() {
        let path = path.as_str();
        out.push_str(format!(in alloc; " {path}")?.as_str())?;
    }
    let next = table.next;
    out.push_str(format!(in alloc; "; next {next};")?.as_str())?;
    for info in infos.items() {
        let info = info.value();
        let (serial, name, mode) = (
            info.serial.number(),
            info.name.as_str(),
            mode_word(info.mode),
        );
        out.push_str(format!(in alloc; " {serial} {name} {mode};")?.as_str())?;
    }
    for row in table.stopped.items() {
        let (serial, name, mode) = (row.serial.number(), row.name.as_str(), mode_word(row.mode));
        out.push_str(format!(in alloc; " {serial} {name} {mode};")?.as_str())?;
    }
    Ok(())
}

/// As "made 1 on 2", "changed 1", "unchanged", "refused 27", or a report; and a full stop.
pub fn put_reply(alloc: Global, out: &mut String, reply: &Reply) -> Result<(), Fail> {
    match &reply.result {
        Some(Given::Created(true, Some((serial, devices)))) => {
            let (serial, count) = (serial.number(), devices.len());
            out.push_str(format!(in alloc; "made {serial} on {count}")?.as_str())?;
        }
        Some(Given::Changed(true, Some(Identity::Pool(serial)))) => {
            let serial = serial.number();
            out.push_str(format!(in alloc; "changed {serial}")?.as_str())?;
        }
        Some(Given::Created(false, None)) => out.push_str("unchanged")?,
        Some(Given::Changed(false, None)) => out.push_str("unchanged")?,
        Some(Given::Engine(table, infos)) => put_report(alloc, out, table.value(), infos)?,
        _ => out.push_str("refused")?,
    }
    if reply.code > 0 {
        let code = reply.code;
        out.push_str(format!(in alloc; " {code}")?.as_str())?;
    }
    Ok(out.push_str(". ")?)
}
