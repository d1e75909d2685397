// Names, paths and lists from texts, and what a report shows as a text.
use st_model::{StoppedRow, TableInfo};
use st_units::{DevList, DevPath, DevRow, DevRows, ItemList, Name, NoMemory, Tier};
use std::alloc::Global;
use std::test::Fail;

pub(crate) fn name(alloc: Global, text: &str) -> Result<Name, Fail> {
    Ok(Name::read(alloc, text.as_bytes())?)
}

pub(crate) fn path(alloc: Global, text: &str) -> Result<DevPath, Fail> {
    Ok(DevPath::read(alloc, text.as_bytes())?)
}

fn put<T: Drop>(list: &mut ItemList<T>, item: T) -> Result<(), NoMemory> {
    list.push(item)?;
    Ok(())
}

pub(crate) fn devices(alloc: Global, paths: &[&str]) -> Result<DevList, Fail> {
    let mut list = DevList::make(alloc);
    for text in paths {
        put(&mut list, path(alloc, text)?)?;
    }
    Ok(list)
}

/// Devices with their sectors.
pub(crate) fn rows(alloc: Global, devices: &[(&str, u64)]) -> Result<DevRows, Fail> {
    let mut list = DevRows::make(alloc);
    for (text, sectors) in devices {
        let row = DevRow {
            path: path(alloc, text)?,
            tier: Tier::DataTier,
            sectors: *sectors,
        };
        put(&mut list, row)?;
    }
    Ok(list)
}

/// Puts the paths behind the text, a blank before each.
pub(crate) fn put_words(text: &mut String, list: &DevList) -> Result<(), Fail> {
    for path in list.items() {
        text.push_str(" ")?;
        text.push_str(path.as_str())?;
    }
    Ok(())
}

fn put_stopped(text: &mut String, alloc: Global, row: &StoppedRow) -> Result<(), Fail> {
    let mode = row.mode;
    let stopped = format!(in alloc;
        " stopped {} {} {mode:?}",
        row.name.as_str(),
        row.serial.number()
    )?;
    text.push_str(stopped.as_str())?;
    Ok(())
}

/// The next serial, the free devices, and the name, serial and mode of each stopped pool.
pub(crate) fn shown(alloc: Global, info: &TableInfo) -> Result<String, Fail> {
    let mut text = format!(in alloc; "next {} free", info.next)?;
    put_words(&mut text, &info.free)?;
    for row in info.stopped.items() {
        put_stopped(&mut text, alloc, row)?;
    }
    Ok(text)
}
