// What was found, in words.
use st_assemble::{Found, FoundFault};
use st_judge::{FoundRow, GoneRow};
use std::alloc::Global;
use std::str;
use std::test::Fail;

/// As "1 p, 2 q without /dev/sim3; gone 3 at 4 on /dev/sim1; next 5", or "foreign 2".
pub fn said(alloc: Global, found: Result<Found, FoundFault>) -> Result<String, Fail> {
    match found {
        Ok(found) => said_found(alloc, &found),
        Err(FoundFault::Foreign(serial)) => { Ok(format!(in alloc; "foreign {serial}")?) }
        Err(FoundFault::Fault) => Ok(format!(in alloc; "fault")?),
        Err(FoundFault::OutOfMemory) => Err("no memory".into()),
    }
}

fn said_found(alloc: Global, found: &Found) -> Result<String, Fail> {
    let mut out = String::new(alloc);
    for row in found.pools.items() {
        put_pool(alloc, &mut out, row)?;
    }
    for row in found.gone.items() {
        put_gone(alloc, &mut out, row)?;
    }
    let next = found.next;
    out.push_str(format!(in alloc; "next {next}")?.as_str())?;
    Ok(out)
}

fn text(bytes: &[u8]) -> Result<&str, Fail> {
    match str::from_utf8(bytes) {
        Ok(text) => Ok(text),
        Err(_) => Err("no text".into()),
    }
}

fn put_pool(alloc: Global, out: &mut String, row: &FoundRow) -> Result<(), Fail> {
    let (serial, name) = (row.serial.number(), text(row.name.bytes())?);
    let devs = row.devs.len();
    out.push_str(format!(in alloc; "{serial} {name} of {devs}")?.as_str())?;
    if let Some(path) = &row.missing {
        out.push_str(" without ")?;
        out.push_str(text(path.bytes())?)?;
    }
    out.push_str("; ")?;
    Ok(())
}

fn put_gone(alloc: Global, out: &mut String, row: &GoneRow) -> Result<(), Fail> {
    let (serial, generation) = (row.serial.number(), row.generation);
    let bytes = row.rec.len();
    out.push_str(format!(in alloc; "gone {serial} at {generation}, {bytes} bytes")?.as_str())?;
    for path in row.devs.items() {
        out.push_str(" on ")?;
        out.push_str(text(path.bytes())?)?;
    }
    out.push_str("; ")?;
    Ok(())
}
