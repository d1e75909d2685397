// Pools spelled byte by byte.
use crate::site::put;
use raw_records::{Flex, Rec, flex_body, header, pool_body, sealed};
use st_memrack::MemRack;
use std::alloc::Global;
use std::test::Fail;

/// Pool 1, p, on the first device.
pub const P: Rec = Rec {
    serial: 1,
    flags: 6,
    name: "p",
    devs: &["/dev/sim0"],
    blocks: 32,
    longer: false,
};

/// A log that says nothing.
const BARE: Flex = Flex {
    serial: 1,
    version: 2,
    place: None,
    longer: false,
};

/// A header for the pool of a record.
pub fn put_header(alloc: Global, rack: &mut MemRack, path: &str, serial: u64) -> Result<(), Fail> {
    let text = header(alloc, serial, 8_192)?;
    put(alloc, rack, path, 1, text.as_slice())?;
    put(alloc, rack, path, 9, text.as_slice())
}

/// A record of this generation.
pub fn put_record(
    alloc: Global,
    rack: &mut MemRack,
    path: &str,
    generation: u64,
    rec: &Rec,
) -> Result<(), Fail> {
    let body = pool_body(alloc, rec)?;
    let text = sealed(alloc, "STRSPOL1", generation, body.as_slice())?;
    put(
        alloc,
        rack,
        path,
        16 + 64 * (generation % 2),
        text.as_slice(),
    )
}

/// A log of this generation.
fn put_log(
    alloc: Global,
    rack: &mut MemRack,
    path: &str,
    generation: u64,
    serial: u64,
) -> Result<(), Fail> {
    let body = flex_body(alloc, &Flex { serial, ..BARE })?;
    let text = sealed(alloc, "STRSFLX1", generation, body.as_slice())?;
    put(
        alloc,
        rack,
        path,
        256 + 1_664 * (generation % 2),
        text.as_slice(),
    )
}

/// A pool of this generation on one device.
pub fn put_pool(
    alloc: Global,
    rack: &mut MemRack,
    path: &str,
    generation: u64,
    rec: &Rec,
) -> Result<(), Fail> {
    put_header(alloc, rack, path, rec.serial)?;
    put_record(alloc, rack, path, generation, rec)?;
    put_log(alloc, rack, path, generation, rec.serial)
}
