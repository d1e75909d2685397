// Small devices, and what they stand for.
use crate::said::said;
use crate::site::{Device, rack_of};
use raw_records::{Flex, Rec};
use st_assemble::found;
use std::alloc::Global;
use std::test::Fail;

/// A record of pool 1, p, with ten blocks of one device.
pub const P: Rec = Rec {
    serial: 1,
    flags: 4,
    name: "p",
    devs: &["/dev/sim0"],
    blocks: 10,
    longer: false,
};

/// The same on two devices.
pub const PAIR: Rec = Rec {
    devs: &["/dev/sim0", "/dev/sim1"],
    ..P
};

/// A checkpoint of pool 1 without filesystems.
pub const FLEX: Flex = Flex {
    serial: 1,
    version: 2,
    place: None,
    longer: false,
};

/// A device with nothing on it.
pub const BLANK: Device = Device {
    path: "/dev/sim0",
    sectors: 8_192,
    header: None,
    records: &[],
    flexes: &[],
};

/// Fails where these devices stand for something else.
pub fn check(alloc: Global, row: &str, devices: &[Device], want: &str) -> Result<(), Fail> {
    let mut rack = rack_of(alloc, devices)?;
    let got = said(alloc, found(alloc, &mut rack))?;
    if got.as_str() == want {
        Ok(())
    } else {
        Err(format!(in alloc; "{row}: {got}, not {want}")?.into())
    }
}

/// The first device with this header, and these records and checkpoints.
pub fn first<'a>(
    header: Option<u64>,
    records: &'a [(u64, Rec<'a>)],
    flexes: &'a [(u64, Flex)],
) -> Device<'a> {
    Device {
        header,
        records,
        flexes,
        ..BLANK
    }
}

/// The second one.
pub fn second<'a>(
    header: Option<u64>,
    records: &'a [(u64, Rec<'a>)],
    flexes: &'a [(u64, Flex)],
) -> Device<'a> {
    Device {
        path: "/dev/sim1",
        ..first(header, records, flexes)
    }
}

#[test]
fn a_pool_is_what_its_newest_record_says(rt: HostRuntime) -> Result<(), Fail> {
    let alloc = rt.alloc();
    let older = Rec { name: "old", ..P };
    let one = [(4, P)];
    let pair = [(4, PAIR)];
    let flex = [(4, FLEX)];
    let behind = Rec {
        name: "old",
        ..PAIR
    };
    check(alloc, "no device", &[], "next 1")?;
    check(alloc, "a blank device", &[BLANK], "next 1")?;
    check(
        alloc,
        "a header alone",
        &[first(Some(1), &[], &[])],
        "next 2",
    )?;
    check(
        alloc,
        "a whole pool",
        &[first(Some(1), &one, &flex)],
        "1 p of 1; next 2",
    )?;
    check(
        alloc,
        "an older record beside it",
        &[first(Some(1), &[(3, older), (4, P)], &flex)],
        "1 p of 1; next 2",
    )?;
    check(
        alloc,
        "a record without a header",
        &[first(None, &one, &flex)],
        "next 2",
    )?;
    check(
        alloc,
        "the first device is behind",
        &[
            first(Some(1), &[(3, behind)], &flex),
            second(Some(1), &pair, &[]),
        ],
        "1 p of 2; next 2",
    )?;
    check(
        alloc,
        "the second device is behind",
        &[
            first(Some(1), &pair, &flex),
            second(Some(1), &[(3, behind)], &[]),
        ],
        "1 p of 2; next 2",
    )?;
    check(
        alloc,
        "the second device has no record",
        &[first(Some(1), &pair, &flex), second(Some(1), &[], &[])],
        "1 p of 2; next 2",
    )
}

#[test]
fn a_pool_without_a_device_is_incomplete(rt: HostRuntime) -> Result<(), Fail> {
    let alloc = rt.alloc();
    let pair = [(4, PAIR)];
    let flex = [(4, FLEX)];
    check(
        alloc,
        "the second is missing",
        &[first(Some(1), &pair, &flex)],
        "1 p of 2 without /dev/sim1; next 2",
    )?;
    check(
        alloc,
        "and there is no log",
        &[first(Some(1), &pair, &[])],
        "1 p of 2 without /dev/sim1; next 2",
    )?;
    check(
        alloc,
        "the first is missing",
        &[second(Some(1), &pair, &[])],
        "1 p of 2 without /dev/sim0; next 2",
    )
}

#[test]
fn two_bodies_of_one_generation_are_foreign(rt: HostRuntime) -> Result<(), Fail> {
    let alloc = rt.alloc();
    let pair = [(3, PAIR)];
    let other = Rec { name: "q", ..PAIR };
    let flex = [(3, FLEX), (4, FLEX)];
    check(
        alloc,
        "two names",
        &[
            first(Some(1), &pair, &flex),
            second(Some(1), &[(3, other)], &[]),
        ],
        "foreign 1",
    )?;
    check(
        alloc,
        "and a newer one",
        &[
            first(Some(1), &[(3, PAIR), (4, PAIR)], &flex),
            second(Some(1), &[(3, other)], &[]),
        ],
        "foreign 1",
    )?;
    check(
        alloc,
        "one body",
        &[first(Some(1), &pair, &flex), second(Some(1), &pair, &[])],
        "1 p of 2; next 2",
    )
}

const LONGER: Rec = Rec { longer: true, ..P };

const NAMELESS: Rec = Rec { name: "", ..P };

const FLAGGED: Rec = Rec { flags: 8, ..P };

const WITHOUT: Rec = Rec {
    devs: &[],
    blocks: 0,
    ..P
};

const TOO_MANY: Rec = Rec { blocks: 37, ..P };

#[test]
fn a_malformed_newest_is_foreign(rt: HostRuntime) -> Result<(), Fail> {
    let alloc = rt.alloc();
    let flex = [(4, FLEX)];
    check(
        alloc,
        "a byte more",
        &[first(Some(1), &[(4, LONGER)], &flex)],
        "foreign 1",
    )?;
    check(
        alloc,
        "no name",
        &[first(Some(1), &[(4, NAMELESS)], &flex)],
        "foreign 1",
    )?;
    check(
        alloc,
        "a flag that isn't known",
        &[first(Some(1), &[(4, FLAGGED)], &flex)],
        "foreign 1",
    )?;
    check(
        alloc,
        "no device",
        &[first(Some(1), &[(4, WITHOUT)], &flex)],
        "foreign 1",
    )?;
    check(
        alloc,
        "more blocks than the device has",
        &[first(Some(1), &[(4, TOO_MANY)], &flex)],
        "foreign 1",
    )?;
    let all = Rec { blocks: 36, ..P };
    check(
        alloc,
        "all blocks",
        &[first(Some(1), &[(4, all)], &flex)],
        "1 p of 1; next 2",
    )
}

#[test]
fn a_malformed_older_candidate_is_foreign(rt: HostRuntime) -> Result<(), Fail> {
    let alloc = rt.alloc();
    let flex = [(4, FLEX)];
    check(
        alloc,
        "a byte more",
        &[first(Some(1), &[(3, LONGER), (4, P)], &flex)],
        "foreign 1",
    )?;
    check(
        alloc,
        "no name",
        &[first(Some(1), &[(3, NAMELESS), (4, P)], &flex)],
        "foreign 1",
    )?;
    check(
        alloc,
        "a flag that isn't known",
        &[first(Some(1), &[(3, FLAGGED), (4, P)], &flex)],
        "foreign 1",
    )?;
    check(
        alloc,
        "no device",
        &[first(Some(1), &[(3, WITHOUT), (4, P)], &flex)],
        "foreign 1",
    )?;
    check(
        alloc,
        "more blocks than the device has",
        &[first(Some(1), &[(3, TOO_MANY), (4, P)], &flex)],
        "foreign 1",
    )?;
    Ok(())
}

#[test]
fn a_malformed_slot_under_another_header_is_none(rt: HostRuntime) -> Result<(), Fail> {
    let alloc = rt.alloc();
    let flex = [(4, FLEX)];
    check(
        alloc,
        "a byte more",
        &[first(Some(2), &[(4, LONGER)], &flex)],
        "next 3",
    )?;
    check(
        alloc,
        "no name",
        &[first(Some(2), &[(4, NAMELESS)], &flex)],
        "next 3",
    )?;
    check(
        alloc,
        "a flag that isn't known",
        &[first(Some(2), &[(4, FLAGGED)], &flex)],
        "next 3",
    )?;
    check(
        alloc,
        "no device",
        &[first(Some(2), &[(4, WITHOUT)], &flex)],
        "next 3",
    )?;
    check(
        alloc,
        "more blocks than the device has",
        &[first(Some(2), &[(4, TOO_MANY)], &flex)],
        "next 3",
    )?;
    Ok(())
}
