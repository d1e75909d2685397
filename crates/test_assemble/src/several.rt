// Several pools, pools that are gone, and the next serial.
use crate::said::said;
use crate::site::{Device, fill, put_device};
use crate::table::{FLEX, P, PAIR, check, first, second};
use raw_records::{Flex, Rec};
use st_assemble::{Found, FoundFault, found};
use st_memrack::MemRack;
use st_units::DevPath;
use std::alloc::Global;
use std::test::Fail;

#[test]
fn a_name_that_an_older_pool_has_is_foreign(rt: HostRuntime) -> Result<(), Fail> {
    let alloc = rt.alloc();
    let one = [(4, P)];
    let gone = [(4, Rec { flags: 5, ..P })];
    let flex = [(4, FLEX)];
    let other = Rec {
        serial: 7,
        devs: &["/dev/sim1"],
        ..P
    };
    let same = [(2, other)];
    let renamed = [(2, Rec { name: "q", ..other })];
    let own = [(2, Flex { serial: 7, ..FLEX })];
    check(
        alloc,
        "one name",
        &[first(Some(1), &one, &flex), second(Some(7), &same, &own)],
        "foreign 7",
    )?;
    check(
        alloc,
        "the older one is gone",
        &[first(Some(1), &gone, &flex), second(Some(7), &same, &own)],
        "7 p of 1; gone 1 at 4, 180 bytes; next 8",
    )?;
    check(
        alloc,
        "two names",
        &[first(Some(1), &one, &flex), second(Some(7), &renamed, &own)],
        "1 p of 1; 7 q of 1; next 8",
    )
}

#[test]
fn a_pool_that_is_gone_tells_who_lacks_its_record(rt: HostRuntime) -> Result<(), Fail> {
    let alloc = rt.alloc();
    let gone = [(4, Rec { flags: 5, ..PAIR })];
    let old = [(3, PAIR)];
    let flex = [(4, FLEX)];
    check(
        alloc,
        "both have it",
        &[first(Some(1), &gone, &flex), second(Some(1), &gone, &[])],
        "gone 1 at 4, 260 bytes; next 2",
    )?;
    check(
        alloc,
        "one has an older record",
        &[first(Some(1), &gone, &flex), second(Some(1), &old, &[])],
        "gone 1 at 4, 260 bytes on /dev/sim1; next 2",
    )?;
    check(
        alloc,
        "one has none",
        &[first(Some(1), &[], &[]), second(Some(1), &gone, &[])],
        "gone 1 at 4, 260 bytes on /dev/sim0; next 2",
    )?;
    check(
        alloc,
        "one isn't there",
        &[first(Some(1), &gone, &[])],
        "gone 1 at 4, 260 bytes; next 2",
    )
}

#[test]
fn the_next_serial_is_above_all_that_stand(rt: HostRuntime) -> Result<(), Fail> {
    let alloc = rt.alloc();
    let most = 281_474_976_710_656;
    let nine = [(4, Rec { serial: 9, ..P })];
    check(
        alloc,
        "in a header alone",
        &[first(Some(9), &[], &[])],
        "next 10",
    )?;
    check(
        alloc,
        "in a slot alone",
        &[first(None, &nine, &[])],
        "next 10",
    )?;
    check(
        alloc,
        "in a slot of another header",
        &[first(Some(5), &nine, &[])],
        "next 10",
    )?;
    check(
        alloc,
        "in a header above a slot",
        &[first(Some(12), &nine, &[])],
        "next 13",
    )?;
    check(
        alloc,
        "in the other slot",
        &[first(None, &[(4, P), (5, Rec { serial: 6, ..P })], &[])],
        "next 7",
    )?;
    check(
        alloc,
        "on another device",
        &[first(Some(2), &[], &[]), second(None, &nine, &[])],
        "next 10",
    )?;
    check(
        alloc,
        "the greatest",
        &[first(Some(most), &[], &[])],
        "next 281474976710657",
    )?;
    check(
        alloc,
        "no pool's serial",
        &[first(
            Some(3),
            &[(
                4,
                Rec {
                    serial: most + 1,
                    ..P
                },
            )],
            &[],
        )],
        "next 4",
    )?;
    check(
        alloc,
        "on a device that is too small",
        &[Device {
            sectors: 8_191,
            ..first(Some(9), &nine, &[])
        }],
        "next 1",
    )
}

const PATHS: [&str; 17] = [
    "/dev/sima",
    "/dev/simb",
    "/dev/simc",
    "/dev/simd",
    "/dev/sime",
    "/dev/simf",
    "/dev/simg",
    "/dev/simh",
    "/dev/simi",
    "/dev/simj",
    "/dev/simk",
    "/dev/siml",
    "/dev/simm",
    "/dev/simn",
    "/dev/simo",
    "/dev/simp",
    "/dev/simq",
];

/// Pools 1 to so many, each on a device of its own and with a name of its own.
#[tactic(auto, using(crate::proofs::Distinct::distinct_none))]
fn many(alloc: Global, count: usize) -> Result<Result<Found, FoundFault>, Fail> {
    let mut list = Vec::new(alloc);
    for path in &PATHS[..count.min(17)] {
        put_device(&mut list, DevPath::read(alloc, path.as_bytes())?, 8_192)?;
    }
    let mut rack = MemRack::blank(alloc, list.as_slice())?;
    for (i, text) in PATHS.iter().enumerate() {
        if i < count {
            let serial = i as u64 + 1;
            let devs = [*text];
            let name = text.get(5..9).unwrap_or("x");
            let records = [(
                1,
                Rec {
                    serial,
                    name,
                    devs: &devs,
                    ..P
                },
            )];
            let flexes = [(1, Flex { serial, ..FLEX })];
            let device = Device {
                path: text,
                sectors: 8_192,
                header: Some(serial),
                records: &records,
                flexes: &flexes,
            };
            fill(alloc, &mut rack, &device)?;
        }
    }
    Ok(found(alloc, &mut rack))
}

#[test]
fn seventeen_pools_are_foreign(rt: HostRuntime) -> Result<(), Fail> {
    let alloc = rt.alloc();
    let Ok(sixteen) = many(alloc, 16)? else {
        return Err("sixteen pools".into());
    };
    assert_eq!(rt; (sixteen.pools.len(), sixteen.next), (16, 17));
    let more = said(alloc, many(alloc, 17)?)?;
    assert_eq!(rt; more.as_str(), "foreign 17");
    Ok(())
}
