// Wrong devices, logs that break a rule, and which serial is told.
use crate::site::Device;
use crate::table::{FLEX, P, PAIR, check, first, second};
use raw_records::{Flex, Rec};
use std::test::Fail;

#[test]
fn a_wrong_device_in_a_row_is_foreign(rt: HostRuntime) -> Result<(), Fail> {
    let alloc = rt.alloc();
    let pair = [(4, PAIR)];
    let gone = [(4, Rec { flags: 5, ..PAIR })];
    let flex = [(4, FLEX)];
    let right = second(Some(1), &[], &[]);
    check(
        alloc,
        "no header",
        &[first(Some(1), &pair, &flex), second(None, &[], &[])],
        "foreign 1",
    )?;
    check(
        alloc,
        "another header",
        &[first(Some(1), &pair, &flex), second(Some(2), &[], &[])],
        "foreign 1",
    )?;
    check(
        alloc,
        "other sectors",
        &[
            first(Some(1), &pair, &flex),
            Device {
                sectors: 16_384,
                ..right
            },
        ],
        "foreign 1",
    )?;
    check(
        alloc,
        "too small for a header",
        &[
            first(Some(1), &pair, &flex),
            Device {
                sectors: 8_191,
                ..right
            },
        ],
        "foreign 1",
    )?;
    check(
        alloc,
        "the right one",
        &[first(Some(1), &pair, &flex), right],
        "1 p of 2; next 2",
    )?;
    check(
        alloc,
        "of a pool that is gone",
        &[first(Some(1), &gone, &flex), second(Some(2), &[], &[])],
        "gone 1 at 4, 260 bytes; next 3",
    )
}

#[test]
fn a_record_on_a_device_in_no_row_is_foreign(rt: HostRuntime) -> Result<(), Fail> {
    let alloc = rt.alloc();
    let flex = [(5, FLEX)];
    let newest = [(5, P)];
    let gone = [(5, Rec { flags: 5, ..P })];
    let old = [(4, PAIR)];
    for (row, header) in [
        ("no header", None),
        ("its header", Some(1)),
        ("another header", Some(2)),
    ] {
        check(
            alloc,
            row,
            &[first(Some(1), &newest, &flex), second(header, &old, &[])],
            "foreign 1",
        )?;
        check(
            alloc,
            row,
            &[first(Some(1), &gone, &flex), second(header, &old, &[])],
            "foreign 1",
        )?;
    }
    check(
        alloc,
        "without a record",
        &[first(Some(1), &newest, &flex), second(Some(1), &[], &[])],
        "1 p of 1; next 2",
    )?;
    check(
        alloc,
        "of a serial without a pool",
        &[first(Some(2), &[], &[]), second(None, &old, &[])],
        "next 3",
    )
}

#[test]
fn a_broken_log_is_foreign(rt: HostRuntime) -> Result<(), Fail> {
    let alloc = rt.alloc();
    let one = [(4, P)];
    let bare = [(4, Rec { blocks: 0, ..P })];
    let flex_of = |flex: Flex| [(4, flex)];
    for (row, flex) in [
        ("another serial", Flex { serial: 2, ..FLEX }),
        (
            "a byte more",
            Flex {
                longer: true,
                ..FLEX
            },
        ),
        ("another version", Flex { version: 0, ..FLEX }),
        ("no version", Flex { version: 1, ..FLEX }),
        (
            "a place that isn't allocated",
            Flex {
                place: Some(10),
                ..FLEX
            },
        ),
    ] {
        check(
            alloc,
            row,
            &[first(Some(1), &one, &flex_of(flex))],
            "foreign 1",
        )?;
    }
    check(alloc, "none", &[first(Some(1), &one, &[])], "foreign 1")?;
    check(
        alloc,
        "that of another generation",
        &[first(Some(1), &one, &[(3, FLEX)])],
        "foreign 1",
    )?;
    check(
        alloc,
        "the last place",
        &[first(
            Some(1),
            &one,
            &[(
                4,
                Flex {
                    place: Some(9),
                    ..FLEX
                },
            )],
        )],
        "1 p of 1; next 2",
    )?;
    check(
        alloc,
        "no block is allocated",
        &[first(
            Some(1),
            &bare,
            &[(
                4,
                Flex {
                    place: Some(0),
                    ..FLEX
                },
            )],
        )],
        "foreign 1",
    )?;
    check(
        alloc,
        "both of version 1",
        &[first(
            Some(1),
            &[(4, Rec { flags: 0, ..P })],
            &[(4, Flex { version: 0, ..FLEX })],
        )],
        "1 p of 1; next 2",
    )
}

#[test]
fn the_least_serial_is_told(rt: HostRuntime) -> Result<(), Fail> {
    let alloc = rt.alloc();
    let bad = [(4, Rec { longer: true, ..P })];
    let other = [(
        4,
        Rec {
            serial: 2,
            longer: true,
            devs: &["/dev/sim1"],
            ..P
        },
    )];
    let flex = [(4, FLEX)];
    check(
        alloc,
        "both break a rule",
        &[first(Some(1), &bad, &flex), second(Some(2), &other, &[])],
        "foreign 1",
    )?;
    check(
        alloc,
        "the second breaks one",
        &[
            first(Some(1), &[(4, P)], &flex),
            second(Some(2), &other, &[]),
        ],
        "foreign 2",
    )
}
