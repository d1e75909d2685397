// The header of a device, and records in two slots.
use st_fields::put;
use st_header::{header_bytes, read_header};
use st_memrack::NoFaultRack;
use st_rack::Rack;
use st_slots::{Area, newest, read_at, write_next};
use st_units::{Bytes, DevPath, PoolSerial};
use std::alloc::Global;
use std::test::Fail;

#[test]
fn a_header_of_serial_1_begins_as_it_is_told(rt: HostRuntime) -> Result<(), Fail> {
    let header = header_bytes(PoolSerial::of(1), 65_536);
    let want = [
        0x53, 0x54, 0x52, 0x53, 0x48, 0x44, 0x52, 0x31, 0, 0, 0, 0, 0, 0, 0, 1, 0, 0, 0, 0, 0, 1,
        0, 0,
    ];
    assert_eq!(rt; &header[..24], want.as_slice());
    Ok(())
}

/// The first 16 sectors of a device, with serial 1 in the copy at sector 1 and serial 2 in the copy at sector 9, each for a device of
/// so many sectors where it is there.
fn header_area(first: Option<u64>, second: Option<u64>) -> [u8; 8_192] {
    let mut area = [0; 8_192];
    if let Some(sectors) = first {
        put(&mut area, 512, &header_bytes(PoolSerial::of(1), sectors));
    }
    if let Some(sectors) = second {
        put(&mut area, 4_608, &header_bytes(PoolSerial::of(2), sectors));
    }
    area
}

#[test]
fn the_first_copy_for_the_device_is_its_header(rt: HostRuntime) -> Result<(), Fail> {
    for (row, first, second, sectors, want) in [
        ("no copy", None, None, 65_536, None),
        ("the first", Some(65_536), None, 65_536, Some(1)),
        ("the second", None, Some(65_536), 65_536, Some(2)),
        ("both", Some(65_536), Some(65_536), 65_536, Some(1)),
        ("one sector less", Some(65_536), None, 65_535, None),
        (
            "the second alone is for it",
            Some(65_536),
            Some(65_535),
            65_535,
            Some(2),
        ),
        ("the least device", Some(8_192), None, 8_192, Some(1)),
        ("too small", Some(8_191), Some(8_191), 8_191, None),
    ] {
        let serial = read_header(&header_area(first, second), sectors).map(|s| s.number());
        assert_eq!(rt; serial, want, "{row}");
    }
    Ok(())
}

fn area() -> Area {
    Area {
        at: 16,
        slot: 64,
        magic: *b"STRSPOL1",
    }
}

/// A rack of one blank device of 8,192 sectors.
fn one_device(alloc: Global) -> Result<(NoFaultRack, DevPath), Fail> {
    let dev = DevPath::read(alloc, b"/dev/sim0")?;
    let rack = NoFaultRack::blank(alloc, &[(dev.copy()?, 8_192)])?;
    Ok((rack, dev))
}

/// Writes a record of one sector.
fn write(rack: &mut NoFaultRack, dev: &DevPath, generation: u64, body: &[u8]) -> Result<(), Fail> {
    let area = area();
    if !area.lies_on(rack, dev) || generation == 0 || generation > 9 || body.len() > 448 {
        return Err("no such record".into());
    }
    let mut work = [0; 512];
    Ok(write_next(rack, dev, &area, generation, body, &mut work)?)
}

fn found(
    alloc: Global,
    rack: &mut NoFaultRack,
    dev: &DevPath,
) -> Result<Option<(u64, Bytes)>, Fail> {
    let area = area();
    if !area.lies_on(rack, dev) {
        return Err("no such device".into());
    }
    Ok(newest(alloc, rack, dev, &area)?)
}

fn found_at(
    alloc: Global,
    rack: &mut NoFaultRack,
    dev: &DevPath,
    slot: usize,
) -> Result<Option<(u64, Bytes)>, Fail> {
    let area = area();
    if !area.lies_on(rack, dev) || slot > 1 {
        return Err("no such slot".into());
    }
    Ok(read_at(alloc, rack, dev, &area, slot)?)
}

fn is_record(found: &Option<(u64, Bytes)>, want: Option<(u64, &[u8])>) -> bool {
    match (found, want) {
        (None, None) => true,
        (Some(found), Some(want)) => found.0 == want.0 && found.1.items() == want.1,
        _ => false,
    }
}

/// Turns some bits of a byte in the first sector of slot 0.
fn flip(rack: &mut NoFaultRack, dev: &DevPath, byte: usize, bits: u8) -> Result<(), Fail> {
    let area = area();
    if !area.lies_on(rack, dev) || byte >= 512 {
        return Err("no such byte".into());
    }
    let mut sector = [0; 512];
    rack.read(dev, area.at, &mut sector)?;
    sector[byte] ^= bits;
    Ok(rack.write(dev, area.at, &sector)?)
}

#[test]
fn the_newest_record_is_found(rt: HostRuntime) -> Result<(), Fail> {
    let alloc = rt.alloc();
    let (mut rack, dev) = one_device(alloc)?;
    assert!(rt;
        is_record(&found(alloc, &mut rack, &dev)?, None),
        "on a blank device"
    );
    for (generation, body) in [(1, "one"), (2, "two!!"), (3, ""), (4, "four")] {
        let want = Some((generation, body.as_bytes()));
        write(&mut rack, &dev, generation, body.as_bytes())?;
        assert!(rt;
            is_record(&found(alloc, &mut rack, &dev)?, want),
            "the newest at {generation}"
        );
        for slot in 0..2 {
            let there = found_at(alloc, &mut rack, &dev, slot)?.map(|record| record.0);
            let in_slot = if generation % 2 == slot as u64 {
                generation
            } else {
                generation - 1
            };
            let want = if in_slot == 0 { None } else { Some(in_slot) };
            assert_eq!(rt; there, want, "slot {slot} at {generation}");
        }
    }
    Ok(())
}

#[test]
fn a_changed_bit_makes_a_slot_invalid(rt: HostRuntime) -> Result<(), Fail> {
    let alloc = rt.alloc();
    let (mut rack, dev) = one_device(alloc)?;
    write(&mut rack, &dev, 1, b"old")?;
    write(&mut rack, &dev, 2, b"newer")?;
    let (old, newer) = (Some((1, b"old".as_slice())), Some((2, b"newer".as_slice())));
    for (row, byte, bits, want) in [
        ("first byte of the magic", 0, 0x01, old),
        ("last byte of the magic", 7, 0x80, old),
        ("generation in the other place", 15, 0x01, old),
        ("generation 0", 15, 0x02, old),
        ("generation 6", 15, 0x04, old),
        ("generation above 2^48", 8, 0x80, old),
        ("length of one byte less", 23, 0x01, old),
        ("length beyond the slot", 21, 0x01, old),
        ("length beyond the device", 16, 0x80, old),
        ("zero bytes of the head", 31, 0x10, old),
        ("first byte of the seal", 32, 0x40, old),
        ("last byte of the seal", 63, 0x01, old),
        ("first byte of the body", 64, 0x01, old),
        ("last byte of the body", 68, 0x80, old),
        ("first byte behind the body", 69, 0x01, newer),
        ("last byte of the sector", 511, 0x80, newer),
    ] {
        flip(&mut rack, &dev, byte, bits)?;
        assert!(rt; is_record(&found(alloc, &mut rack, &dev)?, want), "{row}");
        flip(&mut rack, &dev, byte, bits)?;
        assert!(rt;
            is_record(&found(alloc, &mut rack, &dev)?, newer),
            "{row}, turned back"
        );
    }
    Ok(())
}
