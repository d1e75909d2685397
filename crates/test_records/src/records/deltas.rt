// The deltas of later commits, and what they make of a flex record.
use super::flex::{fs_row, small_flex};
use super::{Change, changed, put_last};
use st_flexlog::{
    Delta, DeltaBody, DeltaRow, FlexState, Mapping, apply, begin, decode, encode, follow,
};
use st_flexrec::{FlexRec, keeps_conditions};
use st_units::{Bytes, ItemList};
use std::alloc::Global;
use std::process::Abort;
use std::test::Fail;

const FIRST: DeltaRow = DeltaRow {
    fs: 1,
    block: 2,
    place: 3,
    cell: 4,
};

const SECOND: DeltaRow = DeltaRow {
    fs: 1,
    block: 5,
    place: 6,
    cell: 7,
};

/// The spelling of a delta of serial 8 and next cell 9, with both rows.
const TWO_ROWS: [u8; 72] = [
    0, 0, 0, 0, 0, 0, 0, 8, 0, 0, 0, 0, 0, 0, 0, 9, 0, 2, 0, 0, 0, 0, 0, 0, //
    0, 0, 0, 0, 0, 0, 0, 1, 0, 0, 0, 2, 0, 0, 0, 3, 0, 0, 0, 0, 0, 0, 0, 4, //
    0, 0, 0, 0, 0, 0, 0, 1, 0, 0, 0, 5, 0, 0, 0, 6, 0, 0, 0, 0, 0, 0, 0, 7,
];

fn delta_of(next_cell: u64, first: Option<DeltaRow>) -> Delta {
    Delta {
        serial: 8,
        next_cell,
        first,
        second: None,
    }
}

/// The spelling of a delta that has its first row where it has its second.
fn spelling(delta: &Delta) -> Result<DeltaBody, Fail> {
    if delta.second.is_some() && delta.first.is_none() {
        return Err("a second row alone".into());
    }
    Ok(encode(delta))
}

#[test]
fn deltas_are_spelled_by_hand(rt: HostRuntime) -> Result<(), Fail> {
    let two = Delta {
        second: Some(SECOND),
        ..delta_of(9, Some(FIRST))
    };
    assert_eq!(rt; spelling(&two)?.bytes(), TWO_ROWS.as_slice());
    assert_eq!(rt; decode(&TWO_ROWS), Some(two));
    let mut one = TWO_ROWS;
    one[17] = 1;
    assert_eq!(rt; spelling(&delta_of(9, Some(FIRST)))?.bytes(), &one[..48]);
    assert_eq!(rt; decode(&one[..48]), Some(delta_of(9, Some(FIRST))));
    let mut none = TWO_ROWS;
    none[17] = 0;
    assert_eq!(rt; spelling(&delta_of(9, None))?.bytes(), &none[..24]);
    assert_eq!(rt; decode(&none[..24]), Some(delta_of(9, None)));
    Ok(())
}

const DELTA_CHANGES: [Change; 6] = [
    ("another serial", 0, 8, 1, true),
    ("a row less", 16, 2, 1, false),
    ("a row more", 16, 2, 3, false),
    ("something behind the count", 18, 2, 1, false),
    ("something in front of the rows", 23, 1, 1, false),
    ("the greatest place", 36, 4, 0xffff_ffff, true),
];

#[test]
fn neighbours_of_a_delta_are_told_from_deltas(rt: HostRuntime) -> Result<(), Fail> {
    let alloc = rt.alloc();
    for (row, at, width, number, good) in &DELTA_CHANGES {
        let bytes = changed(alloc, &TWO_ROWS, *at, *width, *number)?;
        assert_eq!(rt; decode(&bytes).is_some(), *good, "{row}");
    }
    for end in [0, 23, 24, 48, 71] {
        assert_eq!(rt; decode(&TWO_ROWS[..end]), None, "the first {end} bytes");
    }
    let mut more = TWO_ROWS.to_vec(alloc)?;
    more.push(0)?;
    assert_eq!(rt; decode(&more), None, "a byte more");
    Ok(())
}

fn checkpoint_of(alloc: Global, rec: &FlexRec) -> Result<Bytes, Fail> {
    if !keeps_conditions(alloc, rec)? {
        return Err("no flex record".into());
    }
    Ok(st_flexrec::encode(alloc, rec)?)
}

fn state_at(alloc: Global, rec: &FlexRec, generation: u64) -> Result<FlexState, Fail> {
    let body = checkpoint_of(alloc, rec)?;
    match begin(alloc, body.items(), generation)? {
        None => Err("no checkpoint".into()),
        Some(state) => Ok(state),
    }
}

/// What a delta of generation 3 over the small record says, and whether it applies: the row's name, serial, next cell, rows.
type Applying = (&'static str, u64, u64, Row, Row, bool);

/// Filesystem, block, place and cell of a row.
type Row = Option<(u64, u32, u32, u64)>;

fn row_of(row: Row) -> Option<DeltaRow> {
    match row {
        None => None,
        Some((fs, block, place, cell)) => Some(DeltaRow {
            fs,
            block,
            place,
            cell,
        }),
    }
}

/// The small record has filesystems 1 and 2 of two blocks and 3 of the greatest size, cells 1 to 3 at places 7, 5 and the
/// greatest, and the next cell 4. Filesystem 2 alone maps to cell 2.
const APPLYING: [Applying; 20] = [
    ("no rows", 1, 4, None, None, true),
    ("a free block", 1, 5, Some((1, 0, 9, 4)), None, true),
    (
        "two blocks",
        1,
        6,
        Some((2, 0, 9, 4)),
        Some((2, 1, 10, 5)),
        true,
    ),
    (
        "the place of a cell that goes",
        1,
        5,
        Some((2, 0, 5, 4)),
        None,
        true,
    ),
    ("another pool", 2, 4, None, None, false),
    ("a next cell too low", 1, 4, Some((1, 0, 9, 4)), None, false),
    (
        "a next cell too high",
        1,
        6,
        Some((1, 0, 9, 4)),
        None,
        false,
    ),
    (
        "a cell number of old",
        1,
        5,
        Some((1, 0, 9, 3)),
        None,
        false,
    ),
    (
        "a cell number left out",
        1,
        5,
        Some((1, 0, 9, 5)),
        None,
        false,
    ),
    (
        "cells turned round",
        1,
        6,
        Some((2, 0, 9, 5)),
        Some((2, 1, 10, 4)),
        false,
    ),
    (
        "one cell twice",
        1,
        6,
        Some((2, 0, 9, 4)),
        Some((2, 1, 10, 4)),
        false,
    ),
    ("no such filesystem", 1, 5, Some((4, 0, 9, 4)), None, false),
    ("a block behind it", 1, 5, Some((1, 2, 9, 4)), None, false),
    (
        "two filesystems",
        1,
        6,
        Some((1, 0, 9, 4)),
        Some((2, 1, 10, 5)),
        false,
    ),
    (
        "blocks turned round",
        1,
        6,
        Some((2, 1, 9, 4)),
        Some((2, 0, 10, 5)),
        false,
    ),
    (
        "one block twice",
        1,
        6,
        Some((2, 1, 9, 4)),
        Some((2, 1, 10, 5)),
        false,
    ),
    (
        "the place of a cell that stays",
        1,
        5,
        Some((1, 0, 7, 4)),
        None,
        false,
    ),
    (
        "the place of a shared cell",
        1,
        5,
        Some((1, 1, 7, 4)),
        None,
        false,
    ),
    (
        "one place twice",
        1,
        6,
        Some((2, 0, 9, 4)),
        Some((2, 1, 9, 5)),
        false,
    ),
    (
        "the greatest block",
        1,
        5,
        Some((3, 33_554_431, 9, 4)),
        None,
        true,
    ),
];

#[test]
fn deltas_apply_by_their_rules_alone(rt: HostRuntime) -> Result<(), Fail> {
    let alloc = rt.alloc();
    let rec = small_flex(alloc)?;
    for (name, serial, next_cell, first, second, good) in &APPLYING {
        let delta = Delta {
            serial: *serial,
            next_cell: *next_cell,
            first: row_of(*first),
            second: row_of(*second),
        };
        let after = apply(state_at(alloc, &rec, 2)?, 3, &delta)?;
        assert_eq!(rt; after.is_some(), *good, "{name}");
    }
    // 2 cells a commit
    let two = Delta {
        serial: 1,
        next_cell: 6,
        first: row_of(Some((2, 0, 9, 4))),
        second: row_of(Some((2, 1, 10, 5))),
    };
    assert!(rt; apply(state_at(alloc, &rec, 2)?, 2, &two)?.is_none());
    Ok(())
}

/// One filesystem of the size that is given without one, no mapping.
fn made_flex(alloc: Global) -> Result<FlexRec, Fail> {
    let mut filesystems = ItemList::make(alloc);
    put_last(
        &mut filesystems,
        fs_row(alloc, 1, None, 32_768, None, b"a")?,
    )?;
    Ok(FlexRec {
        version2: true,
        serial: 1,
        next_fs: 2,
        next_cell: 1,
        filesystems,
        mappings: ItemList::make(alloc),
        cells: ItemList::make(alloc),
    })
}

fn mapping(block: u32, cell: u64, place: u32) -> Mapping {
    Mapping {
        fs: 1,
        block,
        cell,
        place,
    }
}

fn with_block(
    rt: &impl Abort,
    state: FlexState,
    generation: u64,
    row: DeltaRow,
) -> Result<FlexState, Fail> {
    let next_cell = row.cell.checked_add(1).ok_or("no cell behind it")?;
    let delta = Delta {
        serial: 1,
        next_cell,
        first: Some(row),
        second: None,
    };
    let body = spelling(&delta)?;
    match follow(state, generation, body.bytes())? {
        None => Err("no delta".into()),
        Some(state) => {
            assert_eq!(rt; state.next_cell, next_cell);
            Ok(state)
        }
    }
}

/// Blocks 0 and 1 are written after the checkpoint of generation 2, then block 0 once more.
#[test]
fn writes_after_a_checkpoint_are_told_by_deltas(rt: HostRuntime) -> Result<(), Fail> {
    let alloc = rt.alloc();
    let mut state = state_at(alloc, &made_flex(alloc)?, 2)?;
    for (generation, block, place, cell) in [(3, 0, 0, 1), (4, 1, 1, 2), (5, 0, 2, 3)] {
        let written = DeltaRow {
            fs: 1,
            block,
            place,
            cell,
        };
        state = with_block(&rt, state, generation, written)?;
    }
    assert_eq!(rt;
        state.mappings.items(),
        [mapping(0, 3, 2), mapping(1, 2, 1)].as_slice()
    );
    assert!(rt; state.version2);
    assert_eq!(rt; state.filesystems.len(), 1);
    Ok(())
}

#[test]
fn what_is_no_checkpoint_or_delta_says_nothing(rt: HostRuntime) -> Result<(), Fail> {
    let alloc = rt.alloc();
    let rec = small_flex(alloc)?;
    let body = checkpoint_of(alloc, &rec)?;
    assert!(rt; begin(alloc, body.items(), 1)?.is_none());
    let part = body.items().get(1..).ok_or("an empty checkpoint")?;
    assert!(rt; begin(alloc, part, 2)?.is_none());
    assert!(rt; follow(state_at(alloc, &rec, 2)?, 3, &TWO_ROWS[1..])?.is_none());
    // of another pool
    assert!(rt; follow(state_at(alloc, &rec, 2)?, 3, &TWO_ROWS)?.is_none());
    Ok(())
}
