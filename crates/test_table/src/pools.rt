// The table of pools: what it tells after changes.
use crate::changes::{Change, Why, make};
use crate::texts::{name, path, put_words, rows, shown};
use st_order::is_rising;
use st_table::{HaltedInfo, HaltedMode, Table};
use st_units::DevRows;
use std::alloc::Global;
use std::test::Fail;

/// Changes of a table without pools, and what it tells after them: an info, then of each device its
/// pool, then of each name what has it.
struct Row {
    name: &'static str,
    changes: &'static [Change],
    info: &'static str,
    users: &'static str,
    names: &'static str,
}

const ROWS: [Row; 11] = [
    Row {
        name: "no pool",
        changes: &[],
        info: "next 1 free /dev/sim0 /dev/sim1 /dev/sim10",
        users: " - - -",
        names: "",
    },
    Row {
        name: "a pool, whose devices are told in byte order",
        changes: &[Change::Add("p", 1, &["/dev/sim10", "/dev/sim0"])],
        info: "next 2 free /dev/sim1",
        users: " p - p",
        names: " p started on /dev/sim0 /dev/sim10",
    },
    Row {
        name: "the next serial is above all that were given",
        changes: &[
            Change::Add("p", 5, &["/dev/sim0"]),
            Change::Add("q", 2, &["/dev/sim1"]),
            Change::Drop("p"),
        ],
        info: "next 6 free /dev/sim0 /dev/sim10",
        users: " - q -",
        names: " q started on /dev/sim1",
    },
    Row {
        name: "another name, then no pool, then its first name again",
        changes: &[
            Change::Add("p", 1, &["/dev/sim0"]),
            Change::Rename("p", "q"),
            Change::Drop("q"),
            Change::Add("p", 2, &["/dev/sim0"]),
        ],
        info: "next 3 free /dev/sim1 /dev/sim10",
        users: " p - -",
        names: " p started on /dev/sim0",
    },
    Row {
        name: "another name behind that of a second pool",
        changes: &[
            Change::Add("p", 1, &["/dev/sim0"]),
            Change::Add("q", 2, &["/dev/sim1"]),
            Change::Rename("p", "r"),
        ],
        info: "next 3 free /dev/sim10",
        users: " r q -",
        names: " q started on /dev/sim1 r started on /dev/sim0",
    },
    Row {
        name: "devices behind those that it has",
        changes: &[
            Change::Add("p", 1, &["/dev/sim10"]),
            Change::Take("p", &["/dev/sim1"]),
        ],
        info: "next 2 free /dev/sim0",
        users: " - p p",
        names: " p started on /dev/sim1 /dev/sim10",
    },
    Row {
        name: "a rename in flight",
        changes: &[Change::Add("p", 1, &["/dev/sim0"]), Change::Hold("p", "q")],
        info: "next 2 free /dev/sim1 /dev/sim10",
        users: " p - -",
        names: " p started and q on /dev/sim0 q held",
    },
    Row {
        name: "a rename in flight, and a stop",
        changes: &[
            Change::Add("p", 1, &["/dev/sim0"]),
            Change::Hold("p", "q"),
            Change::Halt("p", Why::Unsettled(&[], Some("q")), &["/dev/sim0"]),
        ],
        info: "next 2 free /dev/sim1 /dev/sim10 stopped p 1 Unsettled",
        users: " p - -",
        names: " p unsettled and q on /dev/sim0 q held",
    },
    Row {
        name: "a start that finds the rename done, and the devices in flight not taken",
        changes: &[
            Change::Add("p", 1, &["/dev/sim0"]),
            Change::Halt(
                "p",
                Why::Unsettled(&["/dev/sim1"], Some("q")),
                &["/dev/sim0", "/dev/sim1"],
            ),
            Change::Wake("p", "q", &["/dev/sim0"]),
        ],
        info: "next 2 free /dev/sim1 /dev/sim10",
        users: " q - -",
        names: " q started on /dev/sim0",
    },
    Row {
        name: "a pool that lacks a device",
        changes: &[
            Change::Add("p", 1, &["/dev/sim0"]),
            Change::Halt(
                "p",
                Why::Incomplete("/dev/lost"),
                &["/dev/sim0", "/dev/lost"],
            ),
        ],
        info: "next 2 free /dev/sim1 /dev/sim10 stopped p 1 Incomplete",
        users: " p - -",
        names: " p without /dev/lost on /dev/lost /dev/sim0",
    },
    Row {
        name: "stopped pools in byte order of their names, a started one between them",
        changes: &[
            Change::Add("q", 1, &["/dev/sim0"]),
            Change::Add("r", 2, &["/dev/sim1"]),
            Change::Add("p", 3, &["/dev/sim10"]),
            Change::Halt("r", Why::Stopped, &["/dev/sim1"]),
            Change::Halt("p", Why::Stopped, &["/dev/sim10"]),
        ],
        info: "next 4 free stopped p 3 Stopped stopped r 2 Stopped",
        users: " q r p",
        names: " p stopped on /dev/sim10 q started on /dev/sim0 r stopped on /dev/sim1",
    },
];

const DEVICES: [(&str, u64); 3] = [
    ("/dev/sim0", 65_536),
    ("/dev/sim1", 131_072),
    ("/dev/sim10", 4_294_967_296),
];

/// A table of devices in byte order, without pools.
fn table_of(alloc: Global, rows: &DevRows) -> Result<Table, Fail> {
    if !is_rising(rows.items()) {
        return Err("the devices are out of order".into());
    }
    Ok(Table::make(alloc, rows, 1)?)
}

fn make_all(table: &mut Table, alloc: Global, changes: &[Change]) -> Result<(), Fail> {
    for change in changes {
        make(table, alloc, change)?;
    }
    Ok(())
}

/// What a report shows of the present table.
fn info(table: &mut Table, alloc: Global) -> Result<String, Fail> {
    table.refresh(alloc)?;
    match table.info() {
        Some(info) => shown(alloc, info.value()),
        None => Err("no info".into()),
    }
}

fn put_user(table: &Table, alloc: Global, text: &mut String, device: &str) -> Result<(), Fail> {
    let device = path(alloc, device)?;
    text.push_str(" ")?;
    if table.sectors(&device).is_none() {
        return Err("no such device".into());
    }
    match table.user_of(&device) {
        Some(pool) => text.push_str(pool.as_str())?,
        None => text.push_str("-")?,
    }
    Ok(())
}

/// The pool that uses each device, `-` where none does.
fn users(table: &Table, alloc: Global) -> Result<String, Fail> {
    let mut text = String::new(alloc);
    for (device, _) in &DEVICES {
        put_user(table, alloc, &mut text, device)?;
    }
    Ok(text)
}

fn put_mode(text: &mut String, halted: Option<&HaltedInfo>) -> Result<(), Fail> {
    let Some(halted) = halted else {
        text.push_str(" started")?;
        return Ok(());
    };
    match &halted.mode {
        HaltedMode::Stopped => text.push_str(" stopped")?,
        HaltedMode::Unsettled => text.push_str(" unsettled")?,
        HaltedMode::Incomplete(missing) => {
            text.push_str(" without ")?;
            text.push_str(missing.as_str())?;
        }
    }
    Ok(())
}

/// What has the name, nothing where it is free.
fn put_name(table: &Table, alloc: Global, text: &mut String, pool: &str) -> Result<(), Fail> {
    let pool = name(alloc, pool)?;
    if !table.held(&pool) {
        return Ok(());
    }
    text.push_str(" ")?;
    text.push_str(pool.as_str())?;
    if !table.is_known(&pool) {
        text.push_str(" held")?;
        return Ok(());
    }
    put_mode(text, table.halted(&pool))?;
    if let Some(new) = table.new_of(&pool) {
        text.push_str(" and ")?;
        text.push_str(new.as_str())?;
    }
    text.push_str(" on")?;
    put_words(text, &table.devs_of(alloc, &pool)?)
}

fn names(table: &Table, alloc: Global) -> Result<String, Fail> {
    let mut text = String::new(alloc);
    for pool in ["p", "q", "r"] {
        put_name(table, alloc, &mut text, pool)?;
    }
    Ok(text)
}

/// The table after the row's changes.
fn changed(alloc: Global, row: &Row) -> Result<Table, Fail> {
    let mut table = table_of(alloc, &rows(alloc, &DEVICES)?)?;
    make_all(&mut table, alloc, row.changes)?;
    Ok(table)
}

#[test]
fn each_row_tells_what_it_says(rt: HostRuntime) -> Result<(), Fail> {
    let alloc = rt.alloc();
    for row in &ROWS {
        let mut table = changed(alloc, row)?;
        assert_eq!(rt; info(&mut table, alloc)?.as_str(), row.info, "{}", row.name);
        assert_eq!(rt; users(&table, alloc)?.as_str(), row.users, "{}", row.name);
        assert_eq!(rt; names(&table, alloc)?.as_str(), row.names, "{}", row.name);
    }
    Ok(())
}

/// Which devices the rack has, the next serial, and that each change uses up what was prepared.
#[test]
fn a_change_uses_up_what_was_prepared(rt: HostRuntime) -> Result<(), Fail> {
    let alloc = rt.alloc();
    let mut table = table_of(alloc, &rows(alloc, &DEVICES)?)?;
    assert_eq!(rt; table.sectors(&path(alloc, "/dev/sim1")?), Some(131_072));
    assert_eq!(rt; table.sectors(&path(alloc, "/dev/sim2")?), None);
    assert!(rt; !table.is_prepared() && table.info().is_none());
    table.refresh(alloc)?;
    make(&mut table, alloc, &Change::Add("p", 1, &["/dev/sim0"]))?;
    assert!(rt; !table.is_prepared() && table.info().is_none());
    assert_eq!(rt; table.next_serial(), 2);
    Ok(())
}

#[test]
fn a_copy_goes_its_own_way(rt: HostRuntime) -> Result<(), Fail> {
    let alloc = rt.alloc();
    let mut table = changed(alloc, &ROWS[10])?;
    table.refresh(alloc)?;
    let mut copy = table.copy(alloc)?;
    assert!(rt; copy.info().is_none());
    make(&mut copy, alloc, &Change::Drop("p"))?;
    assert_eq!(rt; users(&copy, alloc)?.as_str(), " q r -");
    assert_eq!(rt; users(&table, alloc)?.as_str(), " q r p");
    Ok(())
}
