// A pool's limit is set under a ticket for that pool alone.
ghost use Rattle.std.specs.Prelude.{◌≡◌};

use crate::made::{create, entry_at};
use crate::plain_lock::{PlainLock, PlainSeat};
use crate::setting::set_limit;
use crate::visits::{limit_of, new_lock, quiet_log};
use st_book::{Log, Peek};
use st_model::{Given, Origin};
use std::alloc::Global;
use std::process::Abort;
use std::sync::Wait;

/// Sets the limit of the pool, by this line.
fn set(
    rt: &(impl Wait + Abort),
    alloc: Global,
    lock: &PlainLock,
    seat: &mut PlainSeat,
    line: (u64, &str, u64),
)
    requires here { seat.old.turn ≡ lock.now }
    ensures here { seat.new.turn ≡ lock.now }
{
    let (line, pool, limit) = line;
    match set_limit(
        lock,
        rt,
        alloc,
        seat,
        limit_of(rt, alloc, pool, limit),
        line,
    ) {
        Ok(()) => {}
        Err(_) => panic!(rt; "no memory for line {line}"),
    }
}

/// The code of a line's release, and what was changed where it is 0.
fn answer(rt: &impl Abort, log: &Log, line: u64) -> (u64, Option<bool>) {
    let entry = entry_at(rt, log, (line as usize).wrapping_mul(3).wrapping_sub(1));
    assert!(rt; entry.from == Origin::Line(line));
    match &entry.reply.result {
        Some(Given::Done(changed)) => (entry.reply.code as u64, Some(*changed)),
        _ => (entry.reply.code as u64, None),
    }
}

#[test]
fn a_limit_is_set_on_the_cell_of_its_ticket(rt: HostRuntime) {
    let alloc = rt.alloc();
    let (lock, mut seat) = new_lock(&rt, alloc);
    create(&rt, alloc, &lock, &mut seat, "p", 1);
    set(&rt, alloc, &lock, &mut seat, (2, "p", 200));
    set(&rt, alloc, &lock, &mut seat, (3, "p", 200));
    set(&rt, alloc, &lock, &mut seat, (4, "p", 199));
    set(&rt, alloc, &lock, &mut seat, (5, "p", 257));
    set(&rt, alloc, &lock, &mut seat, (6, "q", 200));
    match lock.peek(&rt, alloc, &mut seat) {
        Ok(
            Peek {
                table_info: _,
                infos,
            },
        ) => {
            assert!(rt; infos.len() == 1);
            assert_eq!(rt; infos.at(0).value().fs_limit, 200);
        }
        Err(_) => panic!(rt; "no memory for a look"),
    }
    let log = quiet_log(&rt, lock, seat, 1);
    assert_eq!(rt; log.len(), 18);
    assert_eq!(rt; answer(&rt, &log, 2), (0, Some(true)));
    assert_eq!(rt; answer(&rt, &log, 3), (0, Some(false)));
    assert_eq!(rt; answer(&rt, &log, 4), (24, None));
    assert_eq!(rt; answer(&rt, &log, 5), (18, None));
    assert_eq!(rt; answer(&rt, &log, 6), (28, None));
}
