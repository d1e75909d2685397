// A pool is made under a ticket for all; and a caller does more with its seat while it holds its part.
ghost use Rattle.std.specs.Prelude.{◌≡◌};

use crate::creating::create_pool;
use crate::plain_lock::{PlainLock, PlainSeat};
use crate::staying::{close_and_give_back, join_and_give_back, look_and_give_back};
use crate::visits::{ask, check_of, creation_of, further, granted, new_lock, quiet_log, seen_by};
use st_book::{Event, Log};
use st_model::{Entry, Given, Origin};
use std::alloc::Global;
use std::process::Abort;
use std::sync::Wait;

/// Makes the pool on the one device, by this line.
pub fn create(
    rt: &(impl Wait + Abort),
    alloc: Global,
    lock: &PlainLock,
    seat: &mut PlainSeat,
    pool: &str,
    line: u64,
)
    requires here { seat.old.turn ≡ lock.now }
    ensures here { seat.new.turn ≡ lock.now }
{
    match create_pool(lock, rt, alloc, seat, creation_of(rt, alloc, pool), line) {
        Ok(()) => {}
        Err(_) => panic!(rt; "no memory for line {line}"),
    }
}

/// The entry of a release.
pub fn entry_at<'a>(rt: &impl Abort, log: &'a Log, place: usize) -> &'a Entry {
    assert!(rt; place < log.len());
    match log.at(place) {
        Event::Release(_, _, entries) => {
            assert_eq!(rt; entries.len(), 1);
            entries.at(0)
        }
        Event::Arrive(_, _, _) | Event::Grant(_, _) => panic!(rt; "event {place} is no release"),
    }
}

/// What a creation was answered: whether it made the pool, and then its serial and how many devices it has.
fn made(rt: &impl Abort, log: &Log, place: usize, line: u64) -> (bool, Option<(u64, usize)>) {
    let entry = entry_at(rt, log, place);
    assert!(rt; entry.from == Origin::Line(line));
    match &entry.reply.result {
        Some(Given::Created(changed, Some((serial, devices)))) => {
            (*changed, Some((serial.number(), devices.len())))
        }
        Some(Given::Created(changed, None)) => (*changed, None),
        _ => panic!(rt; "line {line} is answered with code {}", entry.reply.code),
    }
}

#[test]
fn a_pool_is_made_once(rt: HostRuntime) {
    let alloc = rt.alloc();
    let (lock, mut seat) = new_lock(&rt, alloc);
    create(&rt, alloc, &lock, &mut seat, "p", 1);
    create(&rt, alloc, &lock, &mut seat, "p", 2);
    create(&rt, alloc, &lock, &mut seat, "q", 3);
    let (free, next, pools) = seen_by(&rt, lock.peek(&rt, alloc, &mut seat));
    assert_eq!(rt; free, 0);
    assert_eq!(rt; next, 2);
    assert_eq!(rt; pools, 1);
    let log = quiet_log(&rt, lock, seat, 1);
    assert_eq!(rt; log.len(), 9);
    assert_eq!(rt; made(&rt, &log, 2, 1), (true, Some((1, 1))));
    assert_eq!(rt; made(&rt, &log, 5, 2), (false, None));
    assert_eq!(rt; entry_at(&rt, &log, 8).reply.code, 6);
}

#[test]
fn a_holder_looks_joins_and_tries_to_close(rt: HostRuntime) {
    let alloc = rt.alloc();
    let (lock, mut seat) = new_lock(&rt, alloc);
    let other = further(&rt, &lock, &mut seat);
    let asked = ask(&rt, &lock, alloc, &mut seat, check_of(&rt, alloc, "p"));
    let held = granted(&rt, &lock, &mut seat, asked);
    let shown = look_and_give_back(&lock, &rt, alloc, &mut seat, held);
    assert_eq!(rt; seen_by(&rt, shown), (1, 1, 0));
    let asked = ask(&rt, &lock, alloc, &mut seat, check_of(&rt, alloc, "p"));
    let held = granted(&rt, &lock, &mut seat, asked);
    let shown = join_and_give_back(&lock, &rt, alloc, &mut seat, other, held);
    assert_eq!(rt; seen_by(&rt, shown), (1, 1, 0));
    let asked = ask(&rt, &lock, alloc, &mut seat, check_of(&rt, alloc, "p"));
    let held = granted(&rt, &lock, &mut seat, asked);
    let (lock, seat) = close_and_give_back(lock, &rt, seat, held);
    assert_eq!(rt; quiet_log(&rt, lock, seat, 0).len(), 9);
}
