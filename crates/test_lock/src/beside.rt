// The lock in two threads, whose lines all want one pool.
ghost use Rattle.std.specs.Prelude.{◌≡◌, ◌∷◌, ◌++◌, [], All};

use crate::ending::{Side, Work, end_apart, join_sides};
use crate::lanes::{join_seats, split_seats};
use crate::refusing::run_refused;
use crate::visits::{ask, check_of, further, granted, kept_back, new_lock, quiet_log};
use st_book::{Event, Log};
use st_lock::{AllOrSome, Seat};
use st_model::{Board, Cell, Origin};
use std::alloc::Global;
use std::process::Abort;
use std::sync::Wait;
use std::test::Fail;
use std::thread;
use std::thread::Threads;

// How many lines each thread runs.
const LINES: u64 = 100;

/// Runs the lines of one thread.
fn run_lines<C: Cell, T: Board>(
    rt: &(impl Wait + Abort),
    alloc: Global,
    lock: &AllOrSome<C, T>,
    seat: &mut Seat<C, T>,
)
    requires here { seat.old.turn ≡ lock.now }
    ensures here { seat.new.turn ≡ lock.now }
{
    for line in 0..LINES {
        let call = check_of(rt, alloc, "p");
        if let Err(_) = run_refused(lock, rt, alloc, seat, call, line) {
            panic!(rt; "no memory for line {line}");
        }
    }
}

/// A thread for each seat.
fn run_side_by_side<R: Threads + Wait + Abort + Sync, C: Cell + Send, T: Board + Send>(
    rt: &R,
    alloc: Global,
    lock: &AllOrSome<C, T>,
    seats: &mut [Seat<C, T>],
)
where
    C::Info: Send + Sync,
    T::Info: Send + Sync,
    requires here { All (λ seat. seat.turn ≡ lock.now) seats.old }
    ensures here { All (λ seat. seat.turn ≡ lock.now) seats.new }
{
    let count = seats.len().max(1);
    thread::for_each_mut(
        rt,
        seats,
        count,
        &|_, seat| -> ()
            requires { seat.old.turn ≡ lock.now }
        { run_lines(rt, alloc, lock, seat) },
    );
}

/// The lines whose calls the seat released, in the order of the log.
fn lines_of(rt: &impl Abort, alloc: Global, log: &Log, seat: u64) -> Result<Vec<u64>, Fail> {
    let mut lines = Vec::new(alloc);
    for event in log.items() {
        if let Event::Release(by, _, entries) = event {
            assert_eq!(rt; entries.len(), 1);
            if let Origin::Line(line) = entries.at(0).from {
                if *by == seat {
                    lines.push(line)?;
                }
            }
        }
    }
    Ok(lines)
}

#[test]
fn two_threads_run_their_lines_in_order(rt: HostRuntime) -> Result<(), Fail> {
    let alloc = rt.alloc();
    let (lock, mut one) = new_lock(&rt, alloc);
    let mut seats = split_seats(alloc, &lock, &mut one, 2);
    let threads = seats.len();
    run_side_by_side(&rt, alloc, &lock, &mut seats);
    join_seats(&lock, &mut one, seats);
    let log = quiet_log(&rt, lock, one, 0);
    assert_eq!(rt; threads, 2);
    assert_eq!(rt; log.len(), 600);
    for seat in 1..3 {
        let lines = lines_of(&rt, alloc, &log, seat)?;
        assert_eq!(rt; lines.len(), 100, "lines of seat {seat}");
        for (place, line) in lines.iter().enumerate() {
            assert_eq!(rt; *line, place as u64, "place {place} of seat {seat}");
        }
    }
    Ok(())
}

/// One more side.
fn put<C: Cell, T: Board>(rt: &impl Abort, sides: &mut Vec<Side<C, T>>, side: Side<C, T>)
    ensures { sides.new.items ≡ sides.old.items ++ side ∷ [] }
{
    match sides.push(side) {
        Ok(()) => {}
        Err(_refused) => panic!(rt; "no memory for a side"),
    }
}

#[test]
fn a_guard_and_a_waiting_ticket_end_in_other_threads(rt: HostRuntime) {
    let alloc = rt.alloc();
    let (lock, mut last) = new_lock(&rt, alloc);
    let mut one = further(&rt, &lock, &mut last);
    let mut two = further(&rt, &lock, &mut last);
    let zeroth = ask(&rt, &lock, alloc, &mut one, check_of(&rt, alloc, "p"));
    let first = ask(&rt, &lock, alloc, &mut two, check_of(&rt, alloc, "p"));
    let zeroth = granted(&rt, &lock, &mut one, zeroth);
    let first = kept_back(&rt, &lock, &mut two, first, 0);
    let mut sides = Vec::new(alloc);
    put(
        &rt,
        &mut sides,
        Side {
            seat: one,
            work: Work::Held(zeroth),
        },
    );
    put(
        &rt,
        &mut sides,
        Side {
            seat: two,
            work: Work::Asked(first),
        },
    );
    end_apart(&rt, &lock, &mut sides);
    join_sides(&lock, &mut last, sides);
    assert_eq!(rt; quiet_log(&rt, lock, last, 0).len(), 6);
}
