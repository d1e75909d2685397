// The proved lock, over plain cells: each thread has a seat.
ghost use Rattle.std.specs.Prelude.{◌≡◌, All};

use crate::pace::{Pace, Shape};
use st_lock::{AllOrSome, Seat, Shut};
use st_model::{Board, Cell};
use std::alloc::Global;
use std::sync::Wait;
use std::thread;
use std::thread::Threads;
use std::time::{Clock, Instant};
use test_lock::lanes::{join_seats, split_seats};
use test_lock::plain_lock::{PlainLock, PlainSeat, open};
use test_lock::refusing::run_refused;

/// The rounds of one thread. Where memory is refused a round is left out.
fn run_rounds<C: Cell, T: Board>(
    rt: &impl Wait,
    alloc: Global,
    lock: &AllOrSome<C, T>,
    seat: &mut Seat<C, T>,
    shape: &Shape,
    thread: usize,
)
    requires here { seat.old.turn ≡ lock.now }
    ensures here { seat.new.turn ≡ lock.now }
{
    for line in 0..shape.times {
        if let Some(call) = shape.call(alloc, thread) {
            match run_refused(lock, rt, alloc, seat, call, line) {
                Ok(()) | Err(_) => {}
            }
        }
    }
}

/// A thread for each seat.
fn run_side_by_side<R: Threads + Wait + Sync, C: Cell + Send, T: Board + Send>(
    rt: &R,
    alloc: Global,
    lock: &AllOrSome<C, T>,
    seats: &mut [Seat<C, T>],
    shape: &Shape,
)
where
    C::Info: Send + Sync,
    T::Info: Send + Sync,
    requires here { All (λ seat. seat.turn ≡ lock.now) seats.old }
    ensures here { All (λ seat. seat.turn ≡ lock.now) seats.new }
{
    let count = seats.len().max(1);
    thread::for_each_mut(
        rt,
        seats,
        count,
        &|thread, seat| -> ()
            requires { seat.old.turn ≡ lock.now }
        { run_rounds(rt, alloc, lock, seat, shape, thread) },
    );
}

/// Waits for good: for an outcome that does not come, since every seat was joined and every ticket released. The check
/// follows no list of seats through the threads, so it does not know that; and a lock that is open can't be let go.
fn stop(rt: &impl Wait) -> ! {
    for _ in rt.forever() {}
    unreachable!()
}

/// How many rounds a lock had, told by its log.
fn rounds_of(rt: &impl Wait, lock: PlainLock, seat: PlainSeat) -> usize
    requires { seat.turn ≡ lock }
{
    match lock.close(seat) {
        Shut::Quiet(_table, _cells, log) => log.len() / 3,
        Shut::Unjoined(_lock, _seat, _others) => stop(rt),
        Shut::Left(_lock, _seat, _ticket) => stop(rt),
    }
}

/// Has each thread run its rounds.
pub fn time_rounds<R: Threads + Wait + Clock + Sync>(
    rt: &R,
    alloc: Global,
    shape: &Shape,
) -> Option<Pace> {
    let (lock, mut one) = open(alloc).ok()?;
    let mut seats = split_seats(alloc, &lock, &mut one, shape.threads);
    let start = Instant::now(rt);
    run_side_by_side(rt, alloc, &lock, &mut seats, shape);
    let end = Instant::now(rt);
    join_seats(&lock, &mut one, seats);
    let rounds = rounds_of(rt, lock, one);
    Some(Pace::between(start.ok()?, end.ok()?, rounds))
}
