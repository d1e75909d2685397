// A book that every thread signs: the numbers of the seats that had a turn.
ghost use Rattle.std.specs.Prelude.{◌≡◌, [], false, All};

use st_turn::{Logged, Turn, TurnSeat, Vacant};
use std::alloc::Global;
use std::sync::{Barrier, Wait};
use std::thread;
use std::thread::Threads;

/// The seats that had a turn, in order.
#[derive(Drop)]
struct Roll {
    seats: Vec<u64>,
}

impl Logged for Roll {
    type Event = u64;

    type Opening = ();

    ghost events = { λ roll. roll.seats.items };

    ghost by = { λ seat. seat };

    ghost opens = { λ roll. tt };

    ghost fits = { λ roll opening. Unit {0} };
}

/// Signs once, where there is memory for it.
fn sign(rt: &impl Wait, turn: &Turn<Roll>, seat: &mut TurnSeat<Roll>)
    requires here { seat.old.turn ≡ turn.now }
    requires out { seat.old.is_in ≡ false }
    ensures here { seat.new.turn ≡ turn.now }
    ensures out { seat.new.is_in ≡ false }
{
    let mut roll = turn.take(rt, seat);
    match roll.seats.push(seat.number()) {
        Ok(()) => turn.put(seat, roll),
        Err(_) => turn.put(seat, roll),
    }
}

/// Signs so often.
fn sign_often(rt: &impl Wait, turn: &Turn<Roll>, seat: &mut TurnSeat<Roll>, times: u64)
    requires here { seat.old.turn ≡ turn.now }
    requires out { seat.old.is_in ≡ false }
    ensures here { seat.new.turn ≡ turn.now }
    ensures out { seat.new.is_in ≡ false }
{
    for _ in 0..times {
        sign(rt, turn, seat);
    }
}

/// Signs so often, once every thread has begun.
fn sign_from(
    rt: &impl Wait,
    start: &Barrier,
    turn: &Turn<Roll>,
    seat: &mut TurnSeat<Roll>,
    times: u64,
)
    requires here { seat.old.turn ≡ turn.now }
    requires out { seat.old.is_in ≡ false }
    ensures here { seat.new.turn ≡ turn.now }
    ensures out { seat.new.is_in ≡ false }
{
    start.wait(rt);
    sign_often(rt, turn, seat, times)
}

/// So many further seats, or as many as there is memory for.
fn split_seats(
    alloc: Global,
    turn: &Turn<Roll>,
    one: &mut TurnSeat<Roll>,
    count: usize,
) -> Vec<TurnSeat<Roll>>
    requires here { one.old.turn ≡ turn.now }
    requires out { one.old.is_in ≡ false }
    ensures here { one.new.turn ≡ turn.now }
    ensures out { one.new.is_in ≡ false }
    ensures seats { All (λ seat. (seat.turn ≡ turn.now) × (seat.is_in ≡ false)) result.items }
{
    let mut seats = Vec::new(alloc);
    for _ in 0..count {
        if let Ok(seat) = turn.split(one) {
            if let Err(refused) = seats.push(seat) {
                turn.join(one, refused.value);
            }
        }
    }
    seats
}

/// Joins all seats into one.
fn join_seats(turn: &Turn<Roll>, one: &mut TurnSeat<Roll>, mut seats: Vec<TurnSeat<Roll>>)
    requires here { one.old.turn ≡ turn.now }
    requires out { one.old.is_in ≡ false }
    requires seats { All (λ seat. (seat.turn ≡ turn.now) × (seat.is_in ≡ false)) seats.items }
    ensures here { one.new.turn ≡ turn.now }
    ensures out { one.new.is_in ≡ false }
{
    while let Some(seat) = seats.pop() {
        turn.join(one, seat);
    }
    seats.destroy_empty();
}

/// Waits for good: for an outcome that does not come, since every seat was joined. The check follows no list of seats
/// through the threads, so it does not know that; and a turn that is still open can't be let go.
fn stop(rt: &impl Wait) -> ! {
    for _ in rt.forever() {}
    unreachable!()
}

/// Has each of so many threads sign so often, and gives the number of turns.
pub fn time_turns<R: Threads + Wait + Sync>(
    rt: &R,
    alloc: Global,
    threads: usize,
    times: u64,
) -> Option<usize> {
    let roll = Roll {
        seats: Vec::new(alloc),
    };
    let (turn, mut one) = Vacant::make(alloc).ok()?.fill(roll);
    let mut seats = split_seats(alloc, &turn, &mut one, threads);
    let count = seats.len().max(1);
    let start = Barrier::new(count);
    thread::for_each_mut(
        rt,
        &mut seats,
        count,
        &|_, seat| { sign_from(rt, &start, &turn, seat, times) },
    );
    join_seats(&turn, &mut one, seats);
    match turn.close(one) {
        Ok(roll) => Some(roll.seats.len()),
        Err(_) => stop(rt),
    }
}
