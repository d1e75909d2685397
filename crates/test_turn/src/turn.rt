// The turn, over a book that is a list of numbers, each with the seat that wrote it.
ghost use Rattle.std.specs.Prelude.{◌≡◌, [], false};
ghost use Rattle.test_turn.specs.WritesOnly.{WritesOnly};

use st_turn::{Logged, Turn, TurnSeat, Vacant};
use std::alloc::Global;
use std::process::Abort;
use std::sync::Wait;
use std::test::Fail;
use std::thread;
use std::thread::{Threads, join_mut};
use std::time::{Clock, Duration};

#[derive(Drop)]
struct Note {
    seat: u64,
    value: u64,
}

#[derive(Drop)]
struct NumberBook {
    title: u64,
    notes: Vec<Note>,
}

impl Logged for NumberBook {
    ghost use Rattle.std.specs.Prelude.{◌≡◌};

    type Event = Note;

    type Opening = u64;

    ghost events = { λ b. b.notes.items };

    ghost by = { λ e. e.seat };

    ghost opens = { λ b. b.title };

    ghost fits = { λ b o. b.title ≡ o };
}

const NOTES: u64 = 100;

/// Appends one number in a turn. It keeps the book for some milliseconds with each tenth, so that who waits for it
/// sleeps.
fn write_note(
    rt: &(impl Wait + Clock + Abort),
    turn: &Turn<NumberBook>,
    seat: &mut TurnSeat<NumberBook>,
    value: u64,
)
    requires here { seat.old.turn ≡ turn.now }
    requires out { seat.old.is_in ≡ false }
    ensures writes { WritesOnly seat.old seat.new }
    ensures out { seat.new.is_in ≡ false }
{
    let mut book = turn.take(rt, seat);
    if value % 10 == 0 {
        thread::sleep(rt, Duration::from_millis(3));
    }
    let note = Note {
        seat: seat.number(),
        value,
    };
    match book.notes.push(note) {
        Ok(()) => turn.put(seat, book),
        Err(_) => panic!(rt; "no memory for a note"),
    }
}

/// Appends the numbers from 0 on, one a turn.
fn write_all(
    rt: &(impl Wait + Clock + Abort),
    turn: &Turn<NumberBook>,
    seat: &mut TurnSeat<NumberBook>,
)
    requires here { seat.old.turn ≡ turn.now }
    requires out { seat.old.is_in ≡ false }
    ensures writes { WritesOnly seat.old seat.new }
    ensures out { seat.new.is_in ≡ false }
{
    for value in 0..NOTES {
        write_note(rt, turn, seat, value);
    }
}

/// Two threads, each with its own seat.
fn write_side_by_side<R: Threads + Wait + Clock + Abort + Copy + Sync>(
    rt: &R,
    turn: &Turn<NumberBook>,
    one: &mut TurnSeat<NumberBook>,
    other: &mut TurnSeat<NumberBook>,
)
    requires here { (one.old.turn ≡ turn.now) × (other.old.turn ≡ turn.now) }
    requires out { (one.old.is_in ≡ false) × (other.old.is_in ≡ false) }
    ensures writes { WritesOnly one.old one.new × WritesOnly other.old other.new }
    ensures out { (one.new.is_in ≡ false) × (other.new.is_in ≡ false) }
{
    let own = *rt;
    let mut first = || -> ()
        requires { (one.now.turn ≡ turn.now) × (one.now.is_in ≡ false) }
        ensures { WritesOnly one.entry.now one.exit.now × (one.exit.now.is_in ≡ false) }
    { write_all(&own, turn, one) };
    let mut second = || -> ()
        requires { (other.now.turn ≡ turn.now) × (other.now.is_in ≡ false) }
        ensures { WritesOnly other.entry.now other.exit.now × (other.exit.now.is_in ≡ false) }
    { write_all(rt, turn, other) };
    join_mut(rt, &mut first, &mut second);
}

fn empty_book(alloc: Global) -> NumberBook
    ensures { result.notes.items ≡ [] }
{
    NumberBook {
        title: 7,
        notes: Vec::new(alloc),
    }
}

/// The numbers of one seat, in the order of the book.
fn values_of(alloc: Global, book: &NumberBook, seat: u64) -> Result<Vec<u64>, Fail> {
    let mut values = Vec::new(alloc);
    for note in &book.notes {
        if note.seat == seat {
            values.push(note.value)?;
        }
    }
    Ok(values)
}

#[test]
fn two_threads_write_in_turn(rt: HostRuntime) -> Result<(), Fail> {
    let alloc = rt.alloc();
    let (turn, mut one) = Vacant::make(alloc)?.fill(empty_book(alloc));
    let Ok(mut other) = turn.split(&mut one) else {
        panic!(rt; "no second seat");
    };
    write_side_by_side(&rt, &turn, &mut one, &mut other);
    turn.join(&mut one, other);
    // Both seats only wrote, so the check knows that all seats are joined.
    let book = match turn.close(one) {
        Ok(book) => book,
        Err(_) => unreachable!(),
    };
    assert_eq!(rt; book.title, 7);
    assert_eq!(rt; book.notes.len(), 200);
    for seat in 0..2 {
        let values = values_of(alloc, &book, seat)?;
        assert_eq!(rt; values.len(), 100, "notes of seat {seat}");
        for (place, value) in values.iter().enumerate() {
            assert_eq!(rt; *value, place as u64, "place {place} of seat {seat}");
        }
    }
    Ok(())
}

#[test]
fn a_seat_that_is_not_joined_keeps_the_turn_open(rt: HostRuntime) -> Result<(), Fail> {
    let alloc = rt.alloc();
    let (turn, mut one) = Vacant::make(alloc)?.fill(empty_book(alloc));
    let Ok(other) = turn.split(&mut one) else {
        panic!(rt; "no second seat");
    };
    assert_eq!(rt; one.number(), 0);
    assert_eq!(rt; other.number(), 1);
    match turn.take_last(&mut one) {
        Ok(_) => panic!(rt; "the book was lent beside another seat"),
        Err(outstanding) => assert_eq!(rt; outstanding, 1),
    }
    let (turn, mut one) = match turn.close(one) {
        Ok(_) => panic!(rt; "the turn was closed beside another seat"),
        Err((turn, one, outstanding)) => {
            assert_eq!(rt; outstanding, 1);
            (turn, one)
        }
    };
    turn.join(&mut one, other);
    match turn.take_last(&mut one) {
        Ok(book) => turn.put(&mut one, book),
        Err(_) => unreachable!(),
    }
    match turn.close(one) {
        Ok(book) => assert_eq!(rt; book.notes.len(), 0),
        Err(_) => unreachable!(),
    }
    Ok(())
}
