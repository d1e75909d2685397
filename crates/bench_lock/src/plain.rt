// The plain lock: a Mutex, a Condvar, and a list of the tickets that aren't released. It keeps the log that the proved one keeps.
ghost use Rattle.std.specs.Prelude.{◌<◌, length, IfSome};
ghost use Rattle.st_model.specs.Sound.{IsSound};

use crate::pace::{Pace, Shape};
use st_book::{Event, Log};
use st_model::{Call, EntryList, want_of};
use st_wants::{Want, compatible};
use std::alloc::Global;
use std::sync::{Condvar, Mutex, Wait};
use std::thread;
use std::thread::Threads;
use std::time::{Clock, Instant};
use test_lock::refusing::refused_entry;

/// A ticket that isn't released.
#[derive(Drop)]
struct Row {
    ticket: u64,
    want: Want,
}

/// What lies under the Mutex; the rows in order of arrival.
#[derive(Drop)]
struct Desk {
    next: u64,
    rows: Vec<Row>,
    log: Log,
}

/// What a round has from its arrival to its release.
#[derive(Drop)]
struct Round {
    ticket: u64,
    entries: EntryList,
}

#[derive(Drop)]
struct Plain {
    desk: Mutex<Desk>,
    released: Condvar,
}

/// Where the ticket's row is.
fn place_of(rows: &[Row], ticket: u64) -> Option<usize>
    ensures { IfSome result (λ i. i < length rows.now) }
{
    for (i, row) in rows.iter().enumerate() {
        if row.ticket == ticket {
            return Some(i);
        }
    }
    None
}

/// Whether no earlier ticket is in the way of the one at this place.
fn is_free(rows: &[Row], place: usize) -> bool
    requires { place < length rows.now }
{
    for i in 0..place {
        if !compatible(&rows[i].want, &rows[place].want) {
            return false;
        }
    }
    true
}

impl Desk {
    /// Enters an arrival.
    fn enter(&mut self, seat: u64, want: Want, copy: Want) -> Option<u64> {
        let ticket = self.next;
        if let Err(_) = self.rows.push(Row { ticket, want: copy }) {
            return None;
        }
        match self.log.push(Event::Arrive(seat, ticket, want)) {
            Ok(()) => {
                self.next = ticket.wrapping_add(1);
                Some(ticket)
            }
            Err(_) => None,
        }
    }

    /// Enters a grant, where nothing is in the way.
    fn grant(&mut self, seat: u64, ticket: u64) -> bool {
        match place_of(&self.rows, ticket) {
            Some(place) => {
                is_free(&self.rows, place) && self.log.push(Event::Grant(seat, ticket)).is_ok()
            }
            None => false,
        }
    }

    /// Enters a release.
    fn leave(&mut self, seat: u64, ticket: u64, entries: EntryList) -> bool {
        if let Some(place) = place_of(&self.rows, ticket) {
            let _row = self.rows.remove(place);
        }
        self.log.push(Event::Release(seat, ticket, entries)).is_ok()
    }
}

impl Plain {
    fn make(alloc: Global) -> Plain {
        Plain {
            desk: Mutex::new(Desk {
                next: 0,
                rows: Vec::new(alloc),
                log: Log::make(alloc),
            }),
            released: Condvar::new(),
        }
    }

    fn arrive(&self, rt: &impl Wait, seat: u64, want: Want) -> Option<u64> {
        let Ok(copy) = want.copy() else {
            return None;
        };
        self.desk.lock(rt).enter(seat, want, copy)
    }

    fn acquire(&self, rt: &impl Wait, seat: u64, ticket: u64) {
        let mut desk = self.desk.lock(rt);
        for _ in rt.forever() {
            if desk.grant(seat, ticket) {
                return;
            }
            desk = self.released.wait(rt, desk);
        }
    }

    fn release(&self, rt: &impl Wait, seat: u64, ticket: u64, entries: EntryList) -> bool {
        let entered = self.desk.lock(rt).leave(seat, ticket, entries);
        self.released.notify_all();
        entered
    }

    /// The ticket of a call.
    fn ask(&self, rt: &impl Wait, seat: u64, call: &Call) -> Option<u64>
        requires { IsSound call.now }
    {
        match want_of(call) {
            Ok(want) => self.arrive(rt, seat, want),
            Err(_) => None,
        }
    }

    /// Takes the memory that the proved lock's caller takes, and arrives.
    fn begin(&self, rt: &impl Wait, alloc: Global, seat: u64, call: &Call) -> Option<Round>
        requires { IsSound call.now }
    {
        let Ok(entries) = EntryList::with_room(alloc, 1) else {
            return None;
        };
        match self.ask(rt, seat, call) {
            Some(ticket) => Some(Round { ticket, entries }),
            None => None,
        }
    }

    /// Waits for the grant, and releases with the call's entry.
    fn end(&self, rt: &impl Wait, seat: u64, round: Round, call: Call, line: u64) -> bool {
        let Round {
            ticket,
            mut entries,
        } = round;
        self.acquire(rt, seat, ticket);
        let entered = match entries.push(refused_entry(call, line)) {
            Ok(()) => true,
            Err(_) => false,
        };
        self.release(rt, seat, ticket, entries) && entered
    }

    /// One round. It tells whether the round was whole.
    fn run_round(&self, rt: &impl Wait, alloc: Global, seat: u64, call: Call, line: u64) -> bool
        requires { IsSound call }
    {
        match self.begin(rt, alloc, seat, &call) {
            Some(round) => self.end(rt, seat, round, call, line),
            None => false,
        }
    }

    /// The rounds of one thread.
    fn run_rounds(&self, rt: &impl Wait, alloc: Global, shape: &Shape, thread: usize) {
        for line in 0..shape.times {
            if let Some(call) = shape.call(alloc, thread) {
                let _whole = self.run_round(rt, alloc, thread as u64, call, line);
            }
        }
    }

    /// How many releases the log has, told by its length.
    fn rounds(&self, rt: &impl Wait) -> usize {
        self.desk.lock(rt).log.len() / 3
    }
}

/// Has each thread run its rounds.
pub fn time_rounds<R: Threads + Wait + Clock + Sync>(
    rt: &R,
    alloc: Global,
    shape: &Shape,
) -> Option<Pace> {
    let plain = Plain::make(alloc);
    let mut threads = Vec::new(alloc);
    for thread in 0..shape.threads {
        threads.push(thread).ok()?;
    }
    let count = threads.len().max(1);
    let start = Instant::now(rt).ok()?;
    thread::for_each_mut(
        rt,
        &mut threads,
        count,
        &|_, thread| { plain.run_rounds(rt, alloc, shape, *thread) },
    );
    let end = Instant::now(rt).ok()?;
    Some(Pace::between(start, end, plain.rounds(rt)))
}
