//! What seats have left to end: a guard to give back, or a ticket that waits. Each may end in another thread than the one
//! that got it.
ghost use Rattle.std.specs.Prelude.{◌≡◌, All};
ghost use Rattle.test_lock.specs.Ending.{IsEnded, IsReady, MayEnd};

use crate::refusing::{Running, Waiting, give_back, wait};
use st_lock::{AllOrSome, Seat};
use st_model::{Board, Cell};
use std::sync::Wait;
use std::thread::Threads;
use std::{mem, thread};

/// What a seat has left to end.
pub enum Work<C: Cell, T: Board> {
    Held(Running<C, T>),
    Asked(Waiting),
    Done,
}

/// A seat with what it has left to end.
pub struct Side<C: Cell, T: Board> {
    pub seat: Seat<C, T>,
    pub work: Work<C, T>,
}

/// Gives back what the seat holds, or waits for its ticket's grant and gives that back.
fn end_work<C: Cell, T: Board>(rt: &impl Wait, lock: &AllOrSome<C, T>, side: &mut Side<C, T>)
    requires here { side.old.seat.turn ≡ lock.now }
    requires may { MayEnd C.state T.stands T.slack C.fault_count T.fault_count C.is_kept T.is_kept side.old.seat side.old.work }
    ensures here { side.new.seat.turn ≡ lock.now }
    ensures done { side.new.work ≡ Work.Done }
{
    match mem::replace(&mut side.work, Work::Done) {
        Work::Held(running) => give_back(lock, rt, &mut side.seat, running),
        Work::Asked(waiting) => {
            let running = wait(lock, rt, &mut side.seat, waiting);
            give_back(lock, rt, &mut side.seat, running);
        }
        Work::Done => {}
    }
}

/// Ends what the side has left.
fn end_side<C: Cell, T: Board>(rt: &impl Wait, lock: &AllOrSome<C, T>, side: &mut Side<C, T>)
    requires { IsReady C.state T.stands T.slack C.fault_count T.fault_count C.is_kept T.is_kept lock.now side.old.seat side.old.work }
    ensures { IsEnded lock.now side.new.seat side.new.work }
{
    end_work(rt, lock, side);
}

/// Ends what each side has left, each in a thread of its own.
pub fn end_apart<R: Threads + Wait + Sync, C: Cell + Send, T: Board + Send>(
    rt: &R,
    lock: &AllOrSome<C, T>,
    sides: &mut [Side<C, T>],
)
where
    C::Info: Send + Sync,
    T::Info: Send + Sync,
    requires ready { All (λ side. IsReady C.state T.stands T.slack C.fault_count T.fault_count C.is_kept T.is_kept lock.now side.seat side.work) sides.old }
    ensures ended { All (λ side. IsEnded lock.now side.seat side.work) sides.new }
{
    let count = sides.len().max(1);
    thread::for_each_mut(
        rt,
        sides,
        count,
        &|_, side| -> ()
            requires { IsReady C.state T.stands T.slack C.fault_count T.fault_count C.is_kept T.is_kept lock.now side.old.seat side.old.work }
            ensures { IsEnded lock.entry.now side.new.seat side.new.work }
        { end_side(rt, lock, side) },
    );
}

/// Joins the seat of a side that has nothing left.
fn join_side<C: Cell, T: Board>(lock: &AllOrSome<C, T>, one: &mut Seat<C, T>, side: Side<C, T>)
    requires here { one.old.turn ≡ lock.now }
    requires ended { IsEnded lock.now side.seat side.work }
    ensures here { one.new.turn ≡ lock.now }
{
    let Side { seat, work } = side;
    match work {
        Work::Done => lock.join(one, seat),
        Work::Held(_running) => unreachable!(),
        Work::Asked(_waiting) => unreachable!(),
    }
}

/// Joins the seats of all sides into one.
pub fn join_sides<C: Cell, T: Board>(
    lock: &AllOrSome<C, T>,
    one: &mut Seat<C, T>,
    mut sides: Vec<Side<C, T>>,
)
    requires here { one.old.turn ≡ lock.now }
    requires ended { All (λ side. IsEnded lock.now side.seat side.work) sides.items }
    ensures here { one.new.turn ≡ lock.now }
{
    while let Some(side) = sides.pop() {
        join_side(lock, one, side);
    }
    sides.destroy_empty();
}
