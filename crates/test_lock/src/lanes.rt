//! A seat for each of several threads.
ghost use Rattle.std.specs.Prelude.{◌≡◌, All};

use st_lock::{AllOrSome, Seat};
use st_model::{Board, Cell};
use std::alloc::Global;

/// So many further seats, or as many as there is memory for.
pub fn split_seats<C: Cell, T: Board>(
    alloc: Global,
    lock: &AllOrSome<C, T>,
    one: &mut Seat<C, T>,
    count: usize,
) -> Vec<Seat<C, T>>
    requires here { one.old.turn ≡ lock.now }
    ensures here { one.new.turn ≡ lock.now }
    ensures seats { All (λ seat. seat.turn ≡ lock.now) result.items }
{
    let mut seats = Vec::new(alloc);
    for _ in 0..count {
        if let Ok(seat) = lock.split(one) {
            if let Err(refused) = seats.push(seat) {
                lock.join(one, refused.value);
            }
        }
    }
    seats
}

/// Joins all seats into one.
pub fn join_seats<C: Cell, T: Board>(
    lock: &AllOrSome<C, T>,
    one: &mut Seat<C, T>,
    mut seats: Vec<Seat<C, T>>,
)
    requires here { one.old.turn ≡ lock.now }
    requires seats { All (λ seat. seat.turn ≡ lock.now) seats.items }
    ensures here { one.new.turn ≡ lock.now }
{
    while let Some(seat) = seats.pop() {
        lock.join(one, seat);
    }
    seats.destroy_empty();
}
