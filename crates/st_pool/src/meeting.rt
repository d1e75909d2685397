ghost use Rattle.std.specs.Prelude.{IfSome, IsTrue, option_copied};
ghost use Rattle.st_pool.specs.inner.Wakings.{IsEnded, IsTold, IsUnmade};

use crate::flight::Flight;
use st_books::Books;
use st_model::Env;
use st_told::{is_ending, is_making};
use std::alloc::Global;

/// What a start met that found these books, by what is known of the pool; none where they could only be there by chance.
pub fn met(alloc: Global, flight: Option<&Flight>, books: &Books) -> Option<Env>
    ensures { IfSome result (λ env. IsTold (option_copied flight.entry) books.now env) }
{
    match flight {
        None => Some(Env::Plain),
        Some(flight) => st_told::met(alloc, flight.call.as_ref(), &flight.books, books),
    }
}

/// Whether the pool's making is in flight.
pub fn is_unmade(flight: Option<&Flight>) -> bool
    ensures { IsTrue result → IsUnmade (option_copied flight.entry) }
{
    match flight {
        None => false,
        Some(flight) => is_making(flight.call.as_ref()),
    }
}

/// Whether the pool's end is in flight, with this as the commit that makes it.
pub fn ends(flight: Option<&Flight>, generation: u64) -> bool
    ensures { IsTrue result → IsEnded (option_copied flight.entry) generation }
{
    match flight {
        None => false,
        Some(flight) => is_ending(flight.call.as_ref(), &flight.books, generation),
    }
}
