ghost use Rattle.std.specs.Prelude.{◌≡◌, ◌⊎◌, [], ◌+◌, ◌<◌, false, bytes_eq, IfSome, IsTrue, option_copied, Some, None};
ghost use Rattle.st_limits.specs.declared.TheConstants as limits;
ghost use Rattle.st_model.specs.declared.entry.Env.TheVariants.{After, Before};
ghost use Rattle.st_told.specs.Met.{IsEnding, IsMaking, IsMet};
ghost use Rattle.st_told.specs.Told.{AreFirst, AreLike};

use crate::alike::{are_first, are_like};
use st_books::Books;
use st_limits::MAX_COMMITS;
use st_model::{Call, Env};
use st_units::{Bytes, Name};
use std::alloc::Global;

/// What was met of a call in flight, or of none, where these books are found, and others are known: those before the call. None where they
/// could only be there by chance.
pub fn met(alloc: Global, call: Option<&Call>, known: &Books, books: &Books) -> Option<Env>
    ensures { IfSome result (λ env. IsMet (option_copied call.entry) known.now books.now env) }
{
    match call {
        None => still(known, books),
        Some(call) => met_in(alloc, call, known, books),
    }
}

/// So where no call is in flight.
fn still(known: &Books, books: &Books) -> Option<Env>
    ensures { IfSome result (λ env. IsMet None known.now books.now env) }
{
    if are_like(books, known, &known.rec.name, known.generation) {
        Some(Env::Plain)
    } else {
        None
    }
}

/// So where this call is.
fn met_in(alloc: Global, call: &Call, known: &Books, books: &Books) -> Option<Env>
    ensures { IfSome result (λ env. IsMet (Some call.now) known.now books.now env) }
{
    match call {
        Call::CreatePool { name, devices: _ } => made(books, name),
        Call::DestroyPool { name: _ } => unchanged(alloc, known, books),
        Call::RenamePool { name: _, new } => renamed(alloc, known, books, new),
        _ => None,
    }
}

/// The books are those that the making of a pool of this name leaves.
fn made(books: &Books, name: &Name) -> Option<Env>
    ensures { IfSome result (λ env. (env ≡ After) × AreFirst name.now books.now) }
{
    if are_first(books, name) {
        Some(Env::After)
    } else {
        None
    }
}

/// The books are those before the call.
fn unchanged(alloc: Global, known: &Books, books: &Books) -> Option<Env>
    ensures { IfSome result (λ env. (env ≡ Before []) × AreLike known.now.rec.name known.now.generation known.now books.now) }
{
    if are_like(books, known, &known.rec.name, known.generation) {
        Some(Env::Before(Bytes::make(alloc)))
    } else {
        None
    }
}

/// The books are those before a rename to this name, or those after it.
fn renamed(alloc: Global, known: &Books, books: &Books, new: &Name) -> Option<Env>
    ensures { IfSome result (λ env. ((env ≡ Before []) × AreLike known.now.rec.name known.now.generation known.now books.now)
        ⊎ ((env ≡ After) × (bytes_eq known.now.rec.name new.now ≡ false) × (known.now.generation < limits.MAX_COMMITS) × AreLike new.now (known.now.generation + 1) known.now books.now)) }
{
    if are_like(books, known, &known.rec.name, known.generation) {
        return Some(Env::Before(Bytes::make(alloc)));
    }
    if known.generation >= MAX_COMMITS {
        return None;
    }
    if known.rec.name.bytes() == new.bytes() {
        return None;
    }
    if are_like(books, known, new, known.generation + 1) {
        Some(Env::After)
    } else {
        None
    }
}

/// Whether this call makes a pool.
pub fn is_making(call: Option<&Call>) -> bool
    ensures { IsTrue result → IsMaking (option_copied call.entry) }
{
    match call {
        None => false,
        Some(call) => makes(call),
    }
}

fn makes(call: &Call) -> bool
    ensures { IsTrue result → IsMaking (Some call.now) }
{
    matches!(call, Call::CreatePool { .. })
}

/// Whether this call ends a pool with these books, by the commit of this generation.
pub fn is_ending(call: Option<&Call>, known: &Books, generation: u64) -> bool
    ensures { IsTrue result → IsEnding (option_copied call.entry) known.now generation }
{
    match call {
        None => false,
        Some(call) => ends(call, known, generation),
    }
}

fn ends(call: &Call, known: &Books, generation: u64) -> bool
    ensures { IsTrue result → IsEnding (Some call.now) known.now generation }
{
    match call {
        Call::DestroyPool { name: _ } => is_next(known.generation, generation),
        _ => false,
    }
}

/// Whether one more commit can be made, and this is its generation.
fn is_next(known: u64, generation: u64) -> bool
    ensures { IsTrue result → (known < limits.MAX_COMMITS) × (generation ≡ known + 1) }
{
    known < MAX_COMMITS && generation == known + 1
}
