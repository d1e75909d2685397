// The rule of the turn's table, and the kinds of step.
// The words are the next ticket, the ticket that is served, and how many numbers were dealt; the slot is the book's.
use crate::knowledge::Knowledge;
use crate::logged::Logged;
use atomic_table::{Join, Play, Split, TableRule};
use std::marker::PhantomData;

pub const TICKET: usize = 0;

pub const SERVING: usize = 1;

pub const DEALT: usize = 2;

pub struct TurnRule<B> {
    of: PhantomData<B>,
}

impl<B: Logged> TableRule<Option<B>, Knowledge<B::Event, B::Opening>, ()> for TurnRule<B> {
    ghost use Rattle.st_turn.specs.Ruling.{IsKept, blank_view};

    ghost holds = { λ k s. IsKept B.by B.events B.fits s };

    ghost first = { λ k. blank_view };
}

/// Draws a ticket, where nobody was faster.
pub struct Draw;

impl<B, E, O> Play<Option<B>, Knowledge<E, O>> for Draw {
    ghost use Rattle.st_turn.specs.Kinds.{Drew};

    ghost then = { Drew };
}

/// Has the book's slot, where the seat's ticket is served.
pub struct Enter<B> {
    of: PhantomData<B>,
}

impl<B: Logged> Play<Option<B>, Knowledge<B::Event, B::Opening>> for Enter<B> {
    ghost use Rattle.st_turn.specs.Kinds.{Enters};

    ghost then = { Enters B.by B.events B.fits };
}

/// Gives the slot back, with the book in it.
pub struct Leave<B> {
    of: PhantomData<B>,
}

impl<B: Logged> Play<Option<B>, Knowledge<B::Event, B::Opening>> for Leave<B> {
    ghost use Rattle.st_turn.specs.Kinds.{Leaves};

    ghost then = { Leaves B.events B.opens };
}

/// Draws the number for a further seat, where nobody was faster.
pub struct Number;

impl<B, E, O> Play<Option<B>, Knowledge<E, O>> for Number {
    ghost use Rattle.st_turn.specs.Kinds.{Numbered};

    ghost then = { Numbered };
}

/// Sees how many numbers were dealt, and whether all are the seat's.
pub struct Count;

impl<B, E, O> Play<Option<B>, Knowledge<E, O>> for Count {
    ghost use Rattle.st_turn.specs.Kinds.{Counted};

    ghost then = { Counted };
}

/// Has the book's slot without a ticket, as the only seat.
pub struct TakeLast<B> {
    of: PhantomData<B>,
}

impl<B: Logged> Play<Option<B>, Knowledge<B::Event, B::Opening>> for TakeLast<B> {
    ghost use Rattle.st_turn.specs.Kinds.{TakesLast};

    ghost then = { TakesLast B.by B.events B.fits };
}

/// Keeps the longer of what the seat and the one that it took in have seen.
pub struct Tell;

impl<B, E, O> Play<Option<B>, Knowledge<E, O>> for Tell {
    ghost use Rattle.st_turn.specs.Kinds.{Tells};

    ghost then = { Tells };
}

/// A new seat with the number that was drawn.
pub struct Halve;

impl<E, O> Split<Knowledge<E, O>> for Halve {
    ghost use Rattle.st_turn.specs.Kinds.{left_of, right_of};

    ghost left = { left_of };

    ghost right = { right_of };
}

/// One seat answers for what two answered for.
pub struct Unite;

impl<E, O> Join<Knowledge<E, O>> for Unite {
    ghost use Rattle.st_turn.specs.Kinds.{both_of};
    ghost use Rattle.st_turn.specs.Ruling.{spent_view};

    ghost both = { both_of };

    ghost spent = { spent_view };
}
