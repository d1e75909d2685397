ghost use Rattle.std.specs.Prelude.{◌≡◌, ◌<◌, ◌^◌, ◌-◌, ◌↔◌, IfErr, IfOk, IfSome, IfNone, IsSomeAnd, IsSome, IsTrue, OnErr, OnOk, [], Some, length};
ghost use Rattle.st_grants.specs.Order.{IsLeastTicket};
ghost use Rattle.st_wants.specs.Lock.{IsFree, IsLeastBlocker, IsLive, IsWaiting, arrived, granted, released, row_at, start};

use crate::rows::{find_blocker, find_row, mark, remove_row};
use st_units::NoMemory;
use st_wants::{LockRow, Want};
use std::alloc::Global;
use std::marker::Model;

/// The tickets that arrived and aren't released. Contracts see them as the `Lock` of the rule, with
/// the number of arrivals.
#[derive(Drop)]
pub struct Grants {
    next: u64,
    /// In order of arrival; a released ticket leaves, so no call looks at more than the tickets
    /// that wait or are granted.
    rows: Vec<LockRow>,
}

impl Model for Grants {
    ghost use Rattle.st_wants.specs.Lock.{Lock};
    ghost use Rattle.st_grants.specs.Order.{IsOrdered};

    ghost Value = { Lock };

    ghost view = { λ g. record { next = g.next; rows = g.rows.items } };

    ghost invariant = { λ g. IsOrdered g.rows.items g.next };
}

impl Grants {
    /// No ticket has arrived.
    pub fn make(alloc: Global) -> Result<Grants, NoMemory>
        ensures { IfOk result (λ g. g ≡ start) }
    {
        Ok(Grants {
            next: 0,
            rows: Vec::new(alloc),
        })
    }

    /// The number of arrivals, which is the ticket of the next.
    pub fn arrivals(&self) -> u64
        ensures { result ≡ self.now.next }
    {
        self.next
    }

    /// How many tickets arrived and aren't released.
    pub fn outstanding(&self) -> usize
        ensures { result ≡ length self.now.rows }
    {
        self.rows.len()
    }

    /// A new ticket for the want. It waits until it is granted. Refused for want of memory alone,
    /// with the want handed back.
    pub fn arrive(&mut self, seat: u64, want: Want) -> Result<u64, (Want, NoMemory)>
        requires { self.old.next < 2 ^ 64 - 1 }
        ensures ticket { IfOk result (λ t. t ≡ self.old.next) }
        ensures ok { OnOk result (self.new ≡ arrived seat want self.old) }
        ensures back { IfErr result (λ e. e.0 ≡ want) }
        ensures err { OnErr result (self.new ≡ self.old) }
    {
        let ticket = self.next;
        let row = LockRow {
            ticket,
            seat,
            want,
            live: false,
        };
        match self.rows.push(row) {
            Ok(()) => {
                self.next = ticket + 1;
                Ok(ticket)
            }
            Err(refused) => {
                let LockRow { want, .. } = refused.value;
                Err((want, NoMemory))
            }
        }
    }

    /// Ok where no ticket keeps this one back, or else the least that does: one that is live or
    /// came earlier, and whose want conflicts.
    pub fn can_grant(&self, ticket: u64) -> Result<(), u64>
        requires { IsWaiting self.now ticket }
        ensures ok { OnOk result (IsFree self.now ticket) }
        ensures err { IfErr result (IsLeastBlocker self.now ticket) }
    {
        match find_blocker(&self.rows, self.row(ticket)) {
            Some(blocker) => Err(blocker.ticket),
            None => Ok(()),
        }
    }

    /// Makes a waiting ticket live that no ticket keeps back.
    pub fn grant(&mut self, ticket: u64)
        requires waiting { IsWaiting self.old ticket }
        requires free { IsFree self.old ticket }
        ensures { self.new ≡ granted ticket self.old }
    {
        mark(&mut self.rows, ticket);
    }

    /// Ends a live ticket.
    pub fn release(&mut self, ticket: u64)
        requires { IsLive self.old ticket }
        ensures { self.new ≡ released ticket self.old }
    {
        remove_row(&mut self.rows, ticket);
    }

    /// Whether the ticket arrived and isn't granted yet.
    pub fn is_waiting(&self, ticket: u64) -> bool
        ensures { IsTrue result ↔ IsWaiting self.now ticket }
    {
        match find_row(&self.rows, ticket) {
            Some(row) => !row.live,
            None => false,
        }
    }

    /// Whether the ticket is granted and isn't released yet.
    pub fn is_live(&self, ticket: u64) -> bool
        ensures { IsTrue result ↔ IsLive self.now ticket }
    {
        match find_row(&self.rows, ticket) {
            Some(row) => row.live,
            None => false,
        }
    }

    /// The least ticket that isn't released, if there is one.
    pub fn unreleased(&self) -> Option<u64>
        ensures none { IfNone result (self.now.rows ≡ []) }
        ensures some { IfSome result (IsLeastTicket self.now.rows) }
    {
        match self.rows.first() {
            Some(row) => Some(row.ticket),
            None => None,
        }
    }

    /// The seat that a ticket which isn't released arrived by.
    pub fn seat(&self, ticket: u64) -> u64
        requires { IsSome (row_at ticket self.now.rows) }
        ensures { IfSome (row_at ticket self.now.rows) (λ r. result ≡ r.seat) }
    {
        self.row(ticket).seat
    }

    /// The want of a ticket that isn't released.
    pub fn want(&self, ticket: u64) -> &Want
        requires { IsSome (row_at ticket self.now.rows) }
        ensures { IfSome (row_at ticket self.now.rows) (λ r. result.now ≡ r.want) }
    {
        &self.row(ticket).want
    }

    fn row(&self, ticket: u64) -> &LockRow
        requires { IsSome (row_at ticket self.now.rows) }
        ensures { row_at ticket self.now.rows ≡ Some result.now }
    {
        match find_row(&self.rows, ticket) {
            Some(row) => row,
            None => unreachable!(),
        }
    }
}
