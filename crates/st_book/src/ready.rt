// The memory that a book takes beforehand.
ghost use Rattle.std.specs.Prelude.{◌≡◌, ◌+◌, ◌*◌, ◌≤◌, length, vec_len, vec_capacity, IfOk, OnOk, OnErr};
ghost use Rattle.st_wants.specs.Lock.{start};

use crate::lent::Lent;
use crate::lists::{Lists, MOST_POOLS};
use crate::part::{Cells, InfoList};
use st_grants::Grants;
use st_history::Log;
use st_model::Cell;
use st_units::{NoMemory, RoomyList};
use std::alloc::Global;

/// The lists that a book begins with.
pub(crate) struct Rooms<C: Cell> {
    pub cells: Cells<C>,
    pub infos: InfoList<C::Info>,
    pub fresh: InfoList<C::Info>,
    pub grants: Grants,
}

/// Takes the memory that a book begins with.
pub(crate) fn make_rooms<C: Cell>(alloc: Global) -> Result<Rooms<C>, NoMemory>
    ensures cells { IfOk result (λ r. (length r.cells.items ≡ 0) × (16 ≤ r.cells.room)) }
    ensures infos { IfOk result (λ r. (length r.infos.items ≡ 0) × (16 ≤ r.infos.room)) }
    ensures fresh { IfOk result (λ r. (length r.fresh.items ≡ 0) × (16 ≤ r.fresh.room)) }
    ensures grants { IfOk result (λ r. r.grants ≡ start) }
{
    let infos = InfoList::with_room(alloc, MOST_POOLS)?;
    let fresh = InfoList::with_room(alloc, MOST_POOLS)?;
    let grants = Grants::make(alloc)?;
    let cells = Cells::with_room(alloc, MOST_POOLS)?;
    Ok(Rooms {
        cells,
        infos,
        fresh,
        grants,
    })
}

/// How many events are to come of so many tickets and of one that arrives.
fn events_for(tickets: usize) -> Result<usize, NoMemory>
    ensures { IfOk result (λ n. n ≡ 2 * tickets + 3) }
{
    match tickets.checked_mul(2) {
        Some(twice) => twice.checked_add(3).ok_or(NoMemory),
        None => Err(NoMemory),
    }
}

/// Takes the memory that one more ticket needs until its release.
pub(crate) fn make_room<C: Cell>(
    alloc: Global,
    log: &mut Log,
    spares: &mut RoomyList<Lists<C>>,
    lent: &mut Vec<Lent>,
    tickets: usize,
) -> Result<(), NoMemory>
    ensures log { log.new.items ≡ log.old.items }
    ensures log_kept { OnErr result (log.old.room ≤ log.new.room) }
    ensures log_room { OnOk result (2 * tickets + 3 ≤ log.new.room) }
    ensures spares { OnOk result (length spares.new.items ≡ length spares.old.items + 1) }
    ensures spares_kept { length spares.old.items ≤ length spares.new.items }
    ensures lent { lent.new.items ≡ lent.old.items }
    ensures lent_kept { vec_capacity lent.old ≤ vec_capacity lent.new }
    ensures lent_room { OnOk result (length spares.new.items + vec_len lent.new ≤ vec_capacity lent.new) }
{
    log.reserve(events_for(tickets)?)?;
    lent.reserve(spares.len().saturating_add(1))?;
    let lists = Lists::make(alloc)?;
    match spares.push(lists) {
        Ok(()) => Ok(()),
        Err((lists, refused)) => {
            lists.finish();
            Err(refused)
        }
    }
}

/// Lets the lists go that no ticket will use.
pub(crate) fn let_go<C: Cell>(spares: RoomyList<Lists<C>>) {
    let mut spares = spares;
    for _ in 0..spares.len() {
        spares.take_at(0).finish();
    }
    spares.finish();
}
