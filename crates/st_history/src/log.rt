use st_model::EntryList;
use st_units::RoomyList;
use st_wants::Want;

/// What happened to the lock: each event has its seat and its ticket.
#[derive(Drop)]
pub enum Event {
    Arrive(u64, u64, Want),
    Grant(u64, u64),
    /// With the entries of the calls that ran under the grant.
    Release(u64, u64, EntryList),
}

/// Events in order, with room.
pub type Log = RoomyList<Event>;
