use crate::call::Call;
use crate::reply::Reply;
use st_units::{Bytes, RoomyList};

/// What a call met on its way.
#[derive(Drop)]
pub enum Env {
    /// Nothing that the rules of the calls don't tell.
    Plain,
    /// Memory was refused.
    NoMem,
    /// A device failed before the first write.
    FaultRead,
    /// A device failed from the first write on.
    FaultWrite,
    /// A start found the state after the call in flight.
    After,
    /// A start found the state before it, with these bytes in the sectors to be changed in place.
    Before(Bytes),
}

/// Who made a call.
#[derive(Clone, Copy, Debug, PartialEq, Eq)]
pub enum Origin {
    /// The line with this number, counted from 1.
    Line(u64),
    /// The event worker.
    Event,
    /// The engine itself, to make room for a write.
    Prepare,
    /// The closing.
    Close,
}

/// A call as it was run: what it met, who made it, and what it was answered.
#[derive(Drop)]
pub struct Entry {
    pub call: Call,
    pub env: Env,
    pub from: Origin,
    pub reply: Reply,
}

/// Entries in order, with room.
pub type EntryList = RoomyList<Entry>;
