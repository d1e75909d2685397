ghost use Rattle.std.specs.Prelude.{◌≡◌, ◌∷◌, ◌++◌, []};
ghost use Rattle.st_book.specs.Noted.{numbers};

use st_history::Event;
use std::mem;
use std::snapshot::Snapshot;

/// The numbers of faults with which parts went out, the newest first, none ever forgotten. Only
/// clauses read it, and it takes no memory.
#[derive(Drop)]
pub enum Notes {
    Start,
    Then(u64, Snapshot<Notes>),
}

/// An event, and, if it is a grant, the number of faults that its part had. No value of it is made.
#[derive(Drop)]
pub struct Noted {
    pub event: Event,
    pub faults: u64,
}

/// Nothing is noted.
pub(crate) fn no_notes() -> Snapshot<Notes>
    ensures { numbers result.value ≡ [] }
{
    Snapshot::of(&Notes::Start)
}

/// Notes the number of one more grant.
pub(crate) fn note(notes: &mut Snapshot<Notes>, faults: u64)
    ensures { numbers notes.new.value ≡ numbers notes.old.value ++ faults ∷ [] }
{
    let before = mem::replace(notes, Snapshot::of(&Notes::Start));
    let next = Notes::Then(faults, before);
    *notes = Snapshot::of(&next);
}
