ghost use Rattle.std.specs.Prelude.{◌≡◌, []};

use st_history::Log;
use st_status::Status;
use std::alloc::Global;

/// What a run leaves: how it ended, the rack that it was handed, and the log of its lock.
#[derive(Drop)]
pub struct Outcome<R> {
    pub status: Status,
    pub rack: R,
    pub log: Log,
}

impl<R> Outcome<R> {
    /// A run in which no line was run.
    pub(crate) fn early(alloc: Global, status: Status, rack: R) -> Outcome<R>
        ensures status { result.status ≡ status }
        ensures rack { result.rack ≡ rack }
        ensures log { result.log.items ≡ [] }
    {
        Outcome {
            status,
            rack,
            log: Log::make(alloc),
        }
    }
}
