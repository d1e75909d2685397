use crate::pool::Pool;
use st_rack::Rack;

/// What became of a pool that was to be made.
pub enum Made<R: Rack> {
    /// It is up.
    Ready(Pool<R>),
    /// A device failed. The pool is down, and whether its devices bear one shows when it is started.
    Broken(Pool<R>),
    /// Memory was refused. No device was called, and the rack is as it was.
    NoMemory(R),
}
