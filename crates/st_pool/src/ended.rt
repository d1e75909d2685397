use crate::pool::Pool;
use crate::reply::PoolReply;
use st_rack::Rack;

/// What became of a pool that was to end.
pub enum Ended<R: Rack> {
    /// It is gone; the rack has its devices, which are free.
    Gone(R),
    /// Nothing was changed, and so it is answered.
    Kept(Pool<R>, PoolReply),
    /// A device failed; the pool is down.
    Broken(Pool<R>),
}
