use st_model::{Env, Reply};

/// What an operation on a pool is answered.
#[derive(Drop)]
pub struct PoolReply {
    pub reply: Reply,
    /// The same reply once more, of memory that was taken before the first device call.
    pub twin: Reply,
    /// What the operation met.
    pub env: Env,
    /// The pool is to be checked.
    pub low: bool,
}
