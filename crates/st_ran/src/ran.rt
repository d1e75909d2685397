use st_board::EngineBoard;
use st_pool::PoolReply;
use st_rack::Rack;

/// The board after a call on all started pools and the board, and what the call is answered.
pub struct Ran<R: Rack> {
    pub board: EngineBoard<R>,
    pub answer: PoolReply,
}
