use st_deltalog::Tail;
use st_flexlog::{DeltaBody, FlexState};
use st_poolrec::PoolRec;
use st_units::Bytes;

/// The records of a started pool, as its last commit left them.
#[derive(Drop)]
pub struct Books {
    pub rec: PoolRec,
    /// What the log of its mappings says.
    pub flex: FlexState,
    /// The generation of the last commit.
    pub generation: u64,
    /// Where the next delta of the log goes.
    pub tail: Tail,
    /// The pool has made a commit since it was made or started.
    pub has_committed: bool,
}

/// The records of the next commit and their spellings, with the memory that it takes to write them.
#[derive(Drop)]
pub struct Next {
    pub rec: PoolRec,
    pub rec_text: Bytes,
    /// A delta that changes no mapping.
    pub delta: DeltaBody,
    /// The body of a checkpoint.
    pub body: Bytes,
    pub rec_work: Vec<u8>,
    pub delta_work: Vec<u8>,
    pub body_work: Vec<u8>,
}
