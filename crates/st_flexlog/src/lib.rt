//! What the log of a pool's mappings says: a flex record, and the deltas of later commits.
//!
//! A delta tells what one commit changed in the mappings. `begin` gives the state that the body of a
//! checkpoint says, and `apply` and `follow` give what a delta makes of a state.
#![tactic(auto)]

mod applying;
mod delta;
pub mod laws;
mod mappings;
mod rows;
mod state;

pub use applying::{apply, begin, follow};
pub use delta::{DELTA_BYTES, Delta, DeltaBody, DeltaRow, decode, encode};
pub use state::{FlexState, Mapping, Mappings, state_of};
