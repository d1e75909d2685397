//! What the devices of a rack say of one pool, judged on plain looks: no pool, a pool that is gone, one that lacks a device, one whose
//! log is to be read, or a broken rule.
#![tactic(auto)]

mod candidates;
mod judging;
mod placing;
mod rows;
mod spelled;

pub use judging::{Verdict, judge};
pub use rows::{FoundList, FoundRow, GoneList, GoneRow};
