//! The engine's board while one of its pools that aren't started is out: the pool may come back, be started, or be known no more.
#![tactic(auto)]

mod lent;

pub use lent::{Lent, Loan, lend};
