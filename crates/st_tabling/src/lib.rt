//! The table of the pools that were found on a rack, none of which is started.
#![tactic(auto)]

mod placing;

pub use placing::table_for;
