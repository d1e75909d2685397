//! The turn of two threads.
#![tactic(auto)]

#[cfg(test)]
mod turn;
