//! The records of a pool, both ways: the largest, the least, and malformed neighbours.
#![tactic(auto)]

#[cfg(test)]
mod records;
