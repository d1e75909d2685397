//! The lock of one thread and of two, and callers of the whole.
#![tactic(auto)]

#[cfg(test)]
mod beside;
pub mod creating;
pub mod ending;
pub mod lanes;
#[cfg(test)]
mod limit;
#[cfg(test)]
mod lock;
#[cfg(test)]
mod made;
pub mod plain_lock;
pub mod refusing;
pub mod setting;
pub mod staying;
#[cfg(test)]
mod visits;
