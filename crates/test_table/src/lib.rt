//! The two tables: that of the pools, and that of a pool's filesystems. Each call once, on worked rows.
#![tactic(auto)]

#[cfg(test)]
mod changes;
#[cfg(test)]
mod filesystems;
#[cfg(test)]
mod pools;
#[cfg(test)]
mod texts;
