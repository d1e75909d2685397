//! Tiers, lists, the cache map and growth, on worked rows.
#![tactic(auto)]

#[cfg(test)]
mod cache;
#[cfg(test)]
mod tiers;
