//! Commits of a pool on its devices: which sectors change, what a changed bit and a stop leave, and the newest read again.
#![tactic(auto)]

#[cfg(test)]
mod commits;
#[cfg(test)]
mod parts;
#[cfg(test)]
mod site;
