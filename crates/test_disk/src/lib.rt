//! Racks, headers and slots.
#![tactic(auto)]

#[cfg(test)]
mod faults;
#[cfg(test)]
mod racks;
#[cfg(test)]
mod slots;
