//! Pools on two devices: what each call answers and writes, and what a stop at any write or sync leaves.
#![tactic(auto)]

#[cfg(test)]
mod again;
#[cfg(test)]
mod bytes;
#[cfg(test)]
mod calls;
#[cfg(test)]
mod site;
#[cfg(test)]
mod starts;
#[cfg(test)]
mod stops;
