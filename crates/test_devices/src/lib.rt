//! Runs of the program's own call on devices that fail, that are too small, missing, or that come from two runs.
#![tactic(auto)]

#[cfg(test)]
mod faults;
#[cfg(test)]
mod may;
#[cfg(test)]
mod rows;
#[cfg(test)]
mod run;
#[cfg(test)]
mod site;
