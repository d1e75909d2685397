//! Whole runs of the program's own call, over sources and sinks in memory.
#![tactic(auto)]

#[cfg(test)]
mod modes;
#[cfg(test)]
mod runs;
