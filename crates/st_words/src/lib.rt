//! The words of the command line, read by `clap` as one command with four options.
#![tactic(auto)]

mod command;
mod words;

pub use words::{RunMode, Words, WordsFault, read_words};
