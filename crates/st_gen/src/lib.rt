//! The generator of scripts: line by line from a number, for as many lanes as there are, with the aim that every line is
//! answered with code 0.
#![tactic(auto)]

mod draw;
mod line;

pub use line::{GEN_LINES, gen_line};
