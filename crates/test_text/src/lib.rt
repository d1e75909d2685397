//! The words, the lines of an input, and what each line is read as.
#![tactic(auto)]

#[cfg(test)]
mod calls;
#[cfg(test)]
mod lines;
#[cfg(test)]
mod words;
