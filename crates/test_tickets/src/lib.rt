//! Tickets by themselves: who waits for whom, and the book that lends what they hold.
#![tactic(auto)]

#[cfg(test)]
mod book;
#[cfg(test)]
mod grants;
