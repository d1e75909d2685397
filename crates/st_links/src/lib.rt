//! Doubly linked lists in one arena, linked by index.
#![tactic(auto)]

mod links;
mod nodes;

pub use links::Links;
