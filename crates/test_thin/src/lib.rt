//! Tests of the thin layer: the map of blocks to cells, on rows that were worked out by hand.
#![tactic(auto)]

mod maps;
