//! Layouts that spread the tuples that are used together over the register arrays of the switch.
//!
//! A script that finds its tuples in different arrays needs fewer passes. This crate knows sessions and
//! their pass plans alone, and nothing of how a run goes. No layout here is claimed to be the best one.
#![tactic(auto)]

mod array_set;
mod arrays;
mod chosen;
mod columns;
mod greedy;
mod laws;
mod passes;
mod plain;
mod uses;

pub use chosen::{SpreadLayout, spread};
pub use laws::greedy_layouts_are_one;

#[cfg(test)]
mod tests;
