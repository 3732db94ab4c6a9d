//! The registers of one stage of the switch, and what a packet that visits the stage does to them.
//!
//! A stage is seen as the map from its places to the numbers that stand there. This crate knows no
//! pipeline: which packet visits which stage, and in which pass, is its callers' business.
#![tactic(auto)]

mod flight;
mod stage;

pub use flight::Flight;
pub use stage::Stage;

#[cfg(test)]
mod tests;
