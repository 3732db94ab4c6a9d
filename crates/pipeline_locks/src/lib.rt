//! The locks of the pipeline's halves: which client holds which half while its packet makes several passes.
//!
//! A half is granted at once or refused at once; no one waits here. This crate knows no packet, no pass
//! under way and no stage: who asks, and when the halves are given back, is its callers' business.
#![tactic(auto)]

mod halves;

pub use halves::{Admission, Halves};

#[cfg(test)]
mod tests;
