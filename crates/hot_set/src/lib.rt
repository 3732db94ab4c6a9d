//! The most used tuples of a session.
//!
//! A use is one operation of one transaction. This crate knows sessions alone: no layout of its own, and
//! nothing of how a run goes.
#![tactic(auto)]

mod ranking;
mod used;

pub use ranking::{HotList, HotRow, pick};
