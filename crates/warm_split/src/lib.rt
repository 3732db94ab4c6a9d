//! The parts of a script: what is executed on hosts before the switch, in the switch, and after it; the
//! packet of its hot operations, and the reply that is joined from both sides.
//!
//! This crate knows one script and its pairs: no lock, no log, no client's phase, and no switch but the
//! replay of a packet.
#![tactic(auto)]

mod laws;
mod needs;
mod op_set;
mod packets;
mod pairs;
mod parts;

pub use laws::{joined_are_local, warm_replies_are_serial};
pub use op_set::OpSet;
pub use packets::{hot_plan, resolve};
pub use pairs::{fill_before, join_pairs};
pub use parts::{BadTurn, Parts, split};

#[cfg(test)]
mod tests;
