//! Recovery: the switch as it stands behind all packets of the clients' logs.
//!
//! It reads the logs, finds the first order of their packets, and replays them. This crate knows no world and no
//! pipeline: what becomes of the registers is its callers' business.
#![tactic(auto)]

mod recovered;
mod restored;

pub use recovered::{Recovered, RecoveryFault, Torn, recover};
pub use restored::{RestoreFault, Restored, restore};

#[cfg(test)]
mod tests;
