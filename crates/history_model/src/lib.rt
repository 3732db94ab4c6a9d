//! Histories: in which single order the transactions of a session stand, and when that order is legal.
//!
//! Definitions and laws alone. It knows no client, no lock and no packet: an entry names an item of a
//! session and has a stamp; a history is legal where the scripts of its entries, run serially in its
//! order, give every answered entry its pairs.
#![tactic(auto)]

mod entry;
mod laws;
mod stamp;

pub use entry::Entry;
pub use laws::{insertion_keeps_replies, serial_runs_are_chains};
pub use stamp::greater;

#[cfg(test)]
mod tests;
