//! What each client's log has, as records: what the client was about to do in the switch, and what came of
//! it.
//!
//! All room is taken at the start, so that a record is added without memory. This crate knows no file and
//! no text: where the records are written, and when, is its callers' business.
#![tactic(auto)]

mod client_log;
mod room;

pub use client_log::ClientLog;

#[cfg(test)]
mod tests;
