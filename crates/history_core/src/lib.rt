//! The history of a run: the entries of its transactions, a list for each client, each answered or not.
//!
//! The lists are merged in stamp order where they are read. All room is taken at the start. This crate
//! knows no clock and no lock: which entry is put in, and when it is answered, is its callers' business.
#![tactic(auto)]

mod history;
mod laws;
mod legal;
mod own_entries;
mod walk;

pub use history::History;
pub use history_model::Entry;
pub use laws::answered_insertion;
pub use walk::Walk;

#[cfg(test)]
mod tests;
