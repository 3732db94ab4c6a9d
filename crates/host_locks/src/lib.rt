//! The lock tables of hosts: which client holds which tuple, and in which mode.
//!
//! A lock is granted at once or refused at once; no one waits here. This crate knows no transaction and
//! no value: who asks for which lock, and when it is given back, is its callers' business.
#![tactic(auto)]

mod lock_table;
mod lock_word;
mod mode;

pub use lock_table::{LockTable, MOST_CLIENTS};
pub use lock_word::LockWord;
pub use mode::{Grant, Mode};

#[cfg(test)]
mod tests;
