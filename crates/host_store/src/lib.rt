//! The store of hosts: the values of the tuples that aren't in the switch, each with the stamp of the
//! last transaction that left it.
//!
//! This crate knows no lock: that no two transactions read and write a tuple at once is its callers'
//! business.
#![tactic(auto)]

mod store;

pub use store::HostStore;

#[cfg(test)]
mod tests;
