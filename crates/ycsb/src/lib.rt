//! Sessions of YCSB operations: each script reads or puts records, which are drawn from a number.
#![tactic(auto)]

mod load;
mod ops;
mod session;

pub use session::ycsb_session;

#[cfg(test)]
mod tests;
