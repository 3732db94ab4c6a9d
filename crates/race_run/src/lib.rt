//! Runs whose turns many threads make.
//!
//! All threads share one world behind one lock, and each hold of the lock makes one turn of one actor. So the
//! order in which threads get the lock is the order of the run's moves, and the world that comes back is still a
//! run of its session: its type says so. No clause says that threads run at the same time, or that any of them
//! gets the lock.
#![tactic(auto)]

mod places;
mod raced;
mod worker;

pub use raced::race;

#[cfg(test)]
mod tests;
