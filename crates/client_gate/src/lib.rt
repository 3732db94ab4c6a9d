//! Gates: a worker passes one before each turn that it makes.
//!
//! A gate changes nothing that a worker sees; it may hold the worker for a while. A test uses that to make two
//! workers meet. This crate knows no world and no lock: it is called before a lock is taken.
#![tactic(auto)]

mod gate;
mod meet_gate;

pub use gate::{Gate, OpenGate};
pub use meet_gate::MeetGate;

#[cfg(test)]
mod tests;
