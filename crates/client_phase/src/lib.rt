//! One client's part of each move: what it keeps, what it does next, and what a move makes of it.
//!
//! The contracts speak of what is kept of a client, and the laws say that this is what the client of the fabric's
//! model shows. This crate knows no lock table, no store, no switch and no other client: who holds a lock, what was
//! read with it, and how a packet was answered, its callers say.
#![tactic(auto)]

mod action;
mod client_state;
mod cold_numbers;
mod laws;
mod steps;

pub use action::{Action, Met, action_of};
pub use client_state::ClientState;
pub use core_model::Phase;
pub use laws::{
    actions_are_moves, clients_fit_their_scripts, commits_are_the_models, locks_are_the_models,
    moves_are_stepped, pairs_are_found,
};
pub use steps::step_client;

#[cfg(test)]
mod tests;
