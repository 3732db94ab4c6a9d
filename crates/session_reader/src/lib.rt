//! Sessions from their JSON text.
//!
//! A draft is read by the grammar alone; here the limits and the rules between the sections come in, and
//! the draft becomes a sound session. Each fault is searched for in the whole text before the next one is.
//! This crate writes no text and runs nothing.
#![tactic(auto)]

mod build;
mod check;
mod fault;
mod limits;
mod rule;
mod session;
mod words;

pub use fault::{Limit, OpAt, SessionFault};
pub use session::read_session;
pub use session_draft::Section;

#[cfg(test)]
mod tests;
