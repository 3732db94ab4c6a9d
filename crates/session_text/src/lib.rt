//! Sessions and their texts. A session is written as its canonical text: the one text of it that has no
//! blanks and all its keys in the order of their bytes. Reading is passed on from the crate `session_reader`.
//!
//! This crate runs nothing, and writes any session, sound or not.
#![tactic(auto)]

mod item;
mod laws;
mod number;
mod section;
mod write;

pub use laws::{lines_read_back, sessions_read_back, texts_read_back, values_read_back};
pub use session_reader::{Limit, OpAt, Section, SessionFault, read_session};
pub use write::write_session;

#[cfg(test)]
mod tests;
