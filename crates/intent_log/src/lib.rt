//! The clients' logs: what each was about to send to the switch, and what came of it.
//!
//! A log's text is defined apart from the code that writes and reads it: the texts of records in
//! `specs/LogText.antt`, which records make a log in `specs/Grammar.antt`. This crate knows no file: the logs
//! stand in a rack, which is handed in.
#![tactic(auto)]

mod ahead;
mod append;
mod check;
mod encode;
mod entry;
mod fault;
mod laws;
mod read;
mod records;

pub use append::{append_intent, append_outcome};
pub use check::check_log;
pub use fault::{CheckFault, LogFault};
pub use laws::{logs_are_texts, logs_go_on, logs_say_one_thing, views_can_be_written};
pub use read::{MOST_LOG_BYTES, read_log};

#[cfg(test)]
mod tests;
