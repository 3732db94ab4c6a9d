//! The report of a run, its summary, and the order that was recovered from logs: what they tell, and their texts.
//!
//! Each text is a function of plain data, and that data one of a run's session, state and trace, or of what was
//! recovered; both are defined here. A text is made line by line, and written in one piece.
#![tactic(auto)]

mod item;
mod line;
mod recovered;
mod refused;
mod reply;
mod run_report;
mod section;
mod summary;

pub use recovered::write_recovered;
pub use run_report::write_report;
pub use summary::write_summary;

#[cfg(test)]
mod tests;
