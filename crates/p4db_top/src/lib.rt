//! The program's top call: words and the bytes of a source in, a report or another text to a sink out.
//!
//! `command` and `top` carry the headline theorem. They know no file and no terminal: sources, sinks and racks
//! are handed in.
#![tactic(auto)]

mod calls;
mod closing;
mod driving;
mod generating;
mod hot;
mod layout;
mod listed;
mod loads;
mod note;
mod obeying;
mod output;
mod racing;
mod reading;
mod recovering;
mod running;
mod written;

pub use calls::{Ended, command, top};
pub use note::Note;
pub use session_reader::{Limit, OpAt, Section, SessionFault};

#[cfg(test)]
mod changed;
#[cfg(test)]
mod legal;
#[cfg(test)]
mod tests;
