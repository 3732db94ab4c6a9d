//! The pipeline of the switch: packets wait at the port, go from slot to slot, and become answers.
//!
//! What each call does is a function of what is seen of the pipeline: registers, slots, waiting packets,
//! boxes, holders of the halves, and the next number (`specs/Rows.antt`). This crate knows no script, no log,
//! no history and no host.
#![tactic(auto)]

mod laws;
mod pipeline;
mod seat;
mod step;

pub use laws::{
    advances_are_events, answers_are_taken, beginnings_are_shown, entries_are_events,
    posts_are_events, restored_is_shown,
};
pub use pipeline::Pipeline;
pub use step::Step;

#[cfg(test)]
mod tests;
