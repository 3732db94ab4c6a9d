//! The draft of a session: what a session text says, read by its grammar alone.
//!
//! A draft knows the ranges of numbers and the form of each section. It knows no limits, and no rule that
//! ties one section to another: a list is as long as the text has it, and a tuple may be named that isn't
//! there.
#![tactic(auto)]

mod data;
mod draft;
mod operation;
mod read;
mod section;

pub use draft::{Draft, ItemDraft, OpDraft, RowDraft, ShapeDraft};
pub use read::{DraftFault, Section, read_draft};

#[cfg(test)]
mod tests;
