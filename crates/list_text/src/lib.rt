//! The texts of lists: of the most used tuples of a session, and of a layout of them.
//!
//! A text is a function of plain data, defined in specs/. This crate writes to no sink, and doesn't know how
//! a list came to be.
#![tactic(auto)]

mod hot_list;
mod layout_list;

pub use hot_list::hot_text;
pub use layout_list::layout_text;

#[cfg(test)]
mod tests;
