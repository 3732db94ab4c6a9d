//! The places that tuples have in the switch, and what a script has there: hot and late operations.
//!
//! A tuple is hot where the layout gives it a place. Hot operations have a plan: in which pass through the
//! pipeline each of them is executed. This crate knows no packet and nothing of sessions: a layout is a
//! list of rows, and its first row of a tuple or of a place counts.
#![tactic(auto)]

mod laws;
mod layout;
mod pass_plan;
mod shape;

pub use laws::{passes_are_least, plans_are_in_order};
pub use layout::{Layout, LayoutFault, LayoutRow};
pub use pass_plan::{HotOp, PassPlan, Step, plan};
pub use shape::{MOST_ARRAYS, MOST_CELLS, MOST_HOSTS, MOST_STAGES, Shape};

#[cfg(test)]
mod tests;
