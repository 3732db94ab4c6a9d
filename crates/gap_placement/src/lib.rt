//! The first placement of what clients' logs say: which numbers the packets that were lost without an answer can
//! have had.
//!
//! What a placement is, and which one is first, stands in the definitions of placements. This crate finds it: a
//! search over the packets without an answer, which goes back at the first contradiction. It knows no session and
//! no text: it stands on the logs' records alone.
#![tactic(auto)]

mod change;
mod first;
mod legs;
mod near;
mod placement;
mod replay;
mod rows;
mod search;
mod short;
mod slots;
mod spot;

pub use first::{place, place_all};
pub use placement::{Placed, Placement, Slotted};

#[cfg(test)]
mod tests;
