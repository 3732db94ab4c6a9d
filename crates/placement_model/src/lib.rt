//! Placements: which numbers the packets of a list of logs can have had.
//!
//! Definitions and laws alone. A placement is an order of all intents, in which each logged number and each logged
//! pair is right; the first one is least by its clients along the free numbers. Beside that relation stands the
//! first order as a function. This crate knows no session, no switch and no search.
#![tactic(auto)]

mod laws;

pub use laws::first_order_is_first;
