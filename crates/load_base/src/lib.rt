//! What generated sessions have in common: the shape of the switch, where hot tuples are kept, and scripts that are
//! drawn from a number, client by client.
#![tactic(auto)]

mod rows;
mod session;
mod size;

pub use session::load_session;
pub use size::{Load, Size};
