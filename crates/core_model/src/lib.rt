//! What the fabric's machine is told in: clients and their phases, the locks on the tuples of hosts,
//! decisions and the order of stamps, refusals, the order in which actors are taken, and how items end.
//!
//! Definitions, and what follows from them alone. It knows no state of a whole machine and no step: those
//! are fabric_model's.
#![tactic(auto)]

mod item_end;
mod phase;
mod refusal;

pub use item_end::ItemEnd;
pub use phase::Phase;
pub use refusal::Refusal;
