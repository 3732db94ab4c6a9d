//! Values, operations and scripts of transactions, and what a script does when it is run serially.
//!
//! Everything above speaks of transactions in the words of this crate: a tuple map, an operation with
//! its act and its needs, the reply of a script. It knows no switch, no lock and no schedule.
#![tactic(auto)]

mod items;
mod laws;
mod number;
mod op;
mod pairs;
mod place;
mod rows;
mod script;
mod serial;
mod stamp;
mod tuple_map;

pub use items::{Items, NoMemory};
pub use laws::wraps_around;
pub use number::{minus, plus};
pub use op::{Act, Need, Needs, Op, TupleId, Which};
pub use pairs::{Pair, Pairs};
pub use place::{Place, PlaceMap};
pub use rows::{ascend, row_of};
pub use script::{MOST_OPS, Script, ScriptFault};
pub use serial::{effect, operand, run_serial};
pub use stamp::{Seen, Stamp};
pub use tuple_map::TupleMap;

#[cfg(test)]
mod tests;
