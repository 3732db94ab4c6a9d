//! What a session is made of: the shape of the switch, the tuples and their layout, what each client
//! runs, and a schedule; and when a session is sound.
//!
//! Contracts above speak of a session by its plan: plain lists and finite maps without spare room.
//! This crate reads and writes no text, and runs nothing.
#![tactic(auto)]

mod actor;
mod item;
mod kind;
mod load;
mod session;

pub use actor::{Actor, Actors};
pub use item::{Clients, Item, MOST_CLIENTS};
pub use kind::Kind;
pub use load::{BankPlan, Mix, YcsbPlan};
pub use session::{MOST_ITEMS, MOST_ROWS, MOST_TRIES, MOST_TUPLES, Session};

#[cfg(test)]
mod tests;
