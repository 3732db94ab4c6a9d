//! The world of a run: clients, their logs, the switch, locks, store, history and trace, moved by one turn
//! after another.
//!
//! Every turn is one step of the fabric, so that the state is always what the model makes of the trace.
//! A client's record is appended to its log before the client moves, so that the logs always say what the
//! records do. All room is taken when a world begins; after that no call takes memory, but for what the rack
//! takes to append, and for recovery. This crate knows no thread, no file and no log's text.
#![tactic(auto)]

mod core_state;
mod draft;
mod ends;
mod first;
mod host_rows;
mod kept_views;
mod loss_rows;
mod name;
mod packet_rows;
mod recovery;
mod resets;
mod room;
mod runner;
mod turn;
mod world;

pub use core_model::{ItemEnd, Refusal};
pub use name::RunName;
pub use room::move_bound;
pub use turn::{BeginFault, End, Stop, Turn};
pub use world::World;
