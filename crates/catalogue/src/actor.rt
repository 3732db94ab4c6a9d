//! Actors: whoever may make the next move.

use txn_model::Items;

/// One who moves. Clients and stages are counted from 0; a client's port is named by the client.
#[derive(Clone, Copy, Debug, PartialEq, Eq)]
pub enum Actor {
    /// A client takes its next step.
    Client(u8),
    /// The packet of this client enters the switch.
    Port(u8),
    /// The packet at this stage is executed and goes on.
    Stage(u8),
    /// A lost switch is rebuilt.
    Recover,
}

/// A list of actors: a schedule, or the trace of those that moved.
pub type Actors = Items<Actor>;
