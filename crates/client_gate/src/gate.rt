//! What a worker passes before a turn.

use catalogue::Actor;

/// What a worker passes before each turn.
pub trait Gate {
    /// This worker is about to make a turn of this actor. Workers are counted from 0.
    fn before(&self, worker: u8, actor: Actor);
}

/// A gate that holds nobody.
#[derive(Clone, Copy, Debug, PartialEq, Eq)]
pub struct OpenGate;

impl Gate for OpenGate {
    fn before(&self, _worker: u8, _actor: Actor) {}
}
