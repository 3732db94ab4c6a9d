//! The records of a client's log: what it was about to do, and what came of it.

use crate::packet::Packet;
use txn_model::{Items, Pairs};

/// What stands in the log before a packet is posted.
#[derive(Debug, Drop)]
pub struct Intent {
    /// The packet's number will be above this one.
    pub floor: u64,
    pub packet: Packet,
}

/// What stands in the log before the caller has the answer.
#[derive(Debug, Drop)]
pub struct Outcome {
    /// Which of the client's items it answers, counted from 1.
    pub seq: u32,
    /// The packet's number, counted from 1 over all packets.
    pub number: u64,
    /// One pair per operation of the packet.
    pub pairs: Pairs,
}

pub type Intents = Items<Intent>;

pub type Outcomes = Items<Outcome>;

/// What a client's log says. The k-th outcome answers the k-th intent.
#[derive(Debug, Drop)]
pub struct LogView {
    pub intents: Intents,
    pub outcomes: Outcomes,
    /// Whether the log ends within a record.
    pub torn: bool,
}
