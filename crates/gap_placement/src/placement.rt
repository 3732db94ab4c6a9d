//! Placements as rows: each packet with its number and its pairs.

use txn_model::{Items, Pairs, PlaceMap};

/// A packet with the number that it is given, and what its operations find and leave then.
#[derive(Debug, Drop)]
pub struct Slotted {
    /// The packet's number, counted from 1 over all packets.
    pub number: u64,
    /// The client that sent it, 0 to 7.
    pub client: u8,
    /// Which of the client's items it belongs to, counted from 1.
    pub seq: u32,
    /// One pair per operation of the packet.
    pub pairs: Pairs,
}

/// The packets of all logs, by number: the k-th row has number k, counted from 1.
pub type Placement = Items<Slotted>;

/// A placement, and the registers that its packets leave.
#[derive(Debug, Drop)]
pub struct Placed {
    pub placement: Placement,
    pub registers: PlaceMap,
}
