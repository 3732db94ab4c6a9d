//! Packets on their way through the switch.

use switch_packet::Packet;
use txn_model::Pairs;

/// A packet with what became of its operations so far.
#[derive(Debug, Drop)]
pub struct Flight {
    pub packet: Packet,
    /// One pair per operation of the packet; zeros for one that wasn't executed yet.
    pub pairs: Pairs,
    /// The pass in which it is, or for which it waits, counted from 1.
    pub pass: u8,
    /// The packet's number, counted from 1 over all packets; 0 before its first pass.
    pub number: u64,
}
