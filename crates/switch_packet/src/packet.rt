//! Packets: the hot operations of one transaction, as the switch executes them.

ghost use Rattle.std.specs.Prelude.{◌≡◌, ◌≤◌, IfOk};
ghost use Rattle.switch_packet.specs.Packets.{plain, blank_packet, room_of};

use crate::limits::MOST_PACKET_OPS;
use std::alloc::Global;
use txn_model::{Act, Items, Needs, NoMemory, Place};

/// One operation of a packet: what it does at one place of the switch.
#[derive(Clone, Copy, Debug, PartialEq, Eq)]
pub struct PacketOp {
    /// The pass in which it is executed, counted from 1.
    pub pass: u8,
    pub place: Place,
    pub act: Act,
    /// What its needs on other operations than the packet's come to; 0 for a read.
    pub bias: i64,
    /// Its needs on earlier operations of the packet, by their number; a read has none.
    pub needs: Needs,
}

/// The operations of a packet in the order of its script.
pub type PacketOps = Items<PacketOp>;

/// The hot operations of one transaction, on their way through the switch.
#[derive(Debug, Drop)]
pub struct Packet {
    /// The client that sent it, 0 to 7.
    pub client: u8,
    /// Which of the client's items it belongs to, counted from 1.
    pub seq: u32,
    /// How often it goes through the pipeline, 1 to 16.
    pub passes: u8,
    /// The halves of the pipeline that it touches: 1 for left, 2 for right, 3 for both.
    pub halves: u8,
    /// 1 to 16 operations.
    pub ops: PacketOps,
}

impl Packet {
    /// A packet without operations, all its numbers 0, with room for 16 operations.
    pub fn blank(alloc: Global) -> Result<Packet, NoMemory>
        ensures blank { IfOk result (λ packet. plain packet ≡ blank_packet) }
        ensures room { IfOk result (λ packet. 16 ≤ packet.ops.spare) }
    {
        Ok(Packet {
            client: 0,
            seq: 0,
            passes: 0,
            halves: 0,
            ops: PacketOps::of(Vec::with_capacity(alloc, MOST_PACKET_OPS as usize)?),
        })
    }

    /// Takes the operations out and sets all numbers to 0. The room is kept.
    pub fn clear(&mut self)
        ensures blank { plain self.new ≡ blank_packet }
        ensures room { self.new.ops.spare ≡ room_of self.old.ops }
    {
        self.client = 0;
        self.seq = 0;
        self.passes = 0;
        self.halves = 0;
        self.ops.clear();
    }
}
