//! What each client has under way.

ghost use Rattle.std.specs.Prelude.{◌≡◌, ℕ, ◌+◌, ◌≤◌, ◌<◌, false, List, length, map, nat_lt, slice_index_or, IfOk, if◌then◌else◌};
ghost use Rattle.std.specs.List.{AllByRecursion, list_any};
ghost use Rattle.switch_packet.specs.PacketText.{packet_text};
ghost use Rattle.switch_packet.specs.Packets.{PlainPacket, plain, room_of};
ghost use Rattle.switch_packet.specs.Ranges.{IsPacket};
ghost use Rattle.switch_model.specs.Flight.{zero_pair, is_due};
ghost use Rattle.pipeline.specs.Seating.{HasRoom, IsText, come_through_spot, come_through_pass};

use register_stage::Flight;
use std::alloc::Global;
use switch_packet::{MOST_PACKET_OPS, Packet, PacketOp, decode_into};
use txn_model::{NoMemory, Pair, Pairs};

/// How many stages there may be.
pub const MOST_STAGES: usize = 12;

/// Where a client's packet is.
#[derive(Clone, Copy, Debug, PartialEq, Eq)]
pub enum Spot {
    /// The client has no packet and no answer.
    Vacant,
    /// It waits at the port for the pass that its flight names.
    AtPort,
    /// It stands in the slot of this stage.
    InSlot(u8),
    /// It has become the answer in the client's box.
    InBox,
}

/// A client's seat at the pipeline. Its flight stays here for good; slots know it by the client's number.
#[derive(Debug, Drop)]
pub struct Seat {
    pub spot: Spot,
    /// The client's packet, or the number and the pairs of its answer.
    pub flight: Flight,
    /// The stages at which operations are due in the flight's pass, while it is in a slot.
    pub due: [bool; MOST_STAGES],
}

impl Seat {
    /// A seat with nothing under way, and with room for 16 operations and their pairs.
    pub fn vacant(alloc: Global) -> Result<Seat, NoMemory>
        ensures spot { IfOk result (λ seat. seat.spot ≡ Spot.Vacant) }
        ensures room { IfOk result (λ seat. HasRoom seat) }
    {
        Ok(Seat {
            spot: Spot::Vacant,
            flight: Flight {
                packet: Packet::blank(alloc)?,
                pairs: Pairs::of(Vec::with_capacity(alloc, MOST_PACKET_OPS as usize)?),
                pass: 0,
                number: 0,
            },
            due: [false; MOST_STAGES],
        })
    }

    /// Takes a packet's text: the packet waits at the port for its first pass.
    pub fn post(&mut self, bytes: &[u8])
        requires room { HasRoom self.old }
        requires text { IsText bytes.now }
        ensures spot { self.new.spot ≡ Spot.AtPort }
        ensures packet { (packet : PlainPacket)
            → IsPacket packet → bytes.now ≡ packet_text packet → plain self.new.flight.packet ≡ packet }
        ensures pairs { self.new.flight.pairs.items ≡ map (λ op. zero_pair) self.new.flight.packet.ops.items }
        ensures pass { (self.new.flight.pass ≡ 1) × (self.new.flight.number ≡ 0) }
        ensures room { HasRoom self.new }
    {
        let flight = &mut self.flight;
        let _ = decode_into(bytes, &mut flight.packet);
        clear_pairs(&flight.packet, &mut flight.pairs);
        flight.pass = 1;
        flight.number = 0;
        self.spot = Spot::AtPort;
    }

    /// The packet enters slot 0 with this number.
    pub fn enter(&mut self, number: u64)
        requires { AllByRecursion (λ op. op.place.stage < 12) self.old.flight.packet.ops.items }
        ensures spot { self.new.spot ≡ Spot.InSlot 0 }
        ensures flight { self.new.flight ≡ record self.old.flight { number = number } }
        ensures due { (x : ℕ) → slice_index_or self.new.due x false
            ≡ list_any (is_due self.old.flight.pass x) self.old.flight.packet.ops.items }
    {
        self.due = due_stages(self.flight.packet.ops.as_slice(), self.flight.pass);
        self.flight.number = number;
        self.spot = Spot::InSlot(0);
    }

    /// Whether an operation is due at this stage.
    pub fn is_due(&self, stage: u8) -> bool
        ensures { result ≡ slice_index_or self.now.due stage false }
    {
        self.due.get(stage as usize).copied().unwrap_or(false)
    }

    /// The packet is behind the last stage: it waits for its next pass, or becomes the answer.
    pub fn come_through(&mut self)
        requires { self.old.flight.pass ≤ self.old.flight.packet.passes }
        ensures spot { self.new.spot ≡ come_through_spot self.old.flight }
        ensures flight { self.new.flight ≡ record self.old.flight { pass = come_through_pass self.old.flight } }
    {
        let flight = &mut self.flight;
        if flight.pass < flight.packet.passes {
            flight.pass += 1;
            self.spot = Spot::AtPort;
        } else {
            self.spot = Spot::InBox;
        }
    }

    /// Puts an answer into the client's box.
    pub fn put_answer(&mut self, number: u64, pairs: &Pairs)
        requires room { HasRoom self.old }
        requires few { length pairs.now.items ≤ 16 }
        ensures spot { self.new.spot ≡ Spot.InBox }
        ensures number { self.new.flight.number ≡ number }
        ensures pairs { self.new.flight.pairs.items ≡ pairs.now.items }
        ensures room { HasRoom self.new }
    {
        copy_pairs(pairs, &mut self.flight.pairs);
        self.flight.number = number;
        self.spot = Spot::InBox;
    }
}

/// A pair of zeros for each operation of the packet.
fn clear_pairs(packet: &Packet, pairs: &mut Pairs)
    requires room { length packet.now.ops.items ≤ room_of pairs.old }
    requires few { length packet.now.ops.items ≤ 16 }
    ensures items { pairs.new.items ≡ map (λ op. zero_pair) packet.now.ops.items }
    ensures room { room_of pairs.new ≡ room_of pairs.old }
{
    pairs.clear();
    for _op in packet.ops.as_slice() {
        pairs.push(Pair::ZERO);
    }
}

/// The same pairs.
fn copy_pairs(from: &Pairs, to: &mut Pairs)
    requires room { length from.now.items ≤ room_of to.old }
    ensures items { to.new.items ≡ from.now.items }
    ensures room { room_of to.new ≡ room_of to.old }
{
    to.clear();
    for pair in from.as_slice() {
        to.push(*pair);
    }
}

/// The stages at which these operations are due in the pass.
fn due_stages(ops: &[PacketOp], pass: u8) -> [bool; MOST_STAGES]
    requires { AllByRecursion (λ op. op.place.stage < 12) ops.now }
    ensures { (x : ℕ) → slice_index_or result x false ≡ list_any (is_due pass x) ops.now }
{
    let mut due = [false; MOST_STAGES];
    for op in ops {
        if op.pass == pass {
            due[op.place.stage as usize] = true;
        }
    }
    due
}
