//! The records of one client.

ghost use Rattle.std.specs.Prelude.{◌≡◌, ◌-◌, ◌≤◌, ◌<◌, [], ◌∷◌, ◌++◌, length, map, slice_get, IfOk, Some};
ghost use Rattle.switch_packet.specs.Packets.{plain, plain_intent, plain_outcome, blank_packet};

use crate::room::{bare_replies, blank_packets, fill};
use std::alloc::Global;
use std::marker::Model;
use std::mem;
use switch_packet::{Intent, Intents, Outcome, Outcomes, Packet};
use txn_model::{NoMemory, Pairs};

/// What one client was about to do in the switch, and what came of it, each in order. There is room for so
/// many of both from the start: adding one takes no memory.
#[derive(Debug, Drop)]
pub struct ClientLog {
    intents: Intents,
    outcomes: Outcomes,
    /// Blank packets for the intents that are to come.
    packets: Vec<Packet>,
    /// Room for the pairs of the outcomes that are to come.
    replies: Vec<Pairs>,
}

impl Model for ClientLog {
    ghost use Rattle.std.specs.Prelude.{◌+◌, length, map};
    ghost use Rattle.switch_packet.specs.Packets.{plain_intent, plain_outcome};
    ghost use Rattle.log_records.specs.Records.{PlainRecords};
    ghost use Rattle.log_records.specs.Room.{HasRoom};

    ghost Value = { PlainRecords };

    ghost view = { λ a. record {
      intents = map plain_intent a.intents.items;
      outcomes = map plain_outcome a.outcomes.items;
      room = length a.packets.items + length a.intents.items;
    } };

    ghost invariant = { λ a. HasRoom (length a.packets.items + length a.intents.items) a.intents a.outcomes a.packets a.replies };
}

impl ClientLog {
    /// No records, and room for so many intents and outcomes.
    pub fn fresh(alloc: Global, room: usize) -> Result<ClientLog, NoMemory>
        ensures { IfOk result (λ log. log ≡ record { intents = []; outcomes = []; room = room }) }
    {
        Ok(ClientLog {
            intents: Intents::of(Vec::with_capacity(alloc, room)?),
            outcomes: Outcomes::of(Vec::with_capacity(alloc, room)?),
            packets: blank_packets(alloc, room)?,
            replies: bare_replies(alloc, room)?,
        })
    }

    /// Adds what the client is about to do: its packet, whose number will be above the floor. The packet is
    /// taken over, and a blank one with room for 16 operations is left in its place.
    pub fn push_intent(&mut self, floor: u64, packet: &mut Packet)
        requires { length self.old.intents < self.old.room }
        ensures pushed { self.new ≡ record self.old { intents = self.old.intents ++ record { floor = floor; packet = plain packet.old } ∷ [] } }
        ensures blank { plain packet.new ≡ blank_packet }
        ensures room { 16 ≤ packet.new.ops.spare }
    {
        if let Some(blank) = self.packets.pop() {
            let packet = mem::replace(packet, blank);
            self.intents.push(Intent { floor, packet });
        }
    }

    /// Adds what came of the client's item with this number, counted from 1: the packet's number, counted
    /// from 1 over all packets, and a pair for each operation of the packet.
    pub fn push_outcome(&mut self, seq: u32, number: u64, pairs: &Pairs)
        requires room { length self.old.outcomes < self.old.room }
        requires short { length pairs.now.items ≤ 16 }
        ensures { self.new ≡ record self.old { outcomes = self.old.outcomes ++ record { seq = seq; number = number; pairs = pairs.now.items } ∷ [] } }
    {
        if let Some(mut reply) = self.replies.pop() {
            fill(&mut reply, pairs);
            self.outcomes.push(Outcome {
                seq,
                number,
                pairs: reply,
            });
        }
    }

    /// What the client was about to do, in order.
    pub fn intents(&self) -> &[Intent]
        ensures { map plain_intent result.now ≡ self.now.intents }
    {
        self.intents.as_slice()
    }

    /// What came of it, in order.
    pub fn outcomes(&self) -> &[Outcome]
        ensures { map plain_outcome result.now ≡ self.now.outcomes }
    {
        self.outcomes.as_slice()
    }

    /// What the client was about to do last.
    pub fn last_intent(&self) -> &Intent
        requires { 1 ≤ length self.now.intents }
        ensures { slice_get self.now.intents (length self.now.intents - 1) ≡ Some (plain_intent result.now) }
    {
        self.intents.get(self.intents.len() - 1)
    }
}
