//! What clients make their records in.

ghost use Rattle.std.specs.Prelude.{◌≡◌, ◌≤◌, length, IfOk};
ghost use Rattle.switch_packet.specs.Packets.{plain_outcome, room_of};
ghost use Rattle.fabric_core.specs.Drafts.{HasDraftRoom};

use std::alloc::Global;
use switch_packet::{Intent, LONGEST_TEXT, MOST_PACKET_OPS, Outcome, Packet};
use txn_model::{NoMemory, Pairs};

/// How many bytes the longest text of a record has: that of an intent, with its mark and its floor before
/// the text of its packet. An outcome of 16 pairs has fewer.
const LONGEST_RECORD: usize = 12 + LONGEST_TEXT;

/// An intent, an outcome, the pairs of a client without locks, and a record's text, each with room for the
/// longest.
#[derive(Debug, Drop)]
pub(crate) struct Draft {
    pub intent: Intent,
    pub outcome: Outcome,
    pub zeros: Pairs,
    pub text: Vec<u8>,
}

impl Draft {
    pub fn fresh(alloc: Global) -> Result<Draft, NoMemory>
        ensures { IfOk result HasDraftRoom }
    {
        Ok(Draft {
            intent: Intent {
                floor: 0,
                packet: Packet::blank(alloc)?,
            },
            outcome: Outcome {
                seq: 0,
                number: 0,
                pairs: room_for_pairs(alloc)?,
            },
            zeros: room_for_pairs(alloc)?,
            text: Vec::with_capacity(alloc, LONGEST_RECORD)?,
        })
    }
}

/// No pairs, and room for those of the longest script.
fn room_for_pairs(alloc: Global) -> Result<Pairs, NoMemory>
    ensures { IfOk result (λ pairs. 16 ≤ room_of pairs) }
{
    let pairs = Vec::with_capacity(alloc, MOST_PACKET_OPS as usize)?;
    Ok(Pairs::of(pairs))
}

/// Makes it the outcome of the item with this number, whose packet has this number and these pairs.
pub(crate) fn note_outcome(to: &mut Outcome, seq: u32, number: u64, pairs: &Pairs)
    requires room { 16 ≤ room_of to.old.pairs }
    requires short { length pairs.now.items ≤ 16 }
    ensures outcome { plain_outcome to.new ≡ record { seq = seq; number = number; pairs = pairs.now.items } }
    ensures room { room_of to.new.pairs ≡ room_of to.old.pairs }
{
    to.seq = seq;
    to.number = number;
    copy_pairs(pairs, &mut to.pairs);
}

fn copy_pairs(from: &Pairs, to: &mut Pairs)
    requires room { 16 ≤ room_of to.old }
    requires short { length from.now.items ≤ 16 }
    ensures items { to.new.items ≡ from.now.items }
    ensures room { room_of to.new ≡ room_of to.old }
{
    to.clear();
    for pair in from.as_slice() {
        to.push(*pair);
    }
}
