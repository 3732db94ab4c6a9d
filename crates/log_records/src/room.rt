//! Room for records that are to come.

ghost use Rattle.std.specs.Prelude.{◌≡◌, ◌≤◌, length, All, IfOk};
ghost use Rattle.log_records.specs.Room.{IsBlank, IsBare};

use std::alloc::Global;
use switch_packet::{MOST_PACKET_OPS, Packet};
use txn_model::{NoMemory, Pairs};

/// This many blank packets, each with room for 16 operations.
pub(crate) fn blank_packets(alloc: Global, many: usize) -> Result<Vec<Packet>, NoMemory>
    ensures many { IfOk result (λ packets. length packets.items ≡ many) }
    ensures blank { IfOk result (λ packets. All IsBlank packets.items) }
{
    let mut packets = Vec::with_capacity(alloc, many)?;
    for _ in 0..many {
        packets.push_reserved(Packet::blank(alloc)?);
    }
    Ok(packets)
}

/// This many lists without pairs, each with room for 16.
pub(crate) fn bare_replies(alloc: Global, many: usize) -> Result<Vec<Pairs>, NoMemory>
    ensures many { IfOk result (λ replies. length replies.items ≡ many) }
    ensures bare { IfOk result (λ replies. All IsBare replies.items) }
{
    let mut replies = Vec::with_capacity(alloc, many)?;
    for _ in 0..many {
        replies.push_reserved(Pairs::of(Vec::with_capacity(alloc, MOST_PACKET_OPS as usize)?));
    }
    Ok(replies)
}

/// Fills a list that has no pairs with these.
pub(crate) fn fill(to: &mut Pairs, pairs: &Pairs)
    requires bare { IsBare to.old }
    requires short { length pairs.now.items ≤ 16 }
    ensures { to.new.items ≡ pairs.now.items }
{
    for pair in pairs.as_slice() {
        to.push(*pair);
    }
}
