//! How long a packet's text is.

ghost use Rattle.std.specs.Prelude.{◌≡◌, ◌≤◌, ◌+◌, ◌*◌, length};
ghost use Rattle.std.specs.List.{flat_map};
ghost use Rattle.txn_model.specs.Needs.{needs_list};
ghost use Rattle.switch_packet.specs.Packets.{plain};
ghost use Rattle.switch_packet.specs.Ranges.{Fits, act_numbers};
ghost use Rattle.switch_packet.specs.PacketText.{i64_text, op_text, packet_text};

use crate::packet::{Packet, PacketOp};
use txn_model::Act;

fn act_len(act: &Act) -> usize
    ensures { result ≡ length (flat_map i64_text (act_numbers act.now)) }
{
    match act {
        Act::Read => 0,
        Act::Put { .. } | Act::Add { .. } => 8,
        Act::Choose { .. } => 24,
    }
}

#[tactic(auto, unfolding(crate::specs::PacketText::op_text))]
fn op_len(op: &PacketOp) -> usize
    ensures value { result ≡ length (op_text op.now) }
    ensures bound { result ≤ 48 }
{
    16 + act_len(&op.act) + 2 * op.needs.len() as usize
}

fn ops_len(ops: &[PacketOp]) -> usize
    requires { length ops.now ≤ 16 }
    ensures value { result ≡ length (flat_map op_text ops.now) }
    ensures bound { result ≤ 48 * length ops.now }
{
    let mut len = 0;
    for op in ops {
        len += op_len(op);
    }
    len
}

/// How many bytes the packet's text has: at most 772. It takes no memory.
#[tactic(auto, unfolding(crate::specs::PacketText::packet_text))]
pub fn packet_len(packet: &Packet) -> usize
    requires { Fits (plain packet.now) }
    ensures value { result ≡ length (packet_text (plain packet.now)) }
    ensures bound { result ≤ 772 }
{
    12 + ops_len(packet.ops.as_slice())
}
