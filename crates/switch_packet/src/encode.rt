//! Writing a packet's text.

ghost use Rattle.std.specs.Prelude.{◌≡◌, length, FitsSigned};
ghost use Rattle.std.specs.Int.{w64};
ghost use Rattle.std.specs.List.{flat_map, AllByRecursion};
ghost use Rattle.txn_model.specs.Needs.{needs_list};
ghost use Rattle.switch_packet.specs.Packets.{plain};
ghost use Rattle.switch_packet.specs.Ranges.{Fits, IsPacket, OpIsTyped, act_numbers};
ghost use Rattle.switch_packet.specs.PacketText.{i64_text, act_byte, which_byte, need_text, op_text, packet_text};
ghost use Rattle.switch_packet.specs.Writing.{HasRoom, Adds};

use crate::format::{ADD, CHOOSE, MOVED, OLD, PACKET_MARK, PUT, READ, VERSION};
use crate::packet::{Packet, PacketOp};
use crate::writer::{push_bytes, push_i64, push_u16, push_u32};
use txn_model::{Act, Needs, Which};

fn act_byte(act: &Act) -> u8
    ensures { result ≡ act_byte act.now }
{
    match act {
        Act::Read => READ,
        Act::Put { .. } => PUT,
        Act::Add { .. } => ADD,
        Act::Choose { .. } => CHOOSE,
    }
}

fn push_act(act: &Act, to: &mut Vec<u8>)
    requires { HasRoom to.old (length (flat_map i64_text (act_numbers act.now))) }
    ensures added { Adds to.old to.new (flat_map i64_text (act_numbers act.now)) }
    ensures typed { AllByRecursion (FitsSigned w64) (act_numbers act.now) }
{
    match *act {
        Act::Read => {}
        Act::Put { base } => push_i64(to, base),
        Act::Add { base } => push_i64(to, base),
        Act::Choose {
            limit,
            above,
            below,
        } => {
            push_i64(to, limit);
            push_i64(to, above);
            push_i64(to, below);
        }
    }
}

fn which_byte(which: Which) -> u8
    ensures { result ≡ which_byte which }
{
    match which {
        Which::Old => OLD,
        Which::Moved => MOVED,
    }
}

fn push_needs(needs: &Needs, to: &mut Vec<u8>)
    requires { HasRoom to.old (length (flat_map need_text (needs_list needs.now))) }
    ensures { Adds to.old to.new (flat_map need_text (needs_list needs.now)) }
{
    for i in 0..needs.len() {
        let need = needs.get(i);
        push_bytes(to, &[need.from, which_byte(need.which)]);
    }
}

#[tactic(auto, unfolding(crate::specs::PacketText::op_text))]
fn push_op(op: &PacketOp, to: &mut Vec<u8>)
    requires { HasRoom to.old (length (op_text op.now)) }
    ensures added { Adds to.old to.new (op_text op.now) }
    ensures typed { OpIsTyped op.now }
{
    let place = op.place;
    push_bytes(to, &[op.pass, place.stage, place.array, act_byte(&op.act)]);
    push_u16(to, place.cell);
    push_bytes(to, &[op.needs.len(), 0]);
    push_i64(to, op.bias);
    push_act(&op.act, to);
    push_needs(&op.needs, to);
}

fn push_ops(ops: &[PacketOp], to: &mut Vec<u8>)
    requires { HasRoom to.old (length (flat_map op_text ops.now)) }
    ensures added { Adds to.old to.new (flat_map op_text ops.now) }
    ensures typed { AllByRecursion OpIsTyped ops.now }
{
    for op in ops {
        push_op(op, to);
    }
}

/// Adds the packet's text at the end of `to`, in its spare room. It takes no memory.
#[tactic(auto, unfolding(crate::specs::PacketText::packet_text))]
pub fn encode_into(packet: &Packet, to: &mut Vec<u8>)
    requires fits { Fits (plain packet.now) }
    requires room { HasRoom to.old (length (packet_text (plain packet.now))) }
    ensures added { Adds to.old to.new (packet_text (plain packet.now)) }
    ensures is_packet { IsPacket (plain packet.now) }
{
    push_bytes(to, &[PACKET_MARK, VERSION, packet.client, 0]);
    push_u32(to, packet.seq);
    let count = packet.ops.len() as u8;
    push_bytes(to, &[packet.passes, packet.halves, count, 0]);
    push_ops(packet.ops.as_slice(), to);
}
