//! The replay of one packet.

ghost use Rattle.std.specs.Prelude.{◌≡◌, IfOk};
ghost use Rattle.switch_packet.specs.Packets.{plain};
ghost use Rattle.switch_packet.specs.Replay.{replay};
ghost use Rattle.gap_placement.specs.Replays.{CanReplay};

use std::alloc::Global;
use switch_packet::Packet;
use txn_model::{NoMemory, Pair, Pairs, PlaceMap, effect, operand};

/// Executes the packet's operations in order, and gives their pairs.
pub(crate) fn replay_packet(
    alloc: Global,
    packet: &Packet,
    map: &mut PlaceMap,
) -> Result<Pairs, NoMemory>
    requires { CanReplay map.old (plain packet.now) }
    ensures pairs { IfOk result (λ pairs. pairs.items ≡ (replay (plain packet.now) map.old).pairs) }
    ensures after { IfOk result (λ _. map.new ≡ (replay (plain packet.now) map.old).after) }
{
    let mut pairs = Pairs::of(Vec::with_capacity(alloc, packet.ops.len())?);
    for i in 0..packet.ops.len() {
        let op = packet.ops.get(i);
        let was = map.get(op.place).unwrap_or(0);
        let now = effect(&op.act, was, operand(&op.needs, op.bias, &pairs));
        map.set(op.place, now);
        pairs.push(Pair { was, now });
    }
    Ok(pairs)
}
