//! The rows of an order: all packets are replayed in it.

ghost use Rattle.std.specs.Prelude.{◌≡◌, ◌<◌, ◌^◌, List, ◌∷◌, ◌++◌, length, map, reverse, Option, IfOk};
ghost use Rattle.switch_packet.specs.Packets.{plain_log};
ghost use Rattle.switch_packet.specs.Replay.{replay_all};
ghost use Rattle.placement_model.specs.Placements.{packets_of, rows_of};
ghost use Rattle.gap_placement.specs.Answers.{plain_rows};
ghost use Rattle.gap_placement.specs.Facts.{Each, IsUsable};
ghost use Rattle.gap_placement.specs.Slots.{merge, one_or_none};
ghost use Rattle.gap_placement.specs.Spots.{task_of};
ghost use Rattle.gap_placement.specs.declared.spot.Spot.{Spot};

use crate::placement::{Placed, Placement, Slotted};
use crate::replay::replay_packet;
use crate::spot::{Spot, intent_at};
use std::alloc::Global;
use switch_packet::LogView;
use txn_model::{NoMemory, PlaceMap};

/// The slots in order, with these, last one first, in the free ones.
pub(crate) fn merged(
    alloc: Global,
    slots: &[Option<Spot>],
    mut found: Vec<Spot>,
) -> Result<Vec<Spot>, NoMemory>
    ensures { IfOk result (λ order. order.items ≡ merge slots.now (reverse found.items)) }
{
    let mut order = Vec::new(alloc);
    for i in 0..slots.len() {
        let slot = slots[i];
        let next = next_of(slot, &mut found);
        if let Some(spot) = next {
            order.push(spot)?;
        }
    }
    Ok(order)
}

/// What the slot has, and where it is free, the last one that was found, which is taken out.
fn next_of(slot: Option<Spot>, found: &mut Vec<Spot>) -> Option<Spot>
    ensures { (rest : List (Option Spot)) → merge (slot ∷ rest) (reverse found.old.items) ≡ one_or_none result ++ merge rest (reverse found.new.items) }
{
    match slot {
        Some(spot) => Some(spot),
        None => found.pop(),
    }
}

/// The packets of these intents in order, each with its number and its pairs, and the registers behind them.
pub(crate) fn rows(
    alloc: Global,
    views: &[LogView],
    order: &[Spot],
    first: &PlaceMap,
) -> Result<Placed, NoMemory>
    requires few { length order.now < 2 ^ 63 }
    requires usable { Each (IsUsable (map plain_log views.now) first.now) order.now }
    ensures rows { IfOk result (λ placed. plain_rows placed.placement ≡ rows_of first.now (map (task_of (map plain_log views.now)) order.now)) }
    ensures registers { IfOk result (λ placed. placed.registers ≡ (replay_all (packets_of (map (task_of (map plain_log views.now)) order.now)) first.now).after) }
{
    let mut registers = first.copy(alloc)?;
    let mut rows = Vec::new(alloc);
    for i in 0..order.len() {
        let spot = order[i];
        let packet = &intent_at(views, spot).packet;
        let pairs = replay_packet(alloc, packet, &mut registers)?;
        rows.push(Slotted {
            number: i as u64 + 1,
            client: spot.client,
            seq: packet.seq,
            pairs,
        })?;
    }
    Ok(Placed {
        placement: Placement::of(rows),
        registers,
    })
}
