//! The registers at the places that open packets touch. A search needs no others, however many there are.

ghost use Rattle.std.specs.Prelude.{◌≡◌, map, IfOk};
ghost use Rattle.std.specs.BTreeSet as set;
ghost use Rattle.std.specs.FinMap.{retain_keys};
ghost use Rattle.std.specs.Option.{option_map};
ghost use Rattle.switch_packet.specs.Packets.{plain_log};
ghost use Rattle.txn_model.specs.Places.{place_cmp};
ghost use Rattle.gap_placement.specs.Facts.{Each, IfThere, IsUsable};
ghost use Rattle.gap_placement.specs.Near.{AllTouch, IsPart, AreIn, StayIn};
ghost use Rattle.gap_placement.specs.Spots.{task_of};

use crate::spot::{Spot, intent_at};
use std::alloc::Global;
use std::collections::BTreeSet;
use switch_packet::{LogView, Packet};
use txn_model::{NoMemory, Place, PlaceMap};

/// The registers at the places of the packets that stand open.
pub(crate) fn near_registers(
    alloc: Global,
    views: &[LogView],
    standing: &[Option<Spot>],
    first: &PlaceMap,
) -> Result<PlaceMap, NoMemory>
    requires { Each (IfThere (IsUsable (map plain_log views.now) first.now)) standing.now }
    ensures part { IfOk result (λ near. IsPart near first.now) }
    ensures touch { IfOk result (λ near. AllTouch near (map (option_map (task_of (map plain_log views.now))) standing.now)) }
{
    let mut places = BTreeSet::new(alloc);
    for i in 0..standing.len() {
        let slot = standing[i];
        if let Some(spot) = slot {
            add_places(&intent_at(views, spot).packet, &mut places)?;
        }
    }
    registers_at(alloc, &places, first)
}

/// Adds the places of the packet's operations.
fn add_places(packet: &Packet, to: &mut BTreeSet<Place>) -> Result<(), NoMemory>
    ensures kept { IfOk result (λ _. StayIn to.old to.new) }
    ensures added { IfOk result (λ _. AreIn to.new packet.now.ops.items) }
{
    for i in 0..packet.ops.len() {
        to.insert(packet.ops.get(i).place)?;
    }
    Ok(())
}

/// The registers of `first` at these places.
fn registers_at(
    alloc: Global,
    places: &BTreeSet<Place>,
    first: &PlaceMap,
) -> Result<PlaceMap, NoMemory>
    ensures { IfOk result (λ near. near ≡ retain_keys first.now (set.contains place_cmp places.now)) }
{
    let mut rows = Vec::new(alloc);
    let all = first.rows();
    for row in all {
        if places.contains(&row.0) {
            rows.push(*row)?;
        }
    }
    PlaceMap::of(alloc, rows.as_slice())
}
