//! The first placement of logs.

ghost use Rattle.std.specs.Prelude.{◌≡◌, ◌≤◌, length, map, IfOk};
ghost use Rattle.std.specs.Option.{option_map};
ghost use Rattle.switch_packet.specs.Packets.{plain_log};
ghost use Rattle.gap_placement.specs.Answers.{plain_rows, first_rows, first_registers, IsFirstOrNone};
ghost use Rattle.gap_placement.specs.Logs.{AreReadable, HaveTheirPlaces};

use crate::legs::legs_of;
use crate::placement::{Placed, Placement};
use crate::rows::{merged, rows};
use crate::search::search;
use crate::slots::{free_slots, open_spots, put_answered};
use crate::spot::all_spots;
use std::alloc::Global;
use switch_packet::LogView;
use txn_model::{NoMemory, PlaceMap};

/// The first placement of the packets in these logs, view i being that of client i, where `first` has what stood
/// at the places at first. None exactly where no placement exists: where a logged number is 0, above the number of
/// packets, or given twice, or no order of all packets has each logged number, is above each packet's floor, and
/// gives each logged pair.
///
/// Of all placements it is the one whose list of clients, along the numbers that no log has, is least.
pub fn place(
    alloc: Global,
    views: &[LogView],
    first: &PlaceMap,
) -> Result<Option<Placement>, NoMemory>
    requires few { length views.now ≤ 8 }
    requires read { AreReadable (map plain_log views.now) }
    requires there { HaveTheirPlaces first.now (map plain_log views.now) }
    ensures rows { IfOk result (λ found. option_map plain_rows found ≡ first_rows (map plain_log views.now) first.now) }
    ensures first { IfOk result (λ found. IsFirstOrNone (map plain_log views.now) first.now found) }
{
    Ok(match place_all(alloc, views, first)? {
        Some(placed) => Some(placed.placement),
        None => None,
    })
}

/// The first placement, as `place` finds it, and the registers that the replay of all its packets leaves.
pub fn place_all(
    alloc: Global,
    views: &[LogView],
    first: &PlaceMap,
) -> Result<Option<Placed>, NoMemory>
    requires few { length views.now ≤ 8 }
    requires read { AreReadable (map plain_log views.now) }
    requires there { HaveTheirPlaces first.now (map plain_log views.now) }
    ensures rows { IfOk result (λ found. option_map (λ placed. plain_rows placed.placement) found ≡ first_rows (map plain_log views.now) first.now) }
    ensures registers { IfOk result (λ found. option_map (λ placed. placed.registers) found ≡ first_registers (map plain_log views.now) first.now) }
    ensures first { IfOk result (λ found. IsFirstOrNone (map plain_log views.now) first.now (option_map (λ placed. placed.placement) found)) }
{
    let spots = all_spots(alloc, views)?;
    let mut slots = free_slots(alloc, spots.len())?;
    if !put_answered(views, spots.as_slice(), &mut slots) {
        return Ok(None);
    }
    let mut standing = open_spots(alloc, views, spots.as_slice())?;
    let legs = match legs_of(alloc, views, slots.as_slice())? {
        Some(legs) => legs,
        None => return Ok(None),
    };
    let found = match search(alloc, views, legs.as_slice(), first, &mut standing)? {
        Some(found) => found,
        None => return Ok(None),
    };
    let order = merged(alloc, slots.as_slice(), found)?;
    Ok(Some(rows(alloc, views, order.as_slice(), first)?))
}
