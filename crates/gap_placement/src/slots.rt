//! The numbers that the packets can have: those that logs give, and those that are free.

ghost use Rattle.std.specs.Prelude.{◌≡◌, length, map, replicate, true, None, Some, IfOk, if◌then◌else◌};
ghost use Rattle.std.specs.Option.{option_map};
ghost use Rattle.switch_packet.specs.Packets.{plain_log};
ghost use Rattle.placement_model.specs.FirstOrder.{put_all, open_ones};
ghost use Rattle.gap_placement.specs.Facts.{Each, IfThere, IsAnswered};
ghost use Rattle.gap_placement.specs.Slots.{put_at};
ghost use Rattle.gap_placement.specs.Spots.{task_of, IsSpot};

use crate::spot::{Spot, is_answered, outcome_at};
use std::alloc::Global;
use switch_packet::LogView;
use txn_model::NoMemory;

/// So many free slots.
pub(crate) fn free_slots(alloc: Global, count: usize) -> Result<Vec<Option<Spot>>, NoMemory>
    ensures { IfOk result (λ slots. slots.items ≡ replicate count None) }
{
    let mut slots = Vec::with_capacity(alloc, count)?;
    for _ in 0..count {
        slots.push_reserved(None);
    }
    Ok(slots)
}

/// Puts the intent at its number, which counts from 1; false, and nothing else, where there is no slot with that
/// number, or another one has it.
fn put(slots: &mut Vec<Option<Spot>>, number: u64, spot: Spot) -> bool
    ensures { (if result then Some slots.new.items else None) ≡ put_at number spot slots.old.items }
{
    if number == 0 || number > slots.len() as u64 {
        return false;
    }
    let at = (number - 1) as usize;
    let there = slots[at];
    if there.is_some() {
        return false;
    }
    slots[at] = Some(spot);
    true
}

/// Puts each answered intent at the number that its outcome has; false where one can't be put.
pub(crate) fn put_answered(views: &[LogView], spots: &[Spot], slots: &mut Vec<Option<Spot>>) -> bool
    requires spots { Each (IsSpot (map plain_log views.now)) spots.now }
    requires slots { Each (IfThere (IsAnswered (map plain_log views.now))) slots.old.items }
    ensures put { (if result then Some (map (option_map (task_of (map plain_log views.now))) slots.new.items) else None)
        ≡ put_all (map (task_of (map plain_log views.now)) spots.now) (map (option_map (task_of (map plain_log views.now))) slots.old.items) }
    ensures slots { result ≡ true → Each (IfThere (IsAnswered (map plain_log views.now))) slots.new.items }
{
    for spot in spots {
        if is_answered(views, *spot) {
            let number = outcome_at(views, *spot).number;
            if !put(slots, number, *spot) {
                return false;
            }
        }
    }
    true
}

/// The intents without an outcome, which stand open.
pub(crate) fn open_spots(
    alloc: Global,
    views: &[LogView],
    spots: &[Spot],
) -> Result<Vec<Option<Spot>>, NoMemory>
    requires { Each (IsSpot (map plain_log views.now)) spots.now }
    ensures open_ones { IfOk result (λ standing. map (option_map (task_of (map plain_log views.now))) standing.items
        ≡ open_ones (map (task_of (map plain_log views.now)) spots.now)) }
    ensures spots { IfOk result (λ standing. Each (IfThere (IsSpot (map plain_log views.now))) standing.items) }
{
    let mut standing = Vec::new(alloc);
    for spot in spots {
        if !is_answered(views, *spot) {
            standing.push(Some(*spot))?;
        }
    }
    Ok(standing)
}
