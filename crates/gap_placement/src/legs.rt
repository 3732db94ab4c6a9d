//! The free numbers, and what the answered packets between them change.

ghost use Rattle.std.specs.Prelude.{◌≡◌, ◌<◌, ◌^◌, ◌++◌, [], length, map, None, Some, IfOk, if◌then◌else◌};
ghost use Rattle.std.specs.Option.{option_map};
ghost use Rattle.switch_packet.specs.Packets.{plain_log};
ghost use Rattle.gap_placement.specs.Changes.{changes_of};
ghost use Rattle.gap_placement.specs.Facts.{Each, IfThere, IsAnswered};
ghost use Rattle.gap_placement.specs.Legs.{plain_leg, legs_from};
ghost use Rattle.gap_placement.specs.Logs.{AreReadable};
ghost use Rattle.gap_placement.specs.Spots.{task_of};

use crate::change::{Change, add_changes};
use crate::spot::{Spot, intent_at, outcome_at};
use std::alloc::Global;
use switch_packet::LogView;
use txn_model::NoMemory;

/// A free number, and what the answered packets behind it change, up to the next free one.
#[derive(Debug, Drop)]
pub(crate) struct Leg {
    pub number: u64,
    pub changes: Vec<Change>,
}

/// The legs of these slots, the first one from number 0 on, which no packet has. None where an answered packet can't
/// have its number.
pub(crate) fn legs_of(
    alloc: Global,
    views: &[LogView],
    slots: &[Option<Spot>],
) -> Result<Option<Vec<Leg>>, NoMemory>
    requires few { length slots.now < 2 ^ 63 }
    requires read { AreReadable (map plain_log views.now) }
    requires slots { Each (IfThere (IsAnswered (map plain_log views.now))) slots.now }
    ensures { IfOk result (λ legs. option_map (λ l. map plain_leg l.items) legs ≡ legs_from 0 [] 1 (map (option_map (task_of (map plain_log views.now))) slots.now)) }
{
    let mut legs = Vec::new(alloc);
    let mut free = 0;
    let mut changes = Vec::new(alloc);
    for i in 0..slots.len() {
        let number = i as u64 + 1;
        let slot = slots[i];
        match slot {
            Some(spot) => {
                let can = add_answered(views, spot, number, &mut changes)?;
                if !can {
                    return Ok(None);
                }
            }
            None => {
                legs.push(Leg {
                    number: free,
                    changes,
                })?;
                free = number;
                changes = Vec::new(alloc);
            }
        }
    }
    legs.push(Leg {
        number: free,
        changes,
    })?;
    Ok(Some(legs))
}

/// Adds what an answered packet with this number changes. False where it can't have the number, or its pairs don't
/// follow from what its operations found.
fn add_answered(
    views: &[LogView],
    spot: Spot,
    number: u64,
    to: &mut Vec<Change>,
) -> Result<bool, NoMemory>
    requires read { AreReadable (map plain_log views.now) }
    requires spot { IsAnswered (map plain_log views.now) spot }
    ensures { IfOk result (λ can. (if can then Some to.new.items else None)
        ≡ option_map (λ changes. to.old.items ++ changes) (changes_of (task_of (map plain_log views.now) spot) number)) }
{
    let intent = intent_at(views, spot);
    if number <= intent.floor {
        return Ok(false);
    }
    add_changes(&intent.packet, &outcome_at(views, spot).pairs, to)
}
