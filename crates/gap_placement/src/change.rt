//! What answered packets change: each operation with its logged pair.

ghost use Rattle.std.specs.Prelude.{◌≡◌, [], ◌++◌, Some, None, IfOk, if◌then◌else◌, IsSome, All};
ghost use Rattle.std.specs.FinMap.{get};
ghost use Rattle.std.specs.Option.{option_map};
ghost use Rattle.switch_packet.specs.Packets.{plain};
ghost use Rattle.gap_placement.specs.Changes.{walk, changes_from};
ghost use Rattle.gap_placement.specs.Replays.{NeedsEarlier, HasPlaces};

use switch_packet::Packet;
use txn_model::{NoMemory, Pairs, Place, PlaceMap, effect, operand};

/// What an operation finds and leaves at its place.
#[derive(Clone, Copy, Debug)]
pub(crate) struct Change {
    pub place: Place,
    pub was: i64,
    pub now: i64,
}

/// Makes the changes in order. False where one doesn't find its number; those before it are made then.
pub(crate) fn walk(changes: &[Change], map: &mut PlaceMap) -> bool
    requires { HasPlaces map.old changes.now }
    ensures { (if result then Some map.new else None) ≡ walk changes.now map.old }
{
    for change in changes {
        if map.get(change.place).unwrap_or(0) != change.was {
            return false;
        }
        map.set(change.place, change.now);
    }
    true
}

/// Adds the changes of a packet with these pairs. False where a pair doesn't follow from what the packet's
/// operations found.
pub(crate) fn add_changes(
    packet: &Packet,
    pairs: &Pairs,
    to: &mut Vec<Change>,
) -> Result<bool, NoMemory>
    requires { NeedsEarlier packet.now.ops.items }
    ensures { IfOk result (λ local. (if local then Some to.new.items else None)
        ≡ option_map (λ changes. to.old.items ++ changes) (changes_from [] packet.now.ops.items pairs.now.items)) }
{
    if pairs.len() as usize != packet.ops.len() {
        return Ok(false);
    }
    for i in 0..pairs.len() {
        let op = packet.ops.get(i as usize);
        let pair = pairs.get(i);
        if pair.now != effect(&op.act, pair.was, operand(&op.needs, op.bias, pairs)) {
            return Ok(false);
        }
        to.push(Change {
            place: op.place,
            was: pair.was,
            now: pair.now,
        })?;
    }
    Ok(true)
}
