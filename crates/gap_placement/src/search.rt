//! The search for the open packets at the free numbers.

ghost use Rattle.std.specs.Prelude.{◌≡◌, [], map, reverse, None, Some, Ok, IfOk, is_some, if◌then◌else◌};
ghost use Rattle.std.specs.List.{list_any};
ghost use Rattle.std.specs.Option.{option_map};
ghost use Rattle.switch_packet.specs.Packets.{plain, plain_intent, plain_log};
ghost use Rattle.gap_placement.specs.Facts.{Each, IfThere, IsUsable};
ghost use Rattle.gap_placement.specs.Legs.{plain_leg, passed, seek, start};
ghost use Rattle.gap_placement.specs.Replays.{CanReplay, HasPlaces};
ghost use Rattle.gap_placement.specs.Spots.{task_of};

use crate::change::walk;
use crate::legs::Leg;
use crate::near::near_registers;
use crate::replay::replay_packet;
use crate::short::shorten_legs;
use crate::spot::{Spot, intent_at};
use std::alloc::Global;
use switch_packet::{Intent, LogView};
use txn_model::{NoMemory, PlaceMap};

/// The registers behind an open packet with the leg's number, and behind the answered ones that follow it. None where
/// the number isn't above its floor, or an answered one's pairs contradict.
fn pass(
    alloc: Global,
    intent: &Intent,
    leg: &Leg,
    registers: &PlaceMap,
) -> Result<Option<PlaceMap>, NoMemory>
    requires replay { CanReplay registers.now (plain intent.now.packet) }
    requires places { HasPlaces registers.now leg.now.changes.items }
    ensures { IfOk result (λ after. after ≡ passed (plain_intent intent.now) leg.now.number leg.now.changes.items registers.now) }
{
    if leg.number <= intent.floor {
        return Ok(None);
    }
    let mut after = registers.copy(alloc)?;
    let _pairs = replay_packet(alloc, &intent.packet, &mut after)?;
    if !walk(leg.changes.as_slice(), &mut after) {
        return Ok(None);
    }
    Ok(Some(after))
}

/// Whether a packet stands open.
fn any_stands(standing: &[Option<Spot>]) -> bool
    ensures { result ≡ list_any is_some standing.now }
{
    standing.iter().any(|slot| slot.is_some())
}

/// Gives each leg's number to one of the packets that stand open, the first with which the rest can go on. They are
/// found from the last number to the first. None where there are none; those that stand are as they were then.
fn seek(
    alloc: Global,
    views: &[LogView],
    legs: &[Leg],
    registers: &PlaceMap,
    standing: &mut Vec<Option<Spot>>,
) -> Result<Option<Vec<Spot>>, NoMemory>
    requires legs { Each (λ leg. HasPlaces registers.now leg.changes.items) legs.now }
    requires standing { Each (IfThere (IsUsable (map plain_log views.now) registers.now)) standing.old.items }
    ensures found { IfOk result (λ found. option_map (λ spots. map (task_of (map plain_log views.now)) (reverse spots.items)) found
        ≡ seek (map plain_leg legs.now) registers.now (map (option_map (task_of (map plain_log views.now))) standing.old.items)) }
    ensures usable { IfOk result (λ found. IfThere (λ spots. Each (IsUsable (map plain_log views.now) registers.now) spots.items) found) }
    ensures kept { result ≡ Ok None → standing.new.items ≡ standing.old.items }
{
    if legs.is_empty() {
        if any_stands(standing.as_slice()) {
            return Ok(None);
        }
        return Ok(Some(Vec::new(alloc)));
    }
    let leg = &legs[0];
    for k in 0..standing.len() {
        let slot = standing[k];
        if let Some(spot) = slot {
            let next = pass(alloc, intent_at(views, spot), leg, registers)?;
            if let Some(after) = next {
                standing[k] = None;
                let more = seek(alloc, views, &legs[1..], &after, standing)?;
                if let Some(mut found) = more {
                    found.push(spot)?;
                    return Ok(Some(found));
                }
                standing[k] = slot;
            }
        }
    }
    Ok(None)
}

/// Finds the open packets at the free numbers, from the registers' first numbers on. None where there are none.
pub(crate) fn search(
    alloc: Global,
    views: &[LogView],
    legs: &[Leg],
    first: &PlaceMap,
    standing: &mut Vec<Option<Spot>>,
) -> Result<Option<Vec<Spot>>, NoMemory>
    requires legs { Each (λ leg. HasPlaces first.now leg.changes.items) legs.now }
    requires standing { Each (IfThere (IsUsable (map plain_log views.now) first.now)) standing.old.items }
    ensures found { IfOk result (λ found. option_map (λ spots. map (task_of (map plain_log views.now)) (reverse spots.items)) found
        ≡ start (map plain_leg legs.now) first.now (map (option_map (task_of (map plain_log views.now))) standing.old.items)) }
    ensures usable { IfOk result (λ found. IfThere (λ spots. Each (IsUsable (map plain_log views.now) first.now) spots.items) found) }
{
    let near = near_registers(alloc, views, standing.as_slice(), first)?;
    let short = match shorten_legs(alloc, legs, &near, first)? {
        Some(short) => short,
        None => return Ok(None),
    };
    search_from(alloc, views, short.as_slice(), &near, standing)
}

/// The same, step by step: each order that is tried walks the legs again.
fn search_from(
    alloc: Global,
    views: &[LogView],
    legs: &[Leg],
    first: &PlaceMap,
    standing: &mut Vec<Option<Spot>>,
) -> Result<Option<Vec<Spot>>, NoMemory>
    requires legs { Each (λ leg. HasPlaces first.now leg.changes.items) legs.now }
    requires standing { Each (IfThere (IsUsable (map plain_log views.now) first.now)) standing.old.items }
    ensures found { IfOk result (λ found. option_map (λ spots. map (task_of (map plain_log views.now)) (reverse spots.items)) found
        ≡ start (map plain_leg legs.now) first.now (map (option_map (task_of (map plain_log views.now))) standing.old.items)) }
    ensures usable { IfOk result (λ found. IfThere (λ spots. Each (IsUsable (map plain_log views.now) first.now) spots.items) found) }
{
    if legs.is_empty() {
        return Ok(None);
    }
    let mut registers = first.copy(alloc)?;
    if !walk(legs[0].changes.as_slice(), &mut registers) {
        return Ok(None);
    }
    seek(alloc, views, &legs[1..], &registers, standing)
}
