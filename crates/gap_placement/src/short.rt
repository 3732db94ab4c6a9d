//! Legs that are shortened to the near places. The search walks a leg again for each order that it tries, so a leg
//! keeps one change for each near place: what its first change there finds, and what its last one leaves. What its
//! changes find elsewhere, and behind others of the leg, is the same in every order: it is looked at once.

ghost use Rattle.std.specs.Prelude.{◌≡◌, ◌||◌, ◌∷◌, ◌++◌, [], map, IfOk, if◌then◌else◌};
ghost use Rattle.std.specs.Option.{option_map};
ghost use Rattle.std.specs.Ordering.{int_eq};
ghost use Rattle.switch_packet.specs.Replay.{register_at};
ghost use Rattle.gap_placement.specs.Facts.{Each, IfThere};
ghost use Rattle.gap_placement.specs.Legs.{plain_leg};
ghost use Rattle.gap_placement.specs.Near.{FindsAlike, IsPart, IsShortOrNone, IsTouched, is_first_at, leaving};
ghost use Rattle.gap_placement.specs.Replays.{HasPlaces, SamePlaces};

use crate::change::Change;
use crate::legs::Leg;
use std::alloc::Global;
use std::collections::BTreeSet;
use txn_model::{NoMemory, Place, PlaceMap};

/// The short legs, with which the search on the near registers finds what it finds with the legs on all registers.
/// None where it finds nothing because the logged pairs contradict each other.
pub(crate) fn shorten_legs(
    alloc: Global,
    legs: &[Leg],
    near: &PlaceMap,
    first: &PlaceMap,
) -> Result<Option<Vec<Leg>>, NoMemory>
    requires legs { Each (λ leg. HasPlaces first.now leg.changes.items) legs.now }
    requires part { IsPart near.now first.now }
    ensures found { IfOk result (λ short. FindsAlike near.now (option_map (λ l. map plain_leg l.items) short) first.now (map plain_leg legs.now)) }
    ensures places { IfOk result (λ short. IfThere (λ l. Each (λ leg. HasPlaces near.now leg.changes.items) l.items) short) }
{
    let mut known = first.copy(alloc)?;
    let mut short = Vec::new(alloc);
    for i in 0..legs.len() {
        let leg = match shorten(alloc, &legs[i], near, &mut known)? {
            Some(leg) => leg,
            None => return Ok(None),
        };
        short.push(leg)?;
    }
    Ok(Some(short))
}

/// Shortens a leg, where `known` has the numbers at the places that aren't near, and then those behind the leg. None
/// where a change doesn't find its number, whatever stands at the near places.
fn shorten(
    alloc: Global,
    leg: &Leg,
    near: &PlaceMap,
    known: &mut PlaceMap,
) -> Result<Option<Leg>, NoMemory>
    requires { HasPlaces known.old leg.now.changes.items }
    ensures short { IfOk result (λ short. IsShortOrNone near.now known.old (plain_leg leg.now) known.new (option_map plain_leg short)) }
    ensures same { IfOk result (λ _. SamePlaces known.old known.new) }
{
    let mut demands = Vec::new(alloc);
    let mut touched = BTreeSet::new(alloc);
    let changes = leg.changes.as_slice();
    for change in changes {
        let fits = note(*change, near, known, &mut touched, &mut demands)?;
        if !fits {
            return Ok(None);
        }
        known.set(change.place, change.now);
    }
    let lasting = last_changes(alloc, demands.as_slice(), known)?;
    Ok(Some(Leg {
        number: leg.number,
        changes: lasting,
    }))
}

/// Takes note of a change: the first one at a near place is a demand. False where another one doesn't find what is
/// known to stand at its place.
fn note(
    change: Change,
    near: &PlaceMap,
    known: &PlaceMap,
    touched: &mut BTreeSet<Place>,
    demands: &mut Vec<Change>,
) -> Result<bool, NoMemory>
    ensures demands { IfOk result (λ _. demands.new.items ≡ (if is_first_at near.now touched.old change.place then demands.old.items ++ change ∷ [] else demands.old.items)) }
    ensures touched { IfOk result (λ _. IsTouched (is_first_at near.now touched.old change.place) change.place touched.old touched.new) }
    ensures fits { IfOk result (λ fits. fits ≡ (is_first_at near.now touched.old change.place || int_eq (register_at known.now change.place) change.was)) }
{
    let is_first = is_first_touch(near, change.place, touched)?;
    if is_first {
        demands.push(change)?;
        return Ok(true);
    }
    if known.get(change.place).unwrap_or(0) != change.was {
        return Ok(false);
    }
    Ok(true)
}

/// Whether the place is near, and wasn't touched before; then it is.
fn is_first_touch(
    near: &PlaceMap,
    place: Place,
    touched: &mut BTreeSet<Place>,
) -> Result<bool, NoMemory>
    ensures first { IfOk result (λ is_first. is_first ≡ is_first_at near.now touched.old place) }
    ensures touched { IfOk result (λ _. IsTouched (is_first_at near.now touched.old place) place touched.old touched.new) }
{
    if near.get(place).is_none() {
        return Ok(false);
    }
    Ok(touched.insert(place)?)
}

/// The changes, each of which leaves what the map has at its place.
fn last_changes(alloc: Global, changes: &[Change], last: &PlaceMap) -> Result<Vec<Change>, NoMemory>
    ensures { IfOk result (λ lasting. lasting.items ≡ leaving last.now changes.now) }
{
    let lasting: Vec<Change> = changes
        .iter()
        .map(|change| Change {
            now: last.get(change.place).unwrap_or(0),
            ..*change
        })
        .collect(alloc)?;
    Ok(lasting)
}
