//! Where an intent stands in the logs, with the outcome that answers it.

ghost use Rattle.std.specs.Prelude.{◌≡◌, ◌<◌, ◌≤◌, ◌++◌, length, map, slice_get, IfOk, is_some, true};
ghost use Rattle.std.specs.Option.{option_map};
ghost use Rattle.switch_packet.specs.Packets.{plain_intent, plain_outcome, plain_log};
ghost use Rattle.gap_placement.specs.Spots.{task_of, IsSpot, spots_from, spots_behind};

use std::alloc::Global;
use switch_packet::{Intent, LogView, Outcome};
use txn_model::NoMemory;

/// An intent's client, and its place in the client's log, counted from 0.
#[derive(Clone, Copy, Debug)]
pub(crate) struct Spot {
    pub client: u8,
    pub index: usize,
}

/// All intents, by client and then by place.
pub(crate) fn all_spots(alloc: Global, views: &[LogView]) -> Result<Vec<Spot>, NoMemory>
    requires few { length views.now ≤ 8 }
    ensures { IfOk result (λ spots. spots.items ≡ spots_behind 0 (map plain_log views.now)) }
{
    let mut spots = Vec::new(alloc);
    for client in 0..views.len() {
        add_spots(client as u8, views[client].intents.len(), &mut spots)?;
    }
    Ok(spots)
}

/// Adds the spots of a client's intents, of which there are so many.
fn add_spots(client: u8, count: usize, to: &mut Vec<Spot>) -> Result<(), NoMemory>
    ensures { IfOk result (λ _. to.new.items ≡ to.old.items ++ spots_from client 0 count) }
{
    for index in 0..count {
        to.push(Spot { client, index })?;
    }
    Ok(())
}

/// The intent there.
pub(crate) fn intent_at(views: &[LogView], spot: Spot) -> &Intent
    requires { IsSpot (map plain_log views.now) spot }
    ensures { plain_intent result.now ≡ (task_of (map plain_log views.now) spot).intent }
{
    views[spot.client as usize].intents.get(spot.index)
}

/// Whether the intent there is answered.
pub(crate) fn is_answered(views: &[LogView], spot: Spot) -> bool
    requires { IsSpot (map plain_log views.now) spot }
    ensures { result ≡ is_some (task_of (map plain_log views.now) spot).outcome }
{
    spot.index < views[spot.client as usize].outcomes.len()
}

/// The outcome that answers the intent there.
pub(crate) fn outcome_at(views: &[LogView], spot: Spot) -> &Outcome
    requires spot { IsSpot (map plain_log views.now) spot }
    requires answered { is_some (task_of (map plain_log views.now) spot).outcome ≡ true }
    ensures { (task_of (map plain_log views.now) spot).outcome ≡ Some (plain_outcome result.now) }
{
    views[spot.client as usize].outcomes.get(spot.index)
}
