//! Restoring the switch from what the clients' logs say.

ghost use Rattle.std.specs.Prelude.{◌≡◌, ℕ, length, map, Some};
ghost use Rattle.std.specs.Option.{option_map};
ghost use Rattle.catalogue.specs.PlanOf.{plan_of};
ghost use Rattle.switch_packet.specs.Packets.{plain_log, plain_intent};
ghost use Rattle.switch_recovery.specs.Restoring.{AreViews, is_bad, bad_item, bad_from, Restores};
ghost use Rattle.switch_recovery.specs.declared.restored.RestoreFault.TheVariants.{NoMemory};

use catalogue::Session;
use gap_placement::{Placement, place_all};
use std::alloc::Global;
use switch_packet::{Intent, LogView};
use txn_model::PlaceMap;

/// The switch behind all packets of the logs.
#[derive(Debug, Drop)]
pub struct Restored {
    /// The packets by their numbers, which count from 1.
    pub placement: Placement,
    /// What the registers hold then, for each place of the layout.
    pub registers: PlaceMap,
    /// The number of the next packet.
    pub next: u64,
}

/// Why the switch can't be restored.
#[derive(Clone, Copy, Debug, PartialEq, Eq)]
pub enum RestoreFault {
    /// An intent's packet names a place outside the layout: the first client with one, and the item of
    /// its first one.
    BadIntent(u8, u32),
    /// No order of the packets fits the logs.
    NoOrder,
    /// No memory was left.
    NoMemory,
}

impl From<txn_model::NoMemory> for RestoreFault {
    ghost from_gives = { λ _ fault. fault ≡ NoMemory };

    fn from(_: txn_model::NoMemory) -> Self {
        RestoreFault::NoMemory
    }
}

/// Restores the switch: the first placement of the logs' packets, the registers that the replay of all of them
/// in this order leaves, and the next number. View c is that of client c.
///
/// `BadIntent` comes exactly where an intent names a place outside the layout, `NoOrder` exactly where none does
/// and no placement exists.
pub fn restore(
    alloc: Global,
    views: &[LogView],
    session: &Session,
) -> Result<Restored, RestoreFault>
    requires count { length views.now ≡ length (plan_of session.now).clients }
    requires read { AreViews 0 (map plain_log views.now) }
    ensures { Restores (plan_of session.now) (map plain_log views.now) result }
{
    let first = session.hot_cells(alloc)?;
    if let Some((client, seq)) = bad_intent(views, &first, session.clients()) {
        return Err(RestoreFault::BadIntent(client, seq));
    }
    match place_all(alloc, views, &first)? {
        Some(placed) => Ok(Restored {
            next: placed.placement.as_slice().len() as u64 + 1,
            placement: placed.placement,
            registers: placed.registers,
        }),
        None => Err(RestoreFault::NoOrder),
    }
}

/// The first client with an intent that names a place outside the layout, and the item of its first one.
fn bad_intent(views: &[LogView], cells: &PlaceMap, clients: u8) -> Option<(u8, u32)>
    requires { length views.now ≡ clients }
    ensures { result ≡ bad_from cells.now 0 (map plain_log views.now) }
{
    for client in 0..clients {
        let intents = views[client as usize].intents.as_slice();
        if let Some(seq) = bad_seq(intents, cells) {
            return Some((client, seq));
        }
    }
    None
}

/// The item of the first intent that names a place outside the layout.
fn bad_seq(intents: &[Intent], cells: &PlaceMap) -> Option<u32>
    ensures { result ≡ bad_item cells.now (map plain_intent intents.now) }
{
    for intent in intents {
        if is_bad(intent, cells) {
            return Some(intent.packet.seq);
        }
    }
    None
}

/// Whether the intent names a place outside the layout.
fn is_bad(intent: &Intent, cells: &PlaceMap) -> bool
    ensures { result ≡ is_bad cells.now (plain_intent intent.now) }
{
    let ops = intent.packet.ops.as_slice();
    ops.iter().any(|op| cells.get(op.place).is_none())
}
