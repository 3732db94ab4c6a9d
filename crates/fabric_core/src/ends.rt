//! How items end.

ghost use Rattle.std.specs.Prelude.{◌≡◌, if◌then◌else◌, nat_lt};
ghost use Rattle.std.specs.Option.{option_map};
ghost use Rattle.core_model.specs.Ends as ends;

use core_model::ItemEnd;
use history_core::History;
use txn_model::Stamp;

/// How an item that is a transaction has ended, where its client is now at the item with this number.
pub(crate) fn script_end(history: &History, client: u8, seq: u32, present: u32) -> ItemEnd
    ensures { result ≡ ends.script_end (ends.answered_entry client seq history.now.items) seq present }
{
    match stamp_of(history, client, seq) {
        Some(stamp) => ItemEnd::Committed(stamp),
        None => {
            if seq < present {
                ItemEnd::Aborted
            } else {
                ItemEnd::Pending
            }
        }
    }
}

/// How a loss of the switch has ended.
pub(crate) fn loss_end(seq: u32, present: u32) -> ItemEnd
    ensures { result ≡ (if nat_lt seq present then ItemEnd.Lost else ItemEnd.Pending) }
{
    if seq < present {
        ItemEnd::Lost
    } else {
        ItemEnd::Pending
    }
}

/// The stamp of an item's answered entry; None where it has none.
fn stamp_of(history: &History, client: u8, seq: u32) -> Option<Stamp>
    ensures { result ≡ option_map (λ e. e.entry.stamp) (ends.answered_entry client seq history.now.items) }
{
    let _reply = history.reply(client, seq)?;
    let entry = history.entry(client, seq)?;
    Some(entry.stamp)
}
