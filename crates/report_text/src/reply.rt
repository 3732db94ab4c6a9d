//! The section of a report that tells how the items of a world ended.

ghost use Rattle.std.specs.Prelude.{◌≡◌, ◌<◌, ◌^◌, ◌++◌, ◌≤◌, [], Some, IfOk, OnOk, length, string_bytes, unwrap_or};
ghost use Rattle.std.specs.Option.{option_map};
ghost use Rattle.catalogue.specs.Plan.{Run, Lose, item_of};
ghost use Rattle.fabric_core.specs.Running.{state_in};
ghost use Rattle.history_core.specs.Answers.{reply_of};
ghost use Rattle.report_text.specs.ReportText.{replies_text};
ghost use Rattle.report_text.specs.RunReport.{last_refusal, given_up, with_end, item_told, client_told, items_told};
ghost use Rattle.report_text.specs.Told.{Tells};

use crate::item::{push_aborted, push_committed, push_lost};
use crate::line::push_count;
use crate::refused::last_refusals;
use catalogue::Item;
use core_model::Refusal;
use fabric_core::{ItemEnd, RunName, World};
use history_core::History;
use port_io::LogRack;
use std::alloc::Global;
use txn_model::{NoMemory, Pair, Script};

/// Appends how many items have ended, and the line of each. After `NoMemory` a part of that may have been
/// appended.
#[tactic(auto, unfolding(crate::specs::ReportText::replies_text))]
pub(crate) fn push_replies<L: LogRack, N: RunName>(
    alloc: Global,
    text: &mut String,
    world: &World<L, N>,
) -> Result<(), NoMemory>
    ensures { OnOk result (string_bytes text.new
        ≡ string_bytes text.old ++ replies_text (items_told world.now.plan (state_in world.now))) }
{
    // The lines first, since the line above them counts them.
    let mut lines = String::new(alloc);
    let count = push_items(alloc, &mut lines, world)?;
    push_count(text, "replies", count)?;
    text.push_str(lines.as_str())?;
    Ok(())
}

/// Appends the line of each item that has ended, and answers how many they are.
fn push_items<L: LogRack, N: RunName>(
    alloc: Global,
    text: &mut String,
    world: &World<L, N>,
) -> Result<usize, NoMemory>
    ensures { IfOk result (λ n. Tells (items_told world.now.plan (state_in world.now)) (string_bytes text.old) (string_bytes text.new) n) }
{
    let mut count = 0;
    for client in 0..world.session().clients() {
        count += push_client(alloc, text, world, client)?;
    }
    Ok(count)
}

/// The same of one client.
fn push_client<L: LogRack, N: RunName>(
    alloc: Global,
    text: &mut String,
    world: &World<L, N>,
    client: u8,
) -> Result<usize, NoMemory>
    requires { client < length world.now.plan.clients }
    ensures told { IfOk result (λ n. Tells (client_told world.now.plan (state_in world.now) client) (string_bytes text.old) (string_bytes text.new) n) }
    ensures few { IfOk result (λ n. n < 2 ^ 32) }
{
    let items = world.session().items(client);
    let last = last_refusals(alloc, world.refusals(), client, items)?;
    let mut count = 0;
    for i in 0..items {
        count += push_item(text, world, client, i + 1, last[i as usize])?;
    }
    Ok(count)
}

/// The same of one item, whose last refusal is this one.
fn push_item<L: LogRack, N: RunName>(
    text: &mut String,
    world: &World<L, N>,
    client: u8,
    seq: u32,
    refusal: Option<Refusal>,
) -> Result<usize, NoMemory>
    requires { refusal ≡ last_refusal client seq (state_in world.now).refusals }
    ensures told { IfOk result (λ n. Tells (item_told world.now.plan (state_in world.now) client seq) (string_bytes text.old) (string_bytes text.new) n) }
    ensures few { IfOk result (λ n. n ≤ 1) }
{
    match world.session().item(client, seq) {
        Some(Item::Run(script)) => push_script(text, world, client, seq, script, refusal),
        Some(Item::Lose) => push_loss(text, world, client, seq),
        None => Ok(0),
    }
}

/// The same of an item that is this transaction.
fn push_script<L: LogRack, N: RunName>(
    text: &mut String,
    world: &World<L, N>,
    client: u8,
    seq: u32,
    script: &Script,
    refusal: Option<Refusal>,
) -> Result<usize, NoMemory>
    requires item { item_of world.now.plan client seq ≡ Some (Run script.now.items) }
    requires refusal { refusal ≡ last_refusal client seq (state_in world.now).refusals }
    ensures told { IfOk result (λ n. Tells (item_told world.now.plan (state_in world.now) client seq) (string_bytes text.old) (string_bytes text.new) n) }
    ensures few { IfOk result (λ n. n ≤ 1) }
{
    match world.item_end(client, seq) {
        ItemEnd::Committed(stamp) => {
            let kind = world.session().kind_of(script);
            let pairs = pairs_of(world.history(), client, seq);
            push_committed(text, client, seq, kind, stamp, pairs)?;
            Ok(1)
        }
        ItemEnd::Aborted => { push_refused(text, client, seq, refusal) }
        ItemEnd::Pending | ItemEnd::Lost => Ok(0),
    }
}

/// The same of an item that loses the switch.
fn push_loss<L: LogRack, N: RunName>(
    text: &mut String,
    world: &World<L, N>,
    client: u8,
    seq: u32,
) -> Result<usize, NoMemory>
    requires { item_of world.now.plan client seq ≡ Some Lose }
    ensures told { IfOk result (λ n. Tells (item_told world.now.plan (state_in world.now) client seq) (string_bytes text.old) (string_bytes text.new) n) }
    ensures few { IfOk result (λ n. n ≤ 1) }
{
    match world.item_end(client, seq) {
        ItemEnd::Lost => {
            push_lost(text, client, seq)?;
            Ok(1)
        }
        ItemEnd::Pending | ItemEnd::Committed(_) | ItemEnd::Aborted => Ok(0),
    }
}

/// The same of an item that was given up after this refusal; nothing is appended where there is none.
fn push_refused(
    text: &mut String,
    client: u8,
    seq: u32,
    refusal: Option<Refusal>,
) -> Result<usize, NoMemory>
    ensures told { IfOk result (λ n. Tells (with_end client seq (option_map given_up refusal)) (string_bytes text.old) (string_bytes text.new) n) }
    ensures few { IfOk result (λ n. n ≤ 1) }
{
    match refusal {
        Some(refusal) => {
            push_aborted(text, client, seq, refusal.tuple, refusal.holder, refusal.at)?;
            Ok(1)
        }
        None => Ok(0),
    }
}

/// The pairs of an item's reply; none where it has no entry, or an unanswered one.
fn pairs_of(history: &History, client: u8, seq: u32) -> &[Pair]
    ensures { result.now ≡ unwrap_or (reply_of client seq history.now.items) [] }
{
    match history.reply(client, seq) {
        Some(pairs) => pairs.as_slice(),
        None => &[],
    }
}
