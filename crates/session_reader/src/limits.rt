//! The limits of sessions.

ghost use Rattle.std.specs.Prelude.{◌≡◌, map, length, nat_le, sum_by, None};
ghost use Rattle.std.specs.List.{list_all};
ghost use Rattle.session_draft.specs.Written.{written_item, written_items, written};
ghost use Rattle.session_reader.specs.Limits.{of_script, has_ops_that_fit, has_needs_that_fit, over_size, over_count, over_limit};

use crate::fault::Limit;
use catalogue::{MOST_CLIENTS, MOST_ITEMS, MOST_ROWS, MOST_TRIES, MOST_TUPLES};
use session_draft::{Draft, ItemDraft, ShapeDraft};
use stage_layout::{MOST_ARRAYS, MOST_CELLS, MOST_HOSTS, MOST_STAGES};
use txn_model::MOST_OPS;

/// The most needs of an operation.
const MOST_NEEDS: usize = 4;

/// The first limit that isn't kept.
#[tactic(auto, unfolding(crate::specs::Limits::over_limit))]
pub(crate) fn over_limit(draft: &Draft) -> Option<Limit>
    ensures { result ≡ over_limit (written draft.now) }
{
    match over_size(&draft.shape) {
        Some(limit) => Some(limit),
        None => over_count(draft),
    }
}

fn over_size(shape: &ShapeDraft) -> Option<Limit>
    ensures { result ≡ over_size shape.now None }
{
    if !(1..=MOST_STAGES).contains(&shape.stages) {
        Some(Limit::Stages)
    } else if !(1..=MOST_ARRAYS).contains(&shape.arrays) {
        Some(Limit::Arrays)
    } else if !(1..=MOST_CELLS).contains(&shape.cells) {
        Some(Limit::Cells)
    } else if shape.split > shape.stages {
        Some(Limit::Split)
    } else if !(1..=MOST_HOSTS).contains(&shape.hosts) {
        Some(Limit::Hosts)
    } else {
        None
    }
}

fn over_count(draft: &Draft) -> Option<Limit>
    ensures { result ≡ over_count (written draft.now) }
{
    let clients = draft.clients.as_slice();
    if draft.tuples.len() > MOST_TUPLES {
        Some(Limit::Tuples)
    } else if draft.layout.len() > MOST_ROWS {
        Some(Limit::Layout)
    } else if !(1..=MOST_TRIES).contains(&draft.tries) {
        Some(Limit::Tries)
    } else if clients.len() > usize::from(MOST_CLIENTS) {
        Some(Limit::Clients)
    } else if !items_fit(clients) {
        Some(Limit::Items)
    } else if !ops_fit(clients) {
        Some(Limit::Ops)
    } else if !needs_fit(clients) {
        Some(Limit::Needs)
    } else {
        None
    }
}

fn items_fit(clients: &[Vec<ItemDraft>]) -> bool
    ensures { result ≡ nat_le (sum_by length (map written_items clients.now)) MOST_ITEMS }
{
    let mut room = MOST_ITEMS;
    for items in clients {
        match room.checked_sub(items.len()) {
            Some(left) => room = left,
            None => return false,
        }
    }
    true
}

fn item_ops_fit(item: &ItemDraft) -> bool
    ensures { result ≡ of_script has_ops_that_fit (written_item item.now) }
{
    match item {
        ItemDraft::Run(ops) => (1..=MOST_OPS).contains(&ops.len()),
        ItemDraft::Lose => true,
    }
}

fn client_ops_fit(items: &[ItemDraft]) -> bool
    ensures { result ≡ list_all (of_script has_ops_that_fit) (map written_item items.now) }
{
    items.iter().all(item_ops_fit)
}

fn ops_fit(clients: &[Vec<ItemDraft>]) -> bool
    ensures { result ≡ list_all (list_all (of_script has_ops_that_fit)) (map written_items clients.now) }
{
    clients.iter().all(|items| client_ops_fit(items.as_slice()))
}

fn item_needs_fit(item: &ItemDraft) -> bool
    ensures { result ≡ of_script has_needs_that_fit (written_item item.now) }
{
    match item {
        ItemDraft::Run(ops) => ops.iter().all(|op| op.needs.len() <= MOST_NEEDS),
        ItemDraft::Lose => true,
    }
}

fn client_needs_fit(items: &[ItemDraft]) -> bool
    ensures { result ≡ list_all (of_script has_needs_that_fit) (map written_item items.now) }
{
    items.iter().all(item_needs_fit)
}

fn needs_fit(clients: &[Vec<ItemDraft>]) -> bool
    ensures { result ≡ list_all (list_all (of_script has_needs_that_fit)) (map written_items clients.now) }
{
    clients
        .iter()
        .all(|items| client_needs_fit(items.as_slice()))
}
