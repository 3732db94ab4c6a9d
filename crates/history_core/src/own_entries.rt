//! The entries of one client.

ghost use Rattle.std.specs.Prelude.{◌≡◌, ◌+◌, ◌-◌, ◌<◌, ◌≤◌, ◌==◌, [], ◌∷◌, ◌++◌, length, vec_len, vec_capacity, map, find, slice_get, All, IfOk, Some, None};
ghost use Rattle.std.specs.Option.{option_map, option_and_then};
ghost use Rattle.catalogue.specs.Items.{plain_item, plain_items};
ghost use Rattle.txn_model.specs.declared.pairs.Pair.{Pair};
ghost use Rattle.history_model.specs.History.{History};
ghost use Rattle.history_model.specs.declared.entry.Entry as model;
ghost use Rattle.history_core.specs.Own.{IsRising, plain_kept, room_in, without_open};
ghost use Rattle.history_core.specs.Runs.{ops_of};

use catalogue::Item;
use history_model::Entry;
use std::alloc::Global;
use std::marker::Model;
use txn_model::{MOST_OPS, NoMemory, Pairs};

/// An entry, with the pairs of its reply once it is answered.
#[derive(Debug, Drop)]
pub(crate) struct Kept {
    pub entry: Entry,
    pub is_answered: bool,
    pub pairs: Pairs,
}

/// The entries of one client in the order in which they came, and room for as many as it has items.
#[derive(Debug, Drop)]
pub(crate) struct OwnEntries {
    /// How many operations each item has; None where it is no transaction.
    ops: Vec<Option<usize>>,
    entries: Vec<Kept>,
    /// Room for the replies of items that have no entry.
    rooms: Vec<Pairs>,
}

impl Model for OwnEntries {
    ghost use Rattle.history_core.specs.Plain.{Own, own_code};

    ghost Value = { Own };

    ghost coded = { own_code };

    ghost use Rattle.std.specs.Prelude.{map};
    ghost use Rattle.history_core.specs.Own.{plain_kept, HasRoom};

    ghost view = { λ a. record { ops = a.ops.items; entries = map plain_kept a.entries.items } };

    ghost invariant = { λ a. HasRoom a.ops.items a.entries a.rooms };
}

impl Kept {
    /// The pairs of the reply; None exactly where it is unanswered.
    pub fn reply(&self) -> Option<&Pairs>
        ensures { option_map (λ pairs. pairs.now.items) result ≡ (plain_kept self.now).pairs }
    {
        if self.is_answered {
            Some(&self.pairs)
        } else {
            None
        }
    }
}

impl OwnEntries {
    /// No entries, and room for those of these items.
    pub fn fresh(alloc: Global, items: &[Item]) -> Result<OwnEntries, NoMemory>
        ensures ops { IfOk result (λ own. own.ops ≡ map ops_of (plain_items items.now)) }
        ensures entries { IfOk result (λ own. own.entries ≡ []) }
    {
        Ok(OwnEntries {
            ops: numbers_of_ops(alloc, items)?,
            entries: Vec::with_capacity(alloc, items.len())?,
            rooms: rooms_for(alloc, items.len())?,
        })
    }

    /// Adds an unanswered entry at the end.
    pub fn push(&mut self, entry: Entry)
        requires { length self.old.entries < length self.old.ops }
        ensures { self.new ≡ record self.old { entries = self.old.entries ++ record { entry = entry; pairs = None } ∷ [] } }
    {
        if let Some(pairs) = self.rooms.pop() {
            self.entries.push_reserved(Kept {
                entry,
                is_answered: false,
                pairs,
            });
        }
    }

    /// Answers the last entry by the pairs of its reply.
    pub fn answer(&mut self, pairs: &Pairs)
        requires some { 1 ≤ length self.old.entries }
        requires short { length pairs.now.items ≤ 16 }
        ensures { (before : History) (entry : model.Entry) → self.old.entries ≡ before ++ record { entry = entry; pairs = None } ∷ []
            → self.new ≡ record self.old { entries = before ++ record { entry = entry; pairs = Some pairs.now.items } ∷ [] } }
    {
        let last = self.entries.len() - 1;
        let kept = &mut self.entries[last];
        kept.is_answered = true;
        refill(&mut kept.pairs, pairs);
    }

    /// Takes the last entry out where it is unanswered.
    pub fn drop_open(&mut self)
        ensures { self.new ≡ record self.old { entries = without_open self.old.entries } }
    {
        if let Some(kept) = self.entries.pop() {
            if kept.is_answered {
                self.entries.push_reserved(kept);
            } else {
                self.rooms.push_reserved(kept.pairs);
            }
        }
    }

    /// How many entries there are.
    pub fn len(&self) -> usize
        ensures { result ≡ length self.now.entries }
    {
        self.entries.len()
    }

    /// The entry at a place, counted from 0; None exactly behind the last one.
    pub fn get(&self, i: usize) -> Option<&Kept>
        ensures { option_map (λ kept. plain_kept kept.now) result ≡ slice_get self.now.entries i }
    {
        self.entries.get(i)
    }

    /// The entry of the item with this number; None exactly where it has none.
    pub fn find(&self, seq: u32) -> Option<&Kept>
        requires { IsRising self.now.entries }
        ensures { option_map (λ kept. plain_kept kept.now) result ≡ find (λ e. e.entry.seq == seq) self.now.entries }
    {
        match self
            .entries
            .binary_search_by_key(&seq, |kept| kept.entry.seq)
        {
            Ok(at) => Some(&self.entries[at]),
            Err(_) => None,
        }
    }
}

/// How many operations each item has; None where it is no transaction.
fn numbers_of_ops(alloc: Global, items: &[Item]) -> Result<Vec<Option<usize>>, NoMemory>
    ensures { IfOk result (λ ops. ops.items ≡ map ops_of (plain_items items.now)) }
{
    let mut ops = Vec::with_capacity(alloc, items.len())?;
    for item in items {
        ops.push(number_of_ops(item))?;
    }
    Ok(ops)
}

fn number_of_ops(item: &Item) -> Option<usize>
    ensures { result ≡ ops_of (plain_item item.now) }
{
    match item {
        Item::Run(script) => Some(script.len()),
        Item::Lose => None,
    }
}

/// Room for this many replies.
fn rooms_for(alloc: Global, replies: usize) -> Result<Vec<Pairs>, NoMemory>
    ensures many { IfOk result (λ rooms. length rooms.items ≡ replies) }
    ensures room { IfOk result (λ rooms. replies ≤ vec_capacity rooms) }
    ensures wide { IfOk result (λ rooms. All (λ room. 16 ≤ room_in room) rooms.items) }
{
    let mut rooms = Vec::with_capacity(alloc, replies)?;
    for _ in 0..replies {
        rooms.push_reserved(Pairs::of(Vec::with_capacity(alloc, MOST_OPS)?));
    }
    Ok(rooms)
}

/// Puts other pairs in place of these, in the room that these have.
fn refill(to: &mut Pairs, pairs: &Pairs)
    requires { length pairs.now.items ≤ room_in to.old }
    ensures items { to.new.items ≡ pairs.now.items }
    ensures room { room_in to.new ≡ room_in to.old }
{
    to.clear();
    for pair in pairs.as_slice() {
        to.push(*pair);
    }
}
