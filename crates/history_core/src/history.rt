//! Histories.

ghost use Rattle.std.specs.Prelude.{◌≡◌, ◌==◌, ◌↔◌, ◌≤◌, [], ℕ, length, map, IfOk, IsSome, IsTrue, Some, None};
ghost use Rattle.std.specs.Option.{option_map};
ghost use Rattle.catalogue.specs.Plan.{script_at};
ghost use Rattle.catalogue.specs.PlanOf.{plan_of};
ghost use Rattle.catalogue.specs.Sound.{IsSound};
ghost use Rattle.history_model.specs.History.{IsInStampOrder, with_entry};
ghost use Rattle.history_model.specs.Legal.{IsLegal};
ghost use Rattle.history_core.specs.Answers.{entries_of, entry_of, reply_of, with_reply, answered_ones, HasNoneTwice, IsAboveOwn, IsOpenLast, OnlyLastOpen};
ghost use Rattle.history_core.specs.Merge.{AreOwn, all_entries, all_runs};
ghost use Rattle.history_core.specs.Own.{plain_kept};
ghost use Rattle.history_core.specs.Runs.{ops_at, runs_of};

use crate::legal::are_legal;
use crate::own_entries::{Kept, OwnEntries};
use crate::walk::Walk;
use catalogue::Session;
use history_model::Entry;
use std::alloc::Global;
use std::marker::Model;
use txn_model::{NoMemory, Pairs};

/// The entries of a run's transactions, each with its pairs where it is answered.
///
/// They are kept by client, each client's as they came, and are merged in stamp order where they are
/// read. There is room for an entry and a reply of each item, so that nothing but making one takes
/// memory.
#[derive(Debug, Drop)]
pub struct History {
    owns: Vec<OwnEntries>,
}

impl Model for History {
    ghost use Rattle.history_core.specs.Recorded.{Recorded, recorded_code};

    ghost Value = { Recorded };

    ghost coded = { recorded_code };

    ghost use Rattle.history_core.specs.Merge.{AreOwn, all_entries, all_runs};

    ghost view = { λ a. record { items = all_entries a.owns.items; runs = all_runs a.owns.items } };

    ghost invariant = { λ a. AreOwn a.owns.items };
}

impl History {
    /// The history of a session before its run: no entries, and room for one of each transaction.
    pub fn for_session(alloc: Global, session: &Session) -> Result<History, NoMemory>
        requires { IsSound (plan_of session.now) }
        ensures { IfOk result (λ history. history ≡ record { items = []; runs = runs_of (plan_of session.now) }) }
    {
        let clients = session.clients();
        let mut owns = Vec::with_capacity(alloc, usize::from(clients))?;
        for client in 0..clients {
            owns.push(OwnEntries::fresh(alloc, session.clients.items(client))?)?;
        }
        Ok(History { owns })
    }

    /// Puts an entry in at its place in stamp order, unanswered.
    pub fn insert(&mut self, entry: Entry)
        requires transaction { IsSome (ops_at self.old.runs entry.client entry.seq) }
        requires above { IsAboveOwn entry self.old.items }
        ensures { self.new ≡ record self.old { items = with_entry (record { entry = entry; pairs = None }) self.old.items } }
    {
        let own = &mut self.owns[usize::from(entry.client)];
        own.push(entry);
    }

    /// Answers the entry of an item by the pairs of its reply.
    pub fn answer(&mut self, client: u8, seq: u32, pairs: &Pairs)
        requires last { IsOpenLast client seq self.old.items }
        requires pairs { ops_at self.old.runs client seq ≡ Some (length pairs.now.items) }
        ensures { self.new ≡ record self.old { items = with_reply client seq pairs.now.items self.old.items } }
    {
        let own = &mut self.owns[usize::from(client)];
        own.answer(pairs);
    }

    /// Takes the unanswered entries out, and keeps their room.
    pub fn drop_unanswered(&mut self)
        requires { (client : ℕ) → OnlyLastOpen (entries_of client self.old.items) }
        ensures { self.new ≡ record self.old { items = answered_ones self.old.items } }
    {
        for own in self.owns.iter_mut() {
            own.drop_open();
        }
    }

    /// The entries in stamp order: each stands before those that follow, and no item has two.
    pub fn walk(&self) -> Walk<'_>
        ensures entries { result ≡ self.now.items }
        ensures order { IsInStampOrder self.now.items }
        ensures once { HasNoneTwice self.now.items }
    {
        Walk::over(self.owns.as_slice(), self.len())
    }

    /// How many entries there are.
    pub fn count(&self) -> u32
        ensures { result ≡ length self.now.items }
    {
        self.len() as u32
    }

    /// The entry of an item; None exactly where it has none.
    pub fn entry(&self, client: u8, seq: u32) -> Option<&Entry>
        ensures { option_map (λ entry. entry.now) result ≡ option_map (λ e. e.entry) (entry_of client seq self.now.items) }
    {
        let kept = self.find(client, seq)?;
        Some(&kept.entry)
    }

    /// The pairs of the reply to an item; None exactly where it has no entry, or an unanswered one.
    pub fn reply(&self, client: u8, seq: u32) -> Option<&Pairs>
        ensures { option_map (λ pairs. pairs.now.items) result ≡ reply_of client seq self.now.items }
    {
        let kept = self.find(client, seq)?;
        kept.reply()
    }

    /// Whether the scripts of all entries, run one after another on the session's first values, give each
    /// answered entry its pairs.
    pub fn legal(&self, alloc: Global, session: &Session) -> Result<bool, NoMemory>
        requires sound { IsSound (plan_of session.now) }
        requires runs { self.now.runs ≡ runs_of (plan_of session.now) }
        ensures { IfOk result (λ legal. IsTrue legal ↔ IsLegal (script_at (plan_of session.now)) (plan_of session.now).tuples self.now.items) }
    {
        are_legal(alloc, session, self.walk())
    }

    /// The entry of an item with its reply.
    fn find(&self, client: u8, seq: u32) -> Option<&Kept>
        ensures { option_map (λ kept. plain_kept kept.now) result ≡ entry_of client seq self.now.items }
    {
        let own = self.owns.get(usize::from(client))?;
        own.find(seq)
    }

    /// How many entries there are.
    fn len(&self) -> usize
        ensures value { result ≡ length self.now.items }
        ensures bound { result ≤ 4096 }
    {
        let mut entries = 0;
        for own in &self.owns {
            entries += own.len();
        }
        entries
    }
}
