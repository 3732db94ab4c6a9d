//! Lock tables.

ghost use Rattle.std.specs.Prelude.{◌≡◌, ◌==◌, ℕ, ◌<◌, length, map, HoldsAt, IfOk, IsSome, IsTrue, None};
ghost use Rattle.std.specs.declared.cmp.Ordering.TheVariants.{Equal};
ghost use Rattle.std.specs.FinMap.{find, is_sorted};
ghost use Rattle.std.specs.List.{list_any};
ghost use Rattle.txn_model.specs.Tuples.{tuple_cmp};
ghost use Rattle.host_locks.specs.Words.{free_word};

use crate::lock_word::LockWord;
use crate::mode::{Grant, Mode};
use std::alloc::Global;
use std::marker::Model;
use txn_model::{NoMemory, TupleId, row_of};

/// The most clients that hold locks. They are counted from 0.
pub const MOST_CLIENTS: u8 = 8;

/// Which client holds which tuple, and in which mode: a client has at most one lock on a tuple. The tuples
/// stand in ascending order, each with a word that has room for the locks of all clients, so that a lock
/// takes no memory. A lock is tried and given back after one look-up.
#[derive(Debug, Drop)]
pub struct LockTable {
    rows: Vec<(TupleId, LockWord)>,
}

impl Model for LockTable {
    ghost use Rattle.std.specs.Prelude.{IsTrue};
    ghost use Rattle.std.specs.FinMap as fin;
    ghost use Rattle.txn_model.specs.Tuples.{tuple_cmp};
    ghost use Rattle.host_locks.specs.Locks.{Locks, locks_code};

    ghost Value = { Locks };

    ghost coded = { locks_code };

    ghost view = { λ a. fin.from_sorted a.rows.items };

    ghost invariant = { λ a. IsTrue (fin.is_sorted tuple_cmp a.rows.items) };
}

impl LockTable {
    ghost use Rattle.host_locks.specs.Locks.{has_tuple, mode_held, IsWithLock, IsTried};

    /// The table of these tuples, without locks.
    pub fn fresh(alloc: Global, tuples: &[TupleId]) -> Result<LockTable, NoMemory>
        ensures tuples { IfOk result (λ table. (t : TupleId) → has_tuple table t ≡ list_any (λ tuple. t.0 == tuple.0) tuples.now) }
        ensures free { IfOk result (λ table. (t : TupleId) (client : ℕ) → mode_held table t client ≡ None) }
    {
        let mut ascending = Vec::from_slice(alloc, tuples)?;
        ascending.sort_unstable();
        ascending.dedup();
        Ok(LockTable {
            rows: free_rows(alloc, ascending.as_slice())?,
        })
    }

    /// Asks for a lock for a client that has none on the tuple.
    pub fn try_lock(&mut self, tuple: TupleId, mode: Mode, client: u8) -> Grant
        requires there { IsTrue (has_tuple self.old tuple) }
        requires client { client < MOST_CLIENTS }
        requires free { mode_held self.old tuple client ≡ None }
        ensures { IsTried self.old self.new tuple mode client result }
    {
        let at = place_of(self.rows.as_slice(), tuple);
        let word = self.rows[at].1;
        if let Some(other) = word.conflict(mode, client) {
            return Grant::HeldBy(other);
        }
        self.rows[at] = (tuple, word.locked(mode, client));
        Grant::Granted
    }

    /// Gives back a client's lock on the tuple.
    pub fn unlock(&mut self, tuple: TupleId, client: u8)
        requires { IsSome (mode_held self.old tuple client) }
        ensures { IsWithLock self.old self.new tuple client None }
    {
        let at = place_of(self.rows.as_slice(), tuple);
        let word = self.rows[at].1;
        self.rows[at] = (tuple, word.unlocked(client));
    }

    /// The mode in which the client holds the tuple; None exactly where it doesn't.
    pub fn mode_of(&self, tuple: TupleId, client: u8) -> Option<Mode>
        ensures { result ≡ mode_held self.now tuple client }
    {
        match row_of(self.rows.as_slice(), tuple) {
            Some(at) => self.rows[at].1.mode_of(client),
            None => None,
        }
    }
}

/// The rows of a table of these tuples, without locks.
fn free_rows(alloc: Global, tuples: &[TupleId]) -> Result<Vec<(TupleId, LockWord)>, NoMemory>
    ensures { IfOk result (λ rows. rows.items ≡ map (λ tuple. (tuple, free_word)) tuples.now) }
{
    let rows = tuples
        .iter()
        .map(|&tuple| (tuple, LockWord::free()))
        .collect(alloc)?;
    Ok(rows)
}

/// The place of the row of a tuple that is there.
fn place_of(rows: &[(TupleId, LockWord)], tuple: TupleId) -> usize
    requires sorted { IsTrue (is_sorted tuple_cmp rows.now) }
    requires there { IsSome (find tuple_cmp tuple rows.now) }
    ensures bound { result < length rows.now }
    ensures found { HoldsAt (λ row. tuple_cmp row.0 tuple ≡ Equal) rows.now result }
{
    match row_of(rows, tuple) {
        Some(at) => at,
        None => unreachable!(),
    }
}
