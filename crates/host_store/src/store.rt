//! The store of hosts.

ghost use Rattle.std.specs.Prelude.{◌≡◌, ◌<◌, ℤ, map, length, HoldsAt, IfOk, IsSome, IsTrue, Some, None, is_some};
ghost use Rattle.std.specs.Option.{option_map};
ghost use Rattle.std.specs.declared.cmp.Ordering.TheVariants.{Equal};
ghost use Rattle.std.specs.FinMap.{get, find, is_sorted};
ghost use Rattle.txn_model.specs.Tuples.{tuple_cmp};
ghost use Rattle.txn_model.specs.declared.op.TupleId.{TupleId};
ghost use Rattle.host_store.specs.Store.{first_seen, seen_at, installed};

use history_model::greater;
use std::alloc::Global;
use std::marker::Model;
use txn_model::{NoMemory, Seen, Stamp, TupleId, TupleMap, row_of};

/// The values and stamps of tuples. Which tuples there are is fixed when it is made. A tuple is read and
/// written in logarithmic time.
#[derive(Debug, Drop)]
pub struct HostStore {
    rows: Vec<(TupleId, Seen)>,
}

impl Model for HostStore {
    ghost use Rattle.std.specs.Prelude.{IsTrue};
    ghost use Rattle.std.specs.FinMap as fin;
    ghost use Rattle.txn_model.specs.Tuples.{tuple_cmp};
    ghost use Rattle.host_store.specs.Store.{Store, store_code};

    ghost Value = { Store };

    ghost coded = { store_code };

    ghost view = { λ a. fin.from_sorted a.rows.items };

    ghost invariant = { λ a. IsTrue (fin.is_sorted tuple_cmp a.rows.items) };
}

impl HostStore {
    /// The store of these tuples, each with its value and the stamp 0.0.
    pub fn fresh(alloc: Global, tuples: &TupleMap) -> Result<HostStore, NoMemory>
        ensures { IfOk result (λ store. (t : TupleId) → get store t ≡ option_map first_seen (get tuples.now t)) }
    {
        Ok(HostStore {
            rows: first_rows(alloc, tuples.rows())?,
        })
    }

    /// Whether the tuple is there.
    pub fn contains(&self, tuple: TupleId) -> bool
        ensures { result ≡ is_some (get self.now tuple) }
    {
        row_of(self.rows.as_slice(), tuple).is_some()
    }

    /// The tuple's value and stamp.
    pub fn read(&self, tuple: TupleId) -> Seen
        requires { IsSome (get self.now tuple) }
        ensures { get self.now tuple ≡ Some result }
    {
        let at = place_of(self.rows.as_slice(), tuple);
        self.rows[at].1
    }

    /// Gives the tuple this value, and this stamp where it is greater than the tuple's.
    pub fn install(&mut self, tuple: TupleId, value: i64, stamp: Stamp)
        requires { IsSome (get self.old tuple) }
        ensures { self.new ≡ installed self.old tuple value stamp }
    {
        let at = place_of(self.rows.as_slice(), tuple);
        let stamp = greater(self.rows[at].1.stamp, stamp);
        self.rows[at] = (tuple, Seen { value, stamp });
    }
}

/// The rows of a store that begins with these values.
fn first_rows(alloc: Global, rows: &[(TupleId, i64)]) -> Result<Vec<(TupleId, Seen)>, NoMemory>
    ensures { IfOk result (λ made. made.items ≡ map (λ row. (row.0, first_seen row.1)) rows.now) }
{
    let stamp = Stamp { number: 0, sub: 0 };
    let made = rows
        .iter()
        .map(|&(tuple, value)| (tuple, Seen { value, stamp }))
        .collect(alloc)?;
    Ok(made)
}

/// The place of the row of a tuple that is there.
fn place_of(rows: &[(TupleId, Seen)], tuple: TupleId) -> usize
    requires sorted { IsTrue (is_sorted tuple_cmp rows.now) }
    requires there { IsSome (find tuple_cmp tuple rows.now) }
    ensures bound { result < length rows.now }
    ensures found { HoldsAt (λ row. tuple_cmp row.0 tuple ≡ Equal) rows.now result }
{
    match row_of(rows, tuple) {
        Some(at) => at,
        None => unreachable!(),
    }
}
