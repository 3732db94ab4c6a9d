//! Tuple maps: finite maps from tuples to their values.

ghost use Rattle.std.specs.Prelude.{◌≡◌, IsTrue, IsSome, IfOk};
ghost use Rattle.std.specs.FinMap.{get, insert, entries, from_sorted, is_sorted};
ghost use Rattle.txn_model.specs.Tuples.{tuple_cmp};

use crate::items::NoMemory;
use crate::op::TupleId;
use crate::rows::row_of;
use std::alloc::Global;
use std::marker::Model;

/// A finite map from tuples to numbers, in the order of the tuples. A look-up takes logarithmic time at most.
#[derive(Debug, Drop)]
pub struct TupleMap {
    rows: Vec<(TupleId, i64)>,
}

impl Model for TupleMap {
    ghost use Rattle.std.specs.Prelude.{IsTrue};
    ghost use Rattle.std.specs.FinMap as fin;
    ghost use Rattle.txn_model.specs.Tuples.{Tuples, tuples_code, tuple_cmp};

    ghost Value = { Tuples };

    ghost coded = { tuples_code };

    ghost view = { λ m. fin.from_sorted m.rows.items };

    ghost invariant = { λ m. IsTrue (fin.is_sorted tuple_cmp m.rows.items) };
}

impl TupleMap {
    /// The map with these rows.
    pub fn of(alloc: Global, rows: &[(TupleId, i64)]) -> Result<TupleMap, NoMemory>
        requires ascending { IsTrue (is_sorted tuple_cmp rows.now) }
        ensures { IfOk result (λ m. m ≡ from_sorted rows.now) }
    {
        Ok(TupleMap {
            rows: Vec::from_slice(alloc, rows)?,
        })
    }

    /// The tuple's value; None where it isn't there.
    pub fn get(&self, tuple: TupleId) -> Option<i64>
        ensures { result ≡ get self.now tuple }
    {
        match row_of(self.rows.as_slice(), tuple) {
            Some(at) => Some(self.rows[at].1),
            None => None,
        }
    }

    /// Gives a tuple that is there a new value.
    pub fn set(&mut self, tuple: TupleId, value: i64)
        requires there { IsSome (get self.old tuple) }
        ensures { self.new ≡ insert self.old tuple value }
    {
        if let Some(at) = row_of(self.rows.as_slice(), tuple) {
            self.rows[at] = (tuple, value);
        }
    }

    /// The rows, ascending by tuple.
    pub fn rows(&self) -> &[(TupleId, i64)]
        ensures { result.now ≡ entries self.now }
    {
        self.rows.as_slice()
    }

    /// An equal map.
    pub fn copy(&self, alloc: Global) -> Result<TupleMap, NoMemory>
        ensures { IfOk result (λ copy. copy ≡ self.now) }
    {
        Ok(TupleMap {
            rows: Vec::from_slice(alloc, self.rows.as_slice())?,
        })
    }
}
