//! Lists with a spare room that contracts see, and the answer where memory runs out.

ghost use Rattle.std.specs.Prelude.{◌≡◌, ◌+◌, ◌-◌, ◌≤◌, ◌<◌, [], ◌∷◌, ◌++◌, length, IfOk, IsTrue, ◌↔◌, slice_get, Some};
ghost use Rattle.std.specs.Prelude.{vec_len, vec_capacity};

use std::alloc::{AllocError, AllocFailed, Global};
use std::marker::Model;

/// Memory ran out. Nothing has changed, unless the call says otherwise.
#[derive(Clone, Copy, Debug, PartialEq, Eq)]
pub struct NoMemory;

impl From<AllocError> for NoMemory {
    fn from(_error: AllocError) -> NoMemory {
        NoMemory
    }
}

impl<T: Drop> From<AllocFailed<T>> for NoMemory {
    fn from(_error: AllocFailed<T>) -> NoMemory {
        NoMemory
    }
}

/// A list of items. Its `spare` says how many more can be pushed; pushing takes no memory.
#[derive(Debug, Drop)]
pub struct Items<T> {
    rows: Vec<T>,
}

impl<T> Model for Items<T> {
    ghost use Rattle.std.specs.Prelude.{◌-◌, vec_len, vec_capacity};
    ghost use Rattle.txn_model.specs.Listed.{Listed, listed_code};

    ghost Value = { Listed T };

    ghost coded = { listed_code T.code };

    ghost view = { λ a. record { items = a.rows.items; spare = vec_capacity a.rows - vec_len a.rows } };
}

impl<T> Items<T> {
    /// The list of these items, which keeps their spare room.
    pub fn of(items: Vec<T>) -> Self
        ensures items { result.items ≡ items.items }
        ensures spare { result.spare ≡ vec_capacity items - vec_len items }
    {
        Items { rows: items }
    }

    /// The items in order.
    pub fn as_slice(&self) -> &[T]
        ensures { result.now ≡ self.now.items }
    {
        self.rows.as_slice()
    }

    /// How many items there are.
    pub fn len(&self) -> usize
        ensures { result ≡ length self.now.items }
    {
        self.rows.len()
    }

    /// Whether there are none.
    pub fn is_empty(&self) -> bool
        ensures { IsTrue result ↔ (self.now.items ≡ []) }
    {
        self.rows.is_empty()
    }

    /// The item at a place, counted from 0.
    pub fn get(&self, i: usize) -> &T
        requires { i < length self.now.items }
        ensures { slice_get self.now.items i ≡ Some result.now }
    {
        &self.rows[i]
    }

    /// Adds one item at the end, in the spare room.
    pub fn push(&mut self, item: T)
        requires { 1 ≤ self.old.spare }
        ensures items { self.new.items ≡ self.old.items ++ item ∷ [] }
        ensures spare { self.new.spare + 1 ≡ self.old.spare }
    {
        self.rows.push_reserved(item);
    }

    /// Takes all items out, and keeps the room.
    pub fn clear(&mut self)
    where
        T: Drop,
        ensures items { self.new.items ≡ [] }
        ensures spare { self.new.spare ≡ length self.old.items + self.old.spare }
    {
        self.rows.clear();
    }

    /// An equal list.
    pub fn copy(&self, alloc: Global) -> Result<Self, NoMemory>
    where
        T: Copy,
        ensures { IfOk result (λ copy. copy.items ≡ self.now.items) }
    {
        Ok(Items {
            rows: Vec::from_slice(alloc, self.rows.as_slice())?,
        })
    }
}
