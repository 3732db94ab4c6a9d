//! Replies: what each operation of a script found and left.

ghost use Rattle.std.specs.Prelude.{◌≡◌, ◌+◌, ◌-◌, ◌≤◌, ◌<◌, [], ◌∷◌, ◌++◌, length, replicate, pos, IfOk, IsTrue, ◌↔◌, slice_get, slice_set, Some, vec_len, vec_capacity};

use crate::items::NoMemory;
use std::alloc::Global;
use std::marker::Model;

/// What one operation found, and what it left.
#[derive(Clone, Copy, Debug, PartialEq, Eq)]
pub struct Pair {
    pub was: i64,
    pub now: i64,
}

impl Pair {
    /// The pair of an operation that wasn't executed yet.
    pub const ZERO: Pair = Pair { was: 0, now: 0 };
}

/// A list of at most 255 pairs. Its `spare` says how many more can be pushed without memory.
#[derive(Debug, Drop)]
pub struct Pairs {
    rows: Vec<Pair>,
}

impl Model for Pairs {
    ghost use Rattle.std.specs.Prelude.{◌-◌, ◌≤◌, length, vec_len, vec_capacity};
    ghost use Rattle.txn_model.specs.Listed.{Listed};
    ghost use Rattle.txn_model.specs.declared.pairs.Pair.{Pair};

    ghost Value = { Listed Pair };

    ghost view = { λ a. record { items = a.rows.items; spare = vec_capacity a.rows - vec_len a.rows } };

    ghost invariant = { λ a. length a.rows.items ≤ 255 };
}

impl Pairs {
    /// As many pairs of zeros.
    pub fn zeros(alloc: Global, len: u8) -> Result<Pairs, NoMemory>
        ensures { IfOk result (λ pairs. pairs.items ≡ replicate len (record { was = pos 0; now = pos 0 })) }
    {
        Ok(Pairs {
            rows: vec![in alloc; Pair::ZERO; len as usize]?,
        })
    }

    /// The list of these pairs, which keeps their spare room.
    pub fn of(items: Vec<Pair>) -> Pairs
        requires { length items.items ≤ 255 }
        ensures items { result.items ≡ items.items }
        ensures spare { result.spare ≡ vec_capacity items - vec_len items }
    {
        Pairs { rows: items }
    }

    /// The pairs in order.
    pub fn as_slice(&self) -> &[Pair]
        ensures items { result.now ≡ self.now.items }
        ensures bound { length self.now.items ≤ 255 }
    {
        self.rows.as_slice()
    }

    /// How many pairs there are.
    pub fn len(&self) -> u8
        ensures value { result ≡ length self.now.items }
        ensures bound { length self.now.items ≤ 255 }
    {
        self.rows.len() as u8
    }

    /// Whether there are none.
    pub fn is_empty(&self) -> bool
        ensures { IsTrue result ↔ (self.now.items ≡ []) }
    {
        self.rows.is_empty()
    }

    /// The pair at a place, counted from 0.
    pub fn get(&self, i: u8) -> Pair
        requires { i < length self.now.items }
        ensures { slice_get self.now.items i ≡ Some result }
    {
        self.rows[i as usize]
    }

    /// Puts a pair at a place.
    pub fn set(&mut self, i: u8, pair: Pair)
        requires { i < length self.old.items }
        ensures items { self.new.items ≡ slice_set self.old.items i pair }
        ensures spare { self.new.spare ≡ self.old.spare }
    {
        self.rows[i as usize] = pair;
    }

    /// Adds one pair at the end, in the spare room.
    pub fn push(&mut self, pair: Pair)
        requires room { 1 ≤ self.old.spare }
        requires few { length self.old.items < 255 }
        ensures items { self.new.items ≡ self.old.items ++ pair ∷ [] }
        ensures spare { self.new.spare + 1 ≡ self.old.spare }
    {
        self.rows.push_reserved(pair);
    }

    /// Takes all pairs out, and keeps the room.
    pub fn clear(&mut self)
        ensures items { self.new.items ≡ [] }
        ensures spare { self.new.spare ≡ length self.old.items + self.old.spare }
    {
        self.rows.clear();
    }
}
