//! The register arrays while tuples are put into them.

ghost use Rattle.std.specs.Prelude.{◌≡◌, ℕ, ◌<◌, ◌≤◌, ◌+◌, ◌^◌, ◌||◌, ◌&&◌, ◌==◌, All, length, replicate, slice_set, slice_index_or, nat_lt, nat_le, false, MatchOption, IfOk, Some, if◌then◌else◌};
ghost use Rattle.std.specs.List.{count_by, list_any};
ghost use Rattle.declust.specs.ArraySet.{contains};
ghost use Rattle.declust.specs.Columns.{set_at, taken_at, has_room, touching};
ghost use Rattle.declust.specs.Greedy.{IsFirstLeast};

use crate::array_set::ArraySet;
use crate::uses::Use;
use std::alloc::Global;
use txn_model::NoMemory;

/// What is known of the register arrays. Their cells are taken from the first one on.
#[derive(Drop)]
pub(crate) struct Columns {
    /// For each array, how many of its cells are taken.
    taken: Vec<u16>,
    /// For each item, the arrays that have a tuple of its script.
    touched: Vec<ArraySet>,
}

/// An array, and how many items share a tuple with it.
#[derive(Clone, Copy)]
struct Choice {
    array: u8,
    shared: u32,
}

impl Columns {
    /// No cell is taken.
    pub(crate) fn empty(alloc: Global, arrays: u8, items: u32) -> Result<Columns, NoMemory>
        ensures taken { IfOk result (λ columns. columns.taken.items ≡ replicate arrays 0) }
        ensures touched { IfOk result (λ columns. columns.touched.items ≡ replicate items (record { 0 = 0 })) }
    {
        Ok(Columns {
            taken: vec![in alloc; 0; arrays as usize]?,
            touched: vec![in alloc; ArraySet::EMPTY; items as usize]?,
        })
    }

    /// Of the arrays with a free cell, the first of those that fewest of the uses touch; None where no array
    /// has a free cell.
    pub(crate) fn best(&self, cells: u16, uses: &[Use]) -> Option<u8>
        requires arrays { length self.now.taken.items ≤ 48 }
        requires items { All (λ used. used.item < length self.now.touched.items) uses.now }
        requires few { length uses.now < 2 ^ 32 }
        ensures { MatchOption result ((a : ℕ) → a < length self.now.taken.items → has_room self.now cells a ≡ false) (IsFirstLeast (length self.now.taken.items) (has_room self.now cells) (touching self.now uses.now)) }
    {
        let mut best: Option<Choice> = None;
        for array in 0..self.taken.len() as u8 {
            if self.has_room(array, cells) {
                let shared = self.touching(array, uses);
                if shared == 0 {
                    // No other array shares less, and none before this one as little.
                    return Some(array);
                }
                best = better(best, Choice { array, shared });
            }
        }
        best.map(|choice| choice.array)
    }

    fn has_room(&self, array: u8, cells: u16) -> bool
        requires { array < length self.now.taken.items }
        ensures { result ≡ has_room self.now cells array }
    {
        self.taken[array as usize] < cells
    }

    /// How many of the uses are by items that touch the array.
    fn touching(&self, array: u8, uses: &[Use]) -> u32
        requires array { array < 64 }
        requires items { All (λ used. used.item < length self.now.touched.items) uses.now }
        requires few { length uses.now < 2 ^ 32 }
        ensures { result ≡ touching self.now uses.now array }
    {
        let mut count = 0;
        for used in uses {
            if self.touched[used.item as usize].has(array) {
                count += 1;
            }
        }
        count
    }

    /// Takes the first free cell of the array for a tuple with these uses; gives the cell.
    pub(crate) fn take_cell(&mut self, array: u8, uses: &[Use]) -> u16
        requires arrays { length self.old.taken.items ≤ 48 }
        requires array { array < length self.old.taken.items }
        requires cell { taken_at self.old array < 65535 }
        requires items { All (λ used. used.item < length self.old.touched.items) uses.now }
        ensures cell { result ≡ taken_at self.old array }
        ensures taken { self.new.taken.items ≡ slice_set self.old.taken.items array (taken_at self.old array + 1) }
        ensures items { length self.new.touched.items ≡ length self.old.touched.items }
        ensures touched { (k a : ℕ) → k < length self.old.touched.items → contains (set_at self.new k) a ≡ (a == array && list_any (λ used. used.item == k) uses.now || contains (set_at self.old k) a) }
    {
        let cell = self.taken[array as usize];
        self.taken[array as usize] = cell + 1;
        mark(&mut self.touched, array, uses);
        cell
    }
}

/// The one that shares less, and the first where both share as much.
fn better(best: Option<Choice>, other: Choice) -> Option<Choice>
    ensures { MatchOption best (result ≡ Some other) (λ choice. result ≡ (if nat_le choice.shared other.shared then Some choice else Some other)) }
{
    match best {
        Some(choice) if choice.shared <= other.shared => best,
        _ => Some(other),
    }
}

/// Adds the array to the sets of the items with these uses.
fn mark(touched: &mut [ArraySet], array: u8, uses: &[Use])
    requires array { array < 64 }
    requires items { All (λ used. used.item < length touched.old) uses.now }
    ensures touched { (k a : ℕ) → k < length touched.old → contains (slice_index_or touched.new k (record { 0 = 0 })) a ≡ (a == array && list_any (λ used. used.item == k) uses.now || contains (slice_index_or touched.old k (record { 0 = 0 })) a) }
{
    for used in uses {
        let item = used.item as usize;
        touched[item] = touched[item].with(array);
    }
}
