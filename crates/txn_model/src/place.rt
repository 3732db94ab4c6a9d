//! Places of hot tuples in the switch, and maps from places to numbers.

ghost use Rattle.std.specs.Prelude.{◌≡◌, ◌<◌, IsTrue, IsSome, IfOk, MatchOption, HoldsAt, length, None};
ghost use Rattle.std.specs.FinMap.{get, insert, find, entries, from_sorted, is_sorted};
ghost use Rattle.std.specs.declared.cmp.Ordering.TheVariants.{Equal};
ghost use Rattle.txn_model.specs.Places.{place_cmp};

use crate::items::NoMemory;
use std::alloc::Global;
use std::marker::Model;

/// One cell of one register array of one stage, each counted from 0. Ordered by stage, array and cell.
#[derive(Clone, Copy, Debug, PartialEq, Eq, PartialOrd, Ord)]
pub struct Place {
    pub stage: u8,
    pub array: u8,
    pub cell: u16,
}

/// A finite map from places to numbers, in the order of the places. A look-up takes logarithmic time.
#[derive(Debug, Drop)]
pub struct PlaceMap {
    rows: Vec<(Place, i64)>,
}

impl Model for PlaceMap {
    ghost use Rattle.std.specs.Prelude.{IsTrue};
    ghost use Rattle.std.specs.FinMap as fin;
    ghost use Rattle.txn_model.specs.Places.{Places, places_code, place_cmp};

    ghost Value = { Places };

    ghost coded = { places_code };

    ghost view = { λ m. fin.from_sorted m.rows.items };

    ghost invariant = { λ m. IsTrue (fin.is_sorted place_cmp m.rows.items) };
}

/// Where the place's row stands; None where there is none.
fn row_of(rows: &[(Place, i64)], place: Place) -> Option<usize>
    requires { IsTrue (is_sorted place_cmp rows.now) }
    ensures { MatchOption result (find place_cmp place rows.now ≡ None) (λ i. (i < length rows.now) × HoldsAt (λ row. place_cmp row.0 place ≡ Equal) rows.now i) }
{
    rows.binary_search_by_key(&place, |&(key, _)| key).ok()
}

impl PlaceMap {
    /// The map with these rows.
    pub fn of(alloc: Global, rows: &[(Place, i64)]) -> Result<PlaceMap, NoMemory>
        requires ascending { IsTrue (is_sorted place_cmp rows.now) }
        ensures { IfOk result (λ m. m ≡ from_sorted rows.now) }
    {
        Ok(PlaceMap {
            rows: Vec::from_slice(alloc, rows)?,
        })
    }

    /// The number at the place; None where it isn't there.
    pub fn get(&self, place: Place) -> Option<i64>
        ensures { result ≡ get self.now place }
    {
        match row_of(self.rows.as_slice(), place) {
            Some(at) => Some(self.rows[at].1),
            None => None,
        }
    }

    /// Gives a place that is there a new number.
    pub fn set(&mut self, place: Place, value: i64)
        requires there { IsSome (get self.old place) }
        ensures { self.new ≡ insert self.old place value }
    {
        if let Some(at) = row_of(self.rows.as_slice(), place) {
            self.rows[at] = (place, value);
        }
    }

    /// The rows, ascending by place.
    pub fn rows(&self) -> &[(Place, i64)]
        ensures { result.now ≡ entries self.now }
    {
        self.rows.as_slice()
    }

    /// An equal map.
    pub fn copy(&self, alloc: Global) -> Result<PlaceMap, NoMemory>
        ensures { IfOk result (λ copy. copy ≡ self.now) }
    {
        Ok(PlaceMap {
            rows: Vec::from_slice(alloc, self.rows.as_slice())?,
        })
    }
}
