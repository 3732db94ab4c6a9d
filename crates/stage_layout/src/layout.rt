//! Layouts: which tuple is kept at which place of the switch.

ghost use Rattle.std.specs.Prelude.{◌≡◌, ◌≢◌, ◌<◌, ◌^◌, [], true, length, map, IfOk, IsTrue};
ghost use Rattle.std.specs.BTreeMap as tree;
ghost use Rattle.std.specs.BTreeMap.{IsOrdered};
ghost use Rattle.std.specs.FinMap.{find, is_sorted};
ghost use Rattle.txn_model.specs.Places.{place_cmp};
ghost use Rattle.txn_model.specs.Tuples.{tuple_cmp, value_at};
ghost use Rattle.stage_layout.specs.Index.{have_own_places, tuple_and_place};
ghost use Rattle.stage_layout.specs.declared.layout.LayoutFault.TheVariants.{NoMemory};
ghost use Rattle.stage_layout.specs.Layout.{place_of, tuple_at, is_bad_row, first_bad_row, first_repeat};

use crate::shape::Shape;
use std::alloc::Global;
use std::collections::{BTreeMap, BTreeSet};
use std::marker::Model;
use txn_model::{NoMemory, Place, PlaceMap, TupleId, TupleMap, ascend, row_of};

/// A tuple and its place.
#[derive(Clone, Copy, Debug, PartialEq, Eq)]
pub struct LayoutRow {
    pub tuple: TupleId,
    pub place: Place,
}

/// What is wrong with a layout. Rows are counted from 0.
#[derive(Clone, Copy, Debug, PartialEq, Eq)]
pub enum LayoutFault {
    /// This row is the first that names a tuple that isn't there, or a place outside the switch.
    BadPlace(u32),
    /// This row is the first that repeats the tuple or the place of an earlier one.
    PlaceTwice(u32),
    /// Memory ran out.
    NoMemory,
}

impl From<NoMemory> for LayoutFault {
    ghost from_gives = { λ _ fault. fault ≡ NoMemory };

    fn from(_error: NoMemory) -> LayoutFault {
        LayoutFault::NoMemory
    }
}

/// The places of the hot tuples, as a list of fewer than 2^32 rows. Of several rows with one tuple, or
/// with one place, the first counts. A look-up takes logarithmic time at most.
#[derive(Debug, Drop)]
pub struct Layout {
    rows: Vec<LayoutRow>,
    // ascending by tuple
    places: Vec<(TupleId, Place)>,
    tuples: BTreeMap<Place, TupleId>,
    // known to have no row that repeats the tuple or the place of another one
    is_apart: bool,
}

impl Model for Layout {
    ghost use Rattle.std.specs.Prelude.{List};
    ghost use Rattle.stage_layout.specs.declared.layout.LayoutRow.{LayoutRow};

    ghost Value = { List LayoutRow };

    ghost use Rattle.stage_layout.specs.Index.{IsIndexed};

    ghost view = { λ a. a.rows.items };

    ghost invariant = { λ a. IsIndexed a.rows.items a.places.items a.tuples a.is_apart };
}

impl Layout {
    ghost use Rattle.std.specs.Result.{result_err};
    ghost use Rattle.stage_layout.specs.Layout.{first_cells, layout_fault};

    /// The layout with these rows.
    pub fn of(alloc: Global, rows: Vec<LayoutRow>) -> Result<Layout, NoMemory>
        requires few { length rows.items < 2 ^ 32 }
        ensures { IfOk result (λ layout. layout ≡ rows.items) }
    {
        let (places, ascend) = places_of(alloc, rows.as_slice())?;
        let (tuples, differ) = tuples_of(alloc, rows.as_slice())?;
        Ok(Layout {
            rows,
            places,
            tuples,
            is_apart: ascend && differ,
        })
    }

    /// What is wrong with the layout: the first fault in the order of `LayoutFault`.
    #[tactic(auto, unfolding(crate::specs::Layout::layout_fault))]
    pub fn check(&self, alloc: Global, shape: &Shape, tuples: &TupleMap) -> Result<(), LayoutFault>
        ensures { result ≢ Err LayoutFault.NoMemory → result_err result ≡ layout_fault shape.now tuples.now self.now }
    {
        let rows = self.as_slice();
        if let Some(row) = first_bad_row(rows, shape, tuples) {
            return Err(LayoutFault::BadPlace(row));
        }
        if self.is_apart {
            return Ok(());
        }
        match first_repeat(alloc, rows)? {
            Some(row) => Err(LayoutFault::PlaceTwice(row)),
            None => Ok(()),
        }
    }

    /// The place of the tuple, by the first row that has it; None exactly where no row has it.
    pub fn place_of(&self, tuple: TupleId) -> Option<Place>
        ensures { result ≡ place_of self.now tuple }
    {
        match row_of(self.places.as_slice(), tuple) {
            Some(at) => Some(self.places[at].1),
            None => None,
        }
    }

    /// The tuple at the place, by the first row that has it; None exactly where no row has it.
    pub fn tuple_at(&self, place: Place) -> Option<TupleId>
        ensures { result ≡ tuple_at self.now place }
    {
        self.tuples.get(&place).copied()
    }

    /// The first value of each hot tuple, by its place; 0 where a row names a tuple that isn't in the map.
    pub fn first_cells(&self, alloc: Global, tuples: &TupleMap) -> Result<PlaceMap, NoMemory>
        ensures { IfOk result (λ cells. cells ≡ first_cells tuples.now self.now) }
    {
        let rows = cell_rows(alloc, &self.tuples, tuples)?;
        PlaceMap::of(alloc, rows.as_slice())
    }

    /// The rows in order.
    pub fn as_slice(&self) -> &[LayoutRow]
        ensures rows { result.now ≡ self.now }
        ensures bound { length self.now < 2 ^ 32 }
    {
        self.rows.as_slice()
    }

    /// An equal layout.
    pub fn copy(&self, alloc: Global) -> Result<Layout, NoMemory>
        ensures { IfOk result (λ copy. copy ≡ self.now) }
    {
        Layout::of(alloc, Vec::from_slice(alloc, self.as_slice())?)
    }
}

/// The place of each tuple, ascending by tuple, and whether the rows themselves ascend so.
fn places_of(alloc: Global, rows: &[LayoutRow]) -> Result<(Vec<(TupleId, Place)>, bool), NoMemory>
    ensures indexed { IfOk result (λ made. (t : TupleId) → find tuple_cmp t made.0.items ≡ place_of rows.now t) }
    ensures sorted { IfOk result (λ made. IsTrue (is_sorted tuple_cmp made.0.items)) }
    ensures apart { IfOk result (λ made. made.1 ≡ true → IsTrue (is_sorted tuple_cmp (map tuple_and_place rows.now))) }
{
    let listed = listed_places(alloc, rows)?;
    if ascend(listed.as_slice()) {
        return Ok((listed, true));
    }
    Ok((sorted_places(alloc, rows)?, false))
}

fn listed_places(alloc: Global, rows: &[LayoutRow]) -> Result<Vec<(TupleId, Place)>, NoMemory>
    ensures { IfOk result (λ listed. listed.items ≡ map tuple_and_place rows.now) }
{
    let listed = rows
        .iter()
        .map(|row| (row.tuple, row.place))
        .collect(alloc)?;
    Ok(listed)
}

/// The place of each tuple, ascending by tuple, of rows in any order.
fn sorted_places(alloc: Global, rows: &[LayoutRow]) -> Result<Vec<(TupleId, Place)>, NoMemory>
    ensures indexed { IfOk result (λ places. (t : TupleId) → find tuple_cmp t places.items ≡ place_of rows.now t) }
    ensures sorted { IfOk result (λ places. IsTrue (is_sorted tuple_cmp places.items)) }
{
    let mut places = BTreeMap::new(alloc);
    // From the last row to the first, so that the first one of a tuple stays.
    for i in (0..rows.len()).rev() {
        let row = rows[i];
        places.insert(row.tuple, row.place)?;
    }
    place_rows(alloc, &places)
}

fn place_rows(
    alloc: Global,
    places: &BTreeMap<TupleId, Place>,
) -> Result<Vec<(TupleId, Place)>, NoMemory>
    ensures rows { IfOk result (λ rows. rows.items ≡ map (λ row. (row.0, row.1)) places.now.entries) }
    ensures ordered { IsOrdered tuple_cmp places.now }
{
    let rows = places
        .iter()
        .map(|(tuple, place)| (*tuple, *place))
        .collect(alloc)?;
    Ok(rows)
}

/// The tuple at each place, and whether each row has a place of its own.
fn tuples_of(
    alloc: Global,
    rows: &[LayoutRow],
) -> Result<(BTreeMap<Place, TupleId>, bool), NoMemory>
    ensures indexed { IfOk result (λ made. (p : Place) → tree.get place_cmp made.0 p ≡ tuple_at rows.now p) }
    ensures apart { IfOk result (λ made. made.1 ≡ true → IsTrue (have_own_places rows.now)) }
{
    let mut tuples = BTreeMap::new(alloc);
    let mut differ = true;
    // From the last row to the first, so that the first one of a place stays.
    for i in (0..rows.len()).rev() {
        let row = rows[i];
        let later = tuples.insert(row.place, row.tuple)?;
        differ = differ && later.is_none();
    }
    Ok((tuples, differ))
}

fn is_bad_row(row: &LayoutRow, shape: &Shape, tuples: &TupleMap) -> bool
    ensures { result ≡ is_bad_row shape.now tuples.now row.now }
{
    tuples.get(row.tuple).is_none() || !shape.has(row.place)
}

fn first_bad_row(rows: &[LayoutRow], shape: &Shape, tuples: &TupleMap) -> Option<u32>
    requires { length rows.now < 2 ^ 32 }
    ensures { result ≡ first_bad_row shape.now tuples.now rows.now }
{
    for (i, row) in rows.iter().enumerate() {
        if is_bad_row(row, shape, tuples) {
            return Some(i as u32);
        }
    }
    None
}

fn first_repeat(alloc: Global, rows: &[LayoutRow]) -> Result<Option<u32>, NoMemory>
    requires { length rows.now < 2 ^ 32 }
    ensures { IfOk result (λ row. row ≡ first_repeat rows.now) }
{
    let mut tuples = BTreeSet::new(alloc);
    let mut places = BTreeSet::new(alloc);
    for (i, row) in rows.iter().enumerate() {
        let is_new_tuple = tuples.insert(row.tuple)?;
        let is_new_place = places.insert(row.place)?;
        if !is_new_tuple || !is_new_place {
            return Ok(Some(i as u32));
        }
    }
    Ok(None)
}

/// The rows of the map from each place to the value of its tuple.
fn cell_rows(
    alloc: Global,
    cells: &BTreeMap<Place, TupleId>,
    tuples: &TupleMap,
) -> Result<Vec<(Place, i64)>, NoMemory>
    ensures rows { IfOk result (λ rows. rows.items ≡ map (λ cell. (cell.0, value_at tuples.now cell.1)) cells.now.entries) }
    ensures ordered { IsOrdered place_cmp cells.now }
{
    let rows = cells
        .iter()
        .map(|(place, tuple)| (*place, tuples.get(*tuple).unwrap_or(0)))
        .collect(alloc)?;
    Ok(rows)
}
