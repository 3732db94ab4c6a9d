//! The greedy layout: tuples that scripts use together are put into different arrays.

ghost use Rattle.std.specs.Prelude.{◌≡◌, ◌≤◌, ◌*◌, IfOk, length};
ghost use Rattle.catalogue.specs.PlanOf.{plan_of};
ghost use Rattle.catalogue.specs.Sound.{IsSound};
ghost use Rattle.declust.specs.Arrays.{array_count};
ghost use Rattle.declust.specs.Greedy.{IsGreedy};
ghost use Rattle.declust.specs.Plain.{tuples_of};

use crate::arrays::{array_count, place_in};
use crate::columns::Columns;
use crate::uses::Uses;
use catalogue::Session;
use hot_set::HotRow;
use stage_layout::LayoutRow;
use std::alloc::Global;
use txn_model::NoMemory;

/// The tuples in their order, each put into the array with a free cell that shares it with the fewest items.
/// It takes a time of about the number of uses times that of arrays.
pub(crate) fn greedy_rows(
    alloc: Global,
    session: &Session,
    hot: &[HotRow],
) -> Result<Vec<LayoutRow>, NoMemory>
    requires sound { IsSound (plan_of session.now) }
    requires fit { length hot.now ≤ array_count session.now.shape * session.now.shape.cells }
    ensures { IfOk result (λ rows. IsGreedy (plan_of session.now) (tuples_of hot.now) rows.items) }
{
    let shape = &session.shape;
    let uses = Uses::in_session(alloc, session)?;
    let mut columns = Columns::empty(alloc, array_count(shape), uses.items)?;
    let mut rows = Vec::with_capacity(alloc, hot.len())?;
    for row in hot {
        let of_tuple = uses.of(row.tuple);
        // There are not more tuples than cells, so an array has a free one.
        let Some(array) = columns.best(shape.cells, of_tuple) else {
            unreachable!()
        };
        let cell = columns.take_cell(array, of_tuple);
        let place = place_in(shape, array, cell);
        rows.push(LayoutRow {
            tuple: row.tuple,
            place,
        })?;
    }
    Ok(rows)
}
