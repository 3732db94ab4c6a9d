//! The plain layout: one array after the other.

ghost use Rattle.std.specs.Prelude.{◌≡◌, ◌≤◌, ◌*◌, IfOk, length};
ghost use Rattle.stage_layout.specs.Shape.{IsShape};
ghost use Rattle.declust.specs.Arrays.{array_count};
ghost use Rattle.declust.specs.Plain as definition;
ghost use Rattle.declust.specs.Plain.{tuples_of};

use crate::arrays::place_in;
use hot_set::HotRow;
use stage_layout::{LayoutRow, Shape};
use std::alloc::Global;
use txn_model::NoMemory;

/// The tuples in their order, put into the cells of one array after the other.
pub(crate) fn plain_rows(
    alloc: Global,
    shape: &Shape,
    hot: &[HotRow],
) -> Result<Vec<LayoutRow>, NoMemory>
    requires shape { IsShape shape.now }
    requires fit { length hot.now ≤ array_count shape.now * shape.now.cells }
    ensures { IfOk result (λ rows. rows.items ≡ definition.plain_rows shape.now (tuples_of hot.now)) }
{
    let cells = shape.cells as usize;
    let mut rows = Vec::with_capacity(alloc, hot.len())?;
    for (i, row) in hot.iter().enumerate() {
        let place = place_in(shape, (i / cells) as u8, (i % cells) as u16);
        rows.push(LayoutRow {
            tuple: row.tuple,
            place,
        })?;
    }
    Ok(rows)
}
