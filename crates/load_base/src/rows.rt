//! The tuples of a generated session, and the places of its hot ones.

ghost use Rattle.std.specs.Prelude.{◌≡◌, ◌≤◌, ◌<◌, IfOk};
ghost use Rattle.load_base.specs.Load.{first_tuples, hot_row, hot_rows};

use crate::size::Size;
use stage_layout::{Layout, LayoutRow};
use std::alloc::Global;
use txn_model::{NoMemory, Place, TupleId, TupleMap};

/// The tuples of a session, each with the same value.
#[tactic(auto, using(crate::proofs::TupleRows::one_more))]
pub(crate) fn first_tuples(alloc: Global, size: &Size) -> Result<TupleMap, NoMemory>
    ensures { IfOk result (λ map. map ≡ first_tuples size.now.tuples size.now.value) }
{
    let mut rows = Vec::with_capacity(alloc, size.tuples as usize)?;
    for id in 0..size.tuples {
        rows.push((TupleId(id), size.value))?;
    }
    TupleMap::of(alloc, rows.as_slice())
}

/// The layout of so many hot tuples.
pub(crate) fn hot_layout(alloc: Global, hot: u32) -> Result<Layout, NoMemory>
    requires { hot ≤ 65536 }
    ensures { IfOk result (λ layout. layout ≡ hot_rows hot) }
{
    let mut rows = Vec::with_capacity(alloc, hot as usize)?;
    for id in 0..hot {
        rows.push(hot_row(id))?;
    }
    Layout::of(alloc, rows)
}

/// Around the stages, then the arrays, then the cells.
fn hot_row(id: u32) -> LayoutRow
    requires { id < 65536 }
    ensures { result ≡ hot_row id }
{
    LayoutRow {
        tuple: TupleId(id),
        place: Place {
            stage: (id % 12) as u8,
            array: (id / 12 % 4) as u8,
            cell: (id / 48) as u16,
        },
    }
}
