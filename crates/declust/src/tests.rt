use crate::columns::Columns;
use crate::plain::plain_rows;
use crate::uses::Use;
use hot_set::HotRow;
use stage_layout::Shape;
use std::test::Fail;
use txn_model::TupleId;

/// A use by the first item.
const FIRST: [Use; 1] = [Use {
    tuple: TupleId(7),
    item: 0,
}];

/// A use by the second item.
const SECOND: [Use; 1] = [Use {
    tuple: TupleId(8),
    item: 1,
}];

#[test]
fn shared_items_keep_tuples_apart(rt: HostRuntime) -> Result<(), Fail> {
    let mut columns = Columns::empty(rt.alloc(), 2, 2)?;
    assert_eq!(rt; columns.best(2, &FIRST), Some(0));
    assert_eq!(rt; columns.take_cell(0, &FIRST), 0);
    // Both arrays have a free cell: the first item touches array 0, and the second item none.
    assert_eq!(rt; columns.best(2, &FIRST), Some(1));
    assert_eq!(rt; columns.best(2, &SECOND), Some(0));
    // Array 0 is full.
    assert_eq!(rt; columns.best(1, &SECOND), Some(1));
    assert_eq!(rt; columns.take_cell(1, &SECOND), 0);
    assert_eq!(rt; columns.best(1, &FIRST), None);
    Ok(())
}

#[test]
fn plain_rows_fill_one_array_after_the_other(rt: HostRuntime) -> Result<(), Fail> {
    let shape = Shape {
        stages: 2,
        arrays: 2,
        cells: 1,
        split: 1,
        hosts: 1,
    };
    let hot = [9, 3, 5].map(|tuple| HotRow {
        tuple: TupleId(tuple),
        uses: 0,
    });
    let rows = plain_rows(rt.alloc(), &shape, &hot)?;
    let places = [(9, 0, 0), (3, 0, 1), (5, 1, 0)];
    assert_eq!(rt; rows.len(), places.len());
    for (row, place) in rows.iter().zip(places) {
        assert_eq!(rt; (row.tuple.0, row.place.stage, row.place.array), place);
        assert_eq!(rt; row.place.cell, 0);
    }
    Ok(())
}
