ghost use Rattle.std.specs.Prelude.{◌≡◌, ◌<◌, ◌^◌, length};

use super::*;
use std::alloc::Global;
use std::test::Fail;
use txn_model::{Need, Needs, NoMemory, Place, TupleId, TupleMap, Which};

const SHAPE: Shape = Shape {
    stages: 3,
    arrays: 2,
    cells: 4,
    split: 1,
    hosts: 2,
};

fn row(tuple: u32, stage: u8, array: u8, cell: u16) -> LayoutRow {
    LayoutRow {
        tuple: TupleId(tuple),
        place: Place { stage, array, cell },
    }
}

fn layout(alloc: Global, rows: &[LayoutRow]) -> Result<Layout, NoMemory>
    requires { length rows.now < 2 ^ 32 }
{
    Layout::of(alloc, Vec::from_slice(alloc, rows)?)
}

#[test]
fn layouts_have_these_faults(rt: HostRuntime) -> Result<(), Fail> {
    let alloc = rt.alloc();
    let tuples = TupleMap::of(alloc, &[(TupleId(1), 10), (TupleId(2), 20)])?;
    let good = row(1, 0, 0, 0);
    let other = row(2, 2, 1, 3);
    let none = layout(alloc, &[])?;
    let sound = layout(alloc, &[good, other])?;
    let far_stage = layout(alloc, &[good, other, row(1, 3, 0, 0)])?;
    let far_array = layout(alloc, &[row(1, 0, 2, 0)])?;
    let far_cell = layout(alloc, &[row(1, 0, 0, 4)])?;
    let stranger = layout(alloc, &[good, good, row(3, 1, 0, 0)])?;
    let tuple_twice = layout(alloc, &[good, other, row(1, 1, 0, 0)])?;
    let place_twice = layout(alloc, &[good, row(2, 0, 0, 0), good])?;
    assert_eq!(rt; none.check(alloc, &SHAPE, &tuples), Ok(()));
    assert_eq!(rt; sound.check(alloc, &SHAPE, &tuples), Ok(()));
    assert_eq!(rt;
        far_stage.check(alloc, &SHAPE, &tuples),
        Err(LayoutFault::BadPlace(2))
    );
    assert_eq!(rt;
        far_array.check(alloc, &SHAPE, &tuples),
        Err(LayoutFault::BadPlace(0))
    );
    assert_eq!(rt;
        far_cell.check(alloc, &SHAPE, &tuples),
        Err(LayoutFault::BadPlace(0))
    );
    assert_eq!(rt;
        stranger.check(alloc, &SHAPE, &tuples),
        Err(LayoutFault::BadPlace(2))
    );
    assert_eq!(rt;
        tuple_twice.check(alloc, &SHAPE, &tuples),
        Err(LayoutFault::PlaceTwice(2))
    );
    assert_eq!(rt;
        place_twice.check(alloc, &SHAPE, &tuples),
        Err(LayoutFault::PlaceTwice(1))
    );
    Ok(())
}

#[test]
fn the_first_row_counts(rt: HostRuntime) -> Result<(), Fail> {
    let alloc = rt.alloc();
    let rows = [row(7, 1, 1, 1), row(5, 0, 0, 2), row(7, 0, 0, 2)];
    let tuples = TupleMap::of(alloc, &[(TupleId(5), -5), (TupleId(7), 70)])?;
    let copy = layout(alloc, &rows)?.copy(alloc)?;
    assert_eq!(rt; copy.as_slice(), rows.as_slice());
    assert_eq!(rt; copy.place_of(TupleId(7)), Some(rows[0].place));
    assert_eq!(rt; copy.place_of(TupleId(6)), None);
    assert_eq!(rt; copy.tuple_at(rows[1].place), Some(TupleId(5)));
    assert_eq!(rt; copy.tuple_at(row(0, 1, 1, 2).place), None);
    assert_eq!(rt;
        copy.first_cells(alloc, &tuples)?.rows(),
        [(rows[1].place, -5), (rows[0].place, 70)].as_slice()
    );
    Ok(())
}

fn hot(stage: u8, array: u8, needs: Needs) -> HotOp
    ensures { result ≡ record { place = record { stage = stage; array = array; cell = 0 }; needs = needs } }
{
    HotOp {
        place: Place {
            stage,
            array,
            cell: 0,
        },
        needs,
    }
}

#[test]
fn plans_have_these_passes(rt: HostRuntime) -> Result<(), Fail> {
    let first = Needs::of(&[Need {
        from: 0,
        which: Which::Moved,
    }]);
    let along = [hot(0, 0, Needs::none()), hot(1, 0, first)];
    let against = [hot(1, 0, Needs::none()), hot(0, 0, first)];
    let crowded = [hot(0, 1, Needs::none()); 16];
    let plans = [
        plan(&SHAPE, &along),
        plan(&SHAPE, &against),
        plan(&SHAPE, &crowded),
    ];
    assert_eq!(rt; plans.map(|plan| plan.passes()), [1, 2, 16]);
    assert_eq!(rt; plans.map(|plan| plan.halves()), [3, 3, 1]);
    Ok(())
}
