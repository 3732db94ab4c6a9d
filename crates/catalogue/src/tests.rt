use super::*;
use stage_layout::{Layout, LayoutRow, Shape};
use std::alloc::{AllocError, Global};
use std::test::Fail;
use txn_model::{Act, Needs, NoMemory, Op, Place, Script, TupleId, TupleMap};

const SHAPE: Shape = Shape {
    stages: 2,
    arrays: 1,
    cells: 2,
    split: 1,
    hosts: 2,
};

const PLACE: Place = Place {
    stage: 1,
    array: 0,
    cell: 1,
};

fn script(alloc: Global, tuples: &[u32]) -> Result<Script, AllocError> {
    let mut ops = Vec::new(alloc);
    for tuple in tuples {
        ops.push(Op {
            tuple: TupleId(*tuple),
            act: Act::Read,
            needs: Needs::none(),
        })?;
    }
    Ok(Script::of(ops))
}

/// Tuple 1 is hot, tuples 2 and 3 are cold; the first client does nothing.
fn session(alloc: Global) -> Result<Session, NoMemory> {
    let row = LayoutRow {
        tuple: TupleId(1),
        place: PLACE,
    };
    let items = vec![in alloc; Item::Run(script(alloc, &[1, 2])?), Item::Lose]?;
    Ok(Session {
        shape: SHAPE,
        tuples: TupleMap::of(
            alloc,
            &[(TupleId(1), 10), (TupleId(2), 20), (TupleId(3), 30)],
        )?,
        layout: Layout::of(alloc, vec![in alloc; row]?)?,
        tries: 2,
        clients: Clients::of(vec![in alloc; Vec::new(alloc), items]?),
        schedule: Actors::of(vec![in alloc; Actor::Client(1), Actor::Recover]?),
    })
}

#[test]
fn a_copy_answers_as_the_session(rt: HostRuntime) -> Result<(), Fail> {
    let copy = session(rt.alloc())?.copy(rt.alloc())?;
    assert_eq!(rt; copy.clients(), 2);
    assert!(rt; copy.item(0, 1).is_none());
    assert!(rt; copy.item(1, 0).is_none());
    assert!(rt; matches!(copy.item(1, 1), Some(Item::Run(_))));
    assert!(rt; matches!(copy.item(1, 2), Some(Item::Lose)));
    assert!(rt; copy.item(1, 3).is_none());
    assert!(rt; copy.item(2, 1).is_none());
    assert_eq!(rt;
        copy.schedule.as_slice(),
        [Actor::Client(1), Actor::Recover].as_slice()
    );
    assert_eq!(rt;
        copy.hot_cells(rt.alloc())?.rows(),
        [(PLACE, 10)].as_slice()
    );
    Ok(())
}

#[test]
fn scripts_have_these_kinds(rt: HostRuntime) -> Result<(), Fail> {
    let session = session(rt.alloc())?;
    let hot = script(rt.alloc(), &[1])?;
    let warm = script(rt.alloc(), &[2, 1])?;
    let cold = script(rt.alloc(), &[2, 3])?;
    assert_eq!(rt; session.kind_of(&hot), Kind::Hot);
    assert_eq!(rt; session.kind_of(&warm), Kind::Warm);
    assert_eq!(rt; session.kind_of(&cold), Kind::Cold);
    Ok(())
}
