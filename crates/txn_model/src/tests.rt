use super::*;
use std::alloc::{AllocError, Global};
use std::test::Fail;

fn op(tuple: u32, act: Act, needs: Needs) -> Op {
    Op {
        tuple: TupleId(tuple),
        act,
        needs,
    }
}

fn one(from: u8, which: Which) -> Needs {
    Needs::of(&[Need { from, which }])
}

fn script(alloc: Global, ops: &[Op]) -> Result<Script, AllocError> {
    Ok(Script::of(Vec::from_slice(alloc, ops)?))
}

// A sum that wraps, and a choice at its limit and below it.
#[test]
fn acts_leave_these_values(rt: HostRuntime) {
    let choose = Act::Choose {
        limit: 10,
        above: 1,
        below: -1,
    };
    let add = Act::Add { base: 1 };
    let put = Act::Put { base: 1 };
    let cases = [
        (Act::Read, 7, 9, 7),
        (put, 7, 9, 10),
        (add, i64::MAX, 0, i64::MIN),
        (add, 7, -9, -1),
        (choose, 10, 0, 11),
        (choose, 10, -1, 9),
        (choose, i64::MAX, 1, i64::MAX - 1),
    ];
    for (act, was, operand, now) in cases {
        assert_eq!(rt;
            effect(&act, was, operand),
            now,
            "{act:?} of {was} and {operand}"
        );
    }
}

#[test]
fn scripts_have_these_faults(rt: HostRuntime) -> Result<(), Fail> {
    let add = |tuple| op(tuple, Act::Add { base: 1 }, Needs::none());
    let later = op(1, Act::Add { base: 1 }, one(1, Which::Old));
    let read = op(1, Act::Read, one(0, Which::Moved));
    let none = script(rt.alloc(), &[])?;
    let many = script(rt.alloc(), &[add(0); 17])?;
    let twice = script(rt.alloc(), &[add(0), add(1), add(0), later])?;
    let itself = script(rt.alloc(), &[add(0), later])?;
    let needy = script(rt.alloc(), &[add(0), read])?;
    let sound = script(rt.alloc(), &[add(0), add(1)])?;
    assert_eq!(rt; none.check(), Err(ScriptFault::Empty));
    assert_eq!(rt; many.check(), Err(ScriptFault::TooLong(17)));
    assert_eq!(rt; twice.check(), Err(ScriptFault::TupleTwice(2)));
    assert_eq!(rt; itself.check(), Err(ScriptFault::BadUse(1)));
    assert_eq!(rt; needy.check(), Err(ScriptFault::BadUse(1)));
    assert_eq!(rt; sound.check(), Ok(()));
    assert_eq!(rt; twice.copy(rt.alloc())?.as_slice(), twice.as_slice());
    Ok(())
}

#[test]
fn maps_and_lists_keep_what_they_are_given(rt: HostRuntime) -> Result<(), Fail> {
    let rows = [(TupleId(2), 5), (TupleId(9), -1)];
    let mut map = TupleMap::of(rt.alloc(), &rows)?;
    assert_eq!(rt; map.get(TupleId(3)), None);
    if map.get(TupleId(9)).is_some() {
        map.set(TupleId(9), 4);
    }
    assert_eq!(rt;
        map.copy(rt.alloc())?.rows(),
        [(TupleId(2), 5), (TupleId(9), 4)].as_slice()
    );
    let place = Place {
        stage: 1,
        array: 0,
        cell: 3,
    };
    let places = PlaceMap::of(rt.alloc(), &[(place, 7)])?;
    assert_eq!(rt; places.copy(rt.alloc())?.get(place), Some(7));
    let zeros = Pairs::zeros(rt.alloc(), 3)?;
    assert_eq!(rt; zeros.as_slice(), [Pair::ZERO; 3].as_slice());
    Ok(())
}
