use super::*;
use std::test::Fail;
use txn_model::{Seen, Stamp, TupleId, TupleMap};

fn seen(value: i64, number: u64, sub: u32) -> Seen {
    Seen {
        value,
        stamp: Stamp { number, sub },
    }
}

/// The tuple's value and stamp before and after an installation; None where it isn't there.
fn install(store: &mut HostStore, tuple: TupleId, new: Seen) -> Option<(Seen, Seen)> {
    if !store.contains(tuple) {
        return None;
    }
    let before = store.read(tuple);
    store.install(tuple, new.value, new.stamp);
    if !store.contains(tuple) {
        return None;
    }
    Some((before, store.read(tuple)))
}

#[test]
fn installs_keep_the_greater_stamp(rt: HostRuntime) -> Result<(), Fail> {
    let alloc = rt.alloc();
    let tuples = TupleMap::of(alloc, &[(TupleId(3), -7), (TupleId(8), 8)])?;
    let mut store = HostStore::fresh(alloc, &tuples)?;
    let rows = [
        (8, seen(1, 2, 5), Some((seen(8, 0, 0), seen(1, 2, 5)))),
        (8, seen(2, 1, 9), Some((seen(1, 2, 5), seen(2, 2, 5)))),
        (3, seen(9, 0, 1), Some((seen(-7, 0, 0), seen(9, 0, 1)))),
        (8, seen(3, 2, 6), Some((seen(2, 2, 5), seen(3, 2, 6)))),
        (8, seen(4, 3, 0), Some((seen(3, 2, 6), seen(4, 3, 0)))),
        (5, seen(4, 3, 0), None),
    ];
    for (tuple, new, want) in rows {
        assert_eq!(rt; install(&mut store, TupleId(tuple), new), want, "{new:?}");
    }
    Ok(())
}
