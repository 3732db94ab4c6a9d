use super::*;
use Mode::{Exclusive, Shared};
use std::test::Fail;
use txn_model::TupleId;

#[test]
fn locks_conflict_where_one_is_exclusive(rt: HostRuntime) {
    let rows = [
        (Shared, Shared, false),
        (Shared, Exclusive, true),
        (Exclusive, Shared, true),
        (Exclusive, Exclusive, true),
    ];
    for (a, b, want) in rows {
        assert_eq!(rt; a.conflicts(b), want, "{a:?} beside {b:?}");
    }
}

#[test]
fn words_tell_the_least_other_client_in_the_way(rt: HostRuntime) {
    let shared = LockWord {
        sharers: 0b1001,
        owner: 255,
    };
    let owned = LockWord {
        sharers: 0,
        owner: 2,
    };
    let rows = [
        (shared, Shared, 1, None),
        (shared, Exclusive, 0, Some(3)),
        (shared, Exclusive, 1, Some(0)),
        (owned, Shared, 5, Some(2)),
        (owned, Exclusive, 2, None),
    ];
    for (word, mode, client, want) in rows {
        assert_eq!(rt;
            word.conflict(mode, client),
            want,
            "{word:?} {mode:?} {client}"
        );
    }
}

#[test]
fn a_table_of_repeated_tuples_in_any_order(rt: HostRuntime) -> Result<(), Fail> {
    let mut table = LockTable::fresh(rt.alloc(), &[TupleId(9), TupleId(4), TupleId(9)])?;
    assert_eq!(rt; table.mode_of(TupleId(9), 7), None);
    assert_eq!(rt; table.mode_of(TupleId(5), 0), None);
    assert_eq!(rt; table.try_lock(TupleId(9), Exclusive, 7), Grant::Granted);
    assert_eq!(rt; table.mode_of(TupleId(9), 7), Some(Exclusive));
    assert_eq!(rt; table.try_lock(TupleId(9), Shared, 0), Grant::HeldBy(7));
    table.unlock(TupleId(9), 7);
    assert_eq!(rt; table.try_lock(TupleId(9), Shared, 3), Grant::Granted);
    assert_eq!(rt; table.try_lock(TupleId(9), Shared, 0), Grant::Granted);
    assert_eq!(rt; table.try_lock(TupleId(9), Exclusive, 7), Grant::HeldBy(0));
    Ok(())
}
