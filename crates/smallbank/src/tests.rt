ghost use Rattle.std.specs.Prelude.{All, IsSome, IsTrue};
ghost use Rattle.std.specs.FinMap.{get};

use super::*;
use catalogue::BankPlan;
use std::alloc::Global;
use std::test::Fail;
use txn_model::{NoMemory, Pairs, Script, TupleId, TupleMap, run_serial};

/// Whether all tuples of the script are there.
fn are_there(script: &Script, map: &TupleMap) -> bool
    ensures { IsTrue result → All (λ op. IsSome (get map.now op.tuple)) script.now.items }
{
    script
        .as_slice()
        .iter()
        .all(|op| map.get(op.tuple).is_some())
}

/// Whether the script finds and leaves these values, run on eight tuples of which these aren't zero.
fn replies(
    alloc: Global,
    script: &Script,
    held: &[(u32, i64)],
    pairs: &[(i64, i64)],
) -> Result<bool, NoMemory> {
    let zeros = [
        (TupleId(0), 0),
        (TupleId(1), 0),
        (TupleId(2), 0),
        (TupleId(3), 0),
        (TupleId(4), 0),
        (TupleId(5), 0),
        (TupleId(6), 0),
        (TupleId(7), 0),
    ];
    let mut map = TupleMap::of(alloc, &zeros)?;
    for &(id, value) in held {
        if map.get(TupleId(id)).is_some() {
            map.set(TupleId(id), value);
        }
    }
    if script.check().is_err() || script.len() > 16 || !are_there(script, &map) {
        return Ok(false);
    }
    let mut out = Pairs::zeros(alloc, script.len() as u8)?;
    run_serial(script, &mut map, &mut out);
    let are_equal = out
        .as_slice()
        .iter()
        .zip(pairs)
        .all(|(pair, &(was, now))| pair.was == was && pair.now == now);
    Ok(script.len() == pairs.len() && are_equal)
}

#[test]
fn scripts_find_and_leave_these_values(rt: HostRuntime) -> Result<(), Fail> {
    let alloc = rt.alloc();
    let reads = balance(alloc, 0)?;
    let adds = deposit_checking(alloc, 0, 1)?;
    let spends = transact_savings(alloc, 0, 5)?;
    let moves = amalgamate(alloc, 0, 1)?;
    let checks = write_check(alloc, 3, 50)?;
    let pays = send_payment(alloc, 0, 1, 7)?;
    assert!(rt;
        replies(
            alloc,
            &reads,
            &[(0, 1000), (1, 1000)],
            &[(1000, 1000), (1000, 1000)]
        )?
    );
    assert!(rt; replies(alloc, &adds, &[(1, 1000)], &[(1000, 1001)])?);
    assert!(rt; replies(alloc, &spends, &[(0, -6)], &[(-6, -6)])?);
    assert!(rt; replies(alloc, &spends, &[(0, -5)], &[(-5, 0)])?);
    assert!(rt;
        replies(
            alloc,
            &moves,
            &[(0, 5), (1, -2), (3, 1)],
            &[(5, 0), (-2, 0), (1, 4)]
        )?
    );
    assert!(rt; replies(alloc, &checks, &[(6, 20), (7, 30)], &[(20, 20), (30, -20)])?);
    assert!(rt; replies(alloc, &checks, &[(6, 20), (7, 29)], &[(20, 20), (29, -22)])?);
    assert!(rt; replies(alloc, &pays, &[(1, 6), (3, 1)], &[(6, 6), (1, 1)])?);
    assert!(rt; replies(alloc, &pays, &[(1, 7), (3, 1)], &[(7, 0), (1, 8)])?);
    Ok(())
}

#[test]
fn two_customers_have_these_tuples(rt: HostRuntime) -> Result<(), Fail> {
    let plan = BankPlan {
        number: 7,
        clients: 2,
        scripts: 50,
        customers: 2,
        hot: 1,
        share: 80,
    };
    let session = bank_session(rt.alloc(), &plan)?;
    let tuples = [0, 1, 2, 3].map(|id| (TupleId(id), 1000));
    assert_eq!(rt; session.tuples.rows(), tuples.as_slice());
    let places = [(0, 0, 0, 0), (1, 1, 0, 0)];
    let rows = session.layout.as_slice();
    assert_eq!(rt; rows.len(), places.len());
    for (row, place) in rows.iter().zip(places) {
        assert_eq!(rt;
            (
                row.tuple.0,
                row.place.stage,
                row.place.array,
                row.place.cell
            ),
            place
        );
    }
    assert_eq!(rt; session.clients.len(), 2);
    assert_eq!(rt; session.clients.items(1).len(), 50);
    Ok(())
}
