use super::*;
use catalogue::{Mix, Session, YcsbPlan};
use std::test::Fail;
use txn_model::{Act, Needs, Op, TupleId};

/// One script of 16 operations on 16 records.
const SIXTEEN: YcsbPlan = YcsbPlan {
    number: 1,
    clients: 1,
    scripts: 1,
    records: 16,
    hot: 0,
    share: 80,
    ops: 16,
    mix: Mix::C,
};

/// How many of the 16 records the only script reads.
fn reads(session: &Session) -> usize {
    let Some(script) = session.script(0, 1) else {
        return 0;
    };
    let read = |record: u32| Op {
        tuple: TupleId(record),
        act: Act::Read,
        needs: Needs::none(),
    };
    (0..16)
        .filter(|record| script.as_slice().contains(&read(*record)))
        .count()
}

#[test]
fn a_script_of_reads_takes_each_record_once(rt: HostRuntime) -> Result<(), Fail> {
    let sessions = [
        ycsb_session(rt.alloc(), &SIXTEEN)?,
        ycsb_session(
            rt.alloc(),
            &YcsbPlan {
                number: 7,
                ..SIXTEEN
            },
        )?,
        ycsb_session(rt.alloc(), &YcsbPlan { hot: 16, ..SIXTEEN })?,
        ycsb_session(rt.alloc(), &YcsbPlan { hot: 5, ..SIXTEEN })?,
    ];
    for session in &sessions {
        assert_eq!(rt; session.items(0), 1);
        assert_eq!(rt; session.script(0, 1).map(|script| script.len()), Some(16));
        assert_eq!(rt; reads(session), 16);
    }
    Ok(())
}
