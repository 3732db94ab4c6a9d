ghost use Rattle.std.specs.Prelude.{◌≡◌, None};
ghost use Rattle.txn_model.specs.ScriptCheck.{script_fault};

use super::*;
use stage_layout::{Layout, LayoutRow};
use std::alloc::Global;
use std::test::Fail;
use txn_model::{Act, Need, Needs, NoMemory, Op, Pair, Pairs, Place, Script, TupleId, Which};

fn add(tuple: u32, needs: Needs) -> Op {
    Op {
        tuple: TupleId(tuple),
        act: Act::Add { base: 1 },
        needs,
    }
}

fn need(from: u8) -> Need {
    Need {
        from,
        which: Which::Old,
    }
}

/// Tuples 0 and 1 are hot.
fn layout(alloc: Global) -> Result<Layout, NoMemory> {
    let row = |tuple: u32| LayoutRow {
        tuple: TupleId(tuple),
        place: Place {
            stage: 0,
            array: 0,
            cell: tuple as u16,
        },
    };
    Layout::of(alloc, vec![in alloc; row(0), row(1)]?)
}

fn parts(before: u32, hot: u32, after: u32) -> Result<Parts, BadTurn> {
    Ok(Parts {
        before: OpSet(before),
        hot: OpSet(hot),
        after: OpSet(after),
    })
}

#[test]
fn scripts_have_these_parts(rt: HostRuntime) -> Result<(), Fail> {
    let alloc = rt.alloc();
    let layout = layout(alloc)?;
    let none = Needs::none();
    let cases = [
        // The third operation needs a hot one by its second need; the fourth needs the third.
        (
            [
                add(7, none),
                add(0, none),
                add(8, Needs::of(&[need(0), need(1)])),
                add(9, Needs::of(&[need(2)])),
            ],
            parts(0b0001, 0b0010, 0b1100),
        ),
        // A hot operation may need a cold one that isn't late.
        (
            [
                add(7, none),
                add(8, Needs::of(&[need(0)])),
                add(0, Needs::of(&[need(1)])),
                add(1, Needs::of(&[need(2)])),
            ],
            parts(0b0011, 0b1100, 0),
        ),
        // It may not need a late one.
        (
            [
                add(0, none),
                add(7, Needs::of(&[need(0)])),
                add(8, none),
                add(1, Needs::of(&[need(2), need(1)])),
            ],
            Err(BadTurn(3)),
        ),
    ];
    for (ops, want) in cases {
        let script = Script::of(Vec::from_slice(alloc, ops.as_slice())?);
        if script.check().is_ok() {
            assert_eq!(rt; split(&script, &layout), want);
        }
        assert_eq!(rt; script.check(), Ok(()));
    }
    Ok(())
}

/// A value that an operation on a host found, before it is executed.
fn found(was: i64) -> Pair {
    Pair { was, now: 0 }
}

#[test]
fn replies_join_both_sides(rt: HostRuntime) -> Result<(), Fail> {
    let alloc = rt.alloc();
    let none = Needs::none();
    let ops = [
        add(7, none),
        add(0, none),
        add(8, Needs::of(&[need(0), need(1)])),
        add(9, Needs::of(&[need(2)])),
    ];
    let script = Script::of(Vec::from_slice(alloc, ops.as_slice())?);
    let parts = Parts {
        before: OpSet(0b0001),
        hot: OpSet(0b0010),
        after: OpSet(0b1100),
    };
    let hot = Pairs::of(vec![in alloc; Pair { was: 5, now: 6 }]?);
    let mut pairs = Pairs::of(vec![in alloc; found(10), found(0), found(30), found(40)]?);
    // The third operation needs the first one and the hot one, and the fourth the third.
    let want = [
        Pair { was: 10, now: 11 },
        Pair { was: 5, now: 6 },
        Pair { was: 30, now: 46 },
        Pair { was: 40, now: 71 },
    ];
    if script.check().is_ok() {
        fill_before(&script, &parts, &mut pairs);
        join_pairs(&script, &parts, &hot, &mut pairs);
    }
    assert_eq!(rt; pairs.as_slice(), want.as_slice());
    Ok(())
}
