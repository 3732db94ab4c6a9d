ghost use Rattle.std.specs.Prelude.{◌≡◌, ◌≤◌, length, IsTrue, None};
ghost use Rattle.txn_model.specs.ScriptCheck.{script_fault};
ghost use Rattle.catalogue.specs.Plan as plan;
ghost use Rattle.client_phase.specs.Fits.{Fits, FitsMet};
ghost use Rattle.client_phase.specs.Shown.{plain_client, room_of};

use super::*;
use crate::cold_numbers::cold_count;
use catalogue::Item;
use std::alloc::{AllocError, Global};
use std::test::Fail;
use txn_model::{Act, Need, Needs, Op, Pair, Script, Seen, Stamp, TupleId, Which};
use warm_split::{OpSet, Parts};

/// What is looked at behind a move: the phase, the item's number, and how many tries, locks and installations there
/// were.
type Counts = (Phase, u32, u8, u8, u8);

fn op(tuple: u32, act: Act, needs: &[Need]) -> Op
    requires { length needs.now ≤ 4 }
{
    Op {
        tuple: TupleId(tuple),
        act,
        needs: Needs::of(needs),
    }
}

/// The value of one tuple goes into another one by the switch, and what was found there into a third.
fn goes_round(alloc: Global) -> Result<Item, AllocError> {
    let read = op(2, Act::Read, &[]);
    let add = op(
        0,
        Act::Add { base: 0 },
        &[Need {
            from: 0,
            which: Which::Old,
        }],
    );
    let put = op(
        3,
        Act::Put { base: 1 },
        &[Need {
            from: 1,
            which: Which::Old,
        }],
    );
    Ok(Item::Run(Script::of(Vec::from_slice(alloc, &[read, add, put])?)))
}

fn granted(value: i64, sub: u32) -> Met {
    let stamp = Stamp { number: 0, sub };
    Met::Granted(Seen { value, stamp })
}

/// Whether what is kept of the client fits the script.
fn fits(state: &ClientState, script: &Script, parts: &Parts) -> bool
    requires { script_fault script.now.items ≡ None }
    ensures { IsTrue result → Fits parts.now (plan.Run script.now.items) (plain_client state.now) }
{
    let count = cold_count(script, parts);
    let is_cold = usize::from(count) == script.len();
    let has_pairs = usize::from(state.pairs.len()) == script.len();
    if state.locked > count || state.installed > count {
        return false;
    }
    match state.phase {
        Phase::Ready => state.locked == 0 && state.pairs.is_empty(),
        Phase::Locking => state.locked >= 1 && has_pairs,
        Phase::Aborting => state.locked >= 1 && state.pairs.is_empty(),
        Phase::Logged | Phase::Waiting => !is_cold && has_pairs,
        Phase::Installing => state.installed < count && has_pairs,
        Phase::Finished => false,
    }
}

/// Whether what the move met fits its action.
fn is_met(action: Action, met: Met) -> bool
    ensures { IsTrue result → FitsMet action met }
{
    match (action, met) {
        (Action::Lock(_), Met::Granted(_) | Met::HeldBy(_)) => true,
        (Action::LogOutcome, Met::Answered(_)) => true,
        (Action::Lock(_) | Action::LogOutcome, _) => false,
        (_, Met::Done) => true,
        _ => false,
    }
}

/// One move of a client with two items and two tries for each. None where it can't be made.
fn step(state: &mut ClientState, item: &Item, parts: &Parts, met: Met) -> Option<Action>
    requires { 16 ≤ room_of state.old }
    ensures { room_of state.new ≡ room_of state.old }
{
    let Item::Run(script) = item else {
        return None;
    };
    if script.check().is_err() || !fits(state, script, parts) {
        return None;
    }
    if state.seq > 2 || state.refused >= 2 || state.last.sub > 99 || state.met.sub > 99 {
        return None;
    }
    let action = action_of(state, Some(item), parts);
    if !is_met(action, met) {
        return None;
    }
    step_client(state, item, 2, parts, 2, action, met);
    Some(action)
}

fn counts(state: &ClientState) -> Counts {
    (
        state.phase,
        state.seq,
        state.refused,
        state.locked,
        state.installed,
    )
}

#[test]
fn a_cold_script_is_refused_and_tried_again(rt: HostRuntime) -> Result<(), Fail> {
    let item = goes_round(rt.alloc())?;
    let all = OpSet::EMPTY.with(0).with(1).with(2);
    let parts = Parts {
        before: all,
        hot: OpSet::EMPTY,
        after: OpSet::EMPTY,
    };
    let mut state = ClientState::fresh(rt.alloc(), 2)?;
    let rows = [
        (
            granted(30, 9),
            Action::Lock(0),
            (Phase::Locking, 1, 0, 1, 0),
        ),
        (
            Met::HeldBy(1),
            Action::Lock(1),
            (Phase::Aborting, 1, 0, 1, 0),
        ),
        (Met::Done, Action::Release(0), (Phase::Ready, 1, 1, 0, 0)),
        (
            granted(30, 2),
            Action::Lock(0),
            (Phase::Locking, 1, 1, 1, 0),
        ),
        (
            granted(10, 4),
            Action::Lock(1),
            (Phase::Locking, 1, 1, 2, 0),
        ),
        (
            granted(40, 0),
            Action::Lock(2),
            (Phase::Locking, 1, 1, 3, 0),
        ),
        (Met::Done, Action::Decide, (Phase::Installing, 1, 1, 3, 0)),
        (
            Met::Done,
            Action::Install(0),
            (Phase::Installing, 1, 1, 3, 1),
        ),
        (
            Met::Done,
            Action::Install(1),
            (Phase::Installing, 1, 1, 3, 2),
        ),
        (Met::Done, Action::Install(2), (Phase::Ready, 2, 0, 0, 0)),
        (Met::HeldBy(1), Action::Lock(0), (Phase::Ready, 2, 1, 0, 0)),
        (
            Met::HeldBy(1),
            Action::Lock(0),
            (Phase::Finished, 3, 0, 0, 0),
        ),
    ];
    for (met, action, want) in rows {
        assert_eq!(rt; step(&mut state, &item, &parts, met), Some(action));
        assert_eq!(rt; counts(&state), want, "after {action:?}");
    }
    assert_eq!(rt; state.last, Stamp { number: 0, sub: 5 });
    assert_eq!(rt; action_of(&state, None, &parts), Action::Rest);
    Ok(())
}

#[test]
fn a_warm_script_goes_by_the_switch(rt: HostRuntime) -> Result<(), Fail> {
    let item = goes_round(rt.alloc())?;
    let parts = Parts {
        before: OpSet::EMPTY.with(0),
        hot: OpSet::EMPTY.with(1),
        after: OpSet::EMPTY.with(2),
    };
    let mut state = ClientState::fresh(rt.alloc(), 2)?;
    let rows = [
        (
            granted(30, 3),
            Action::Lock(0),
            (Phase::Locking, 1, 0, 1, 0),
        ),
        (
            granted(40, 1),
            Action::Lock(2),
            (Phase::Locking, 1, 0, 2, 0),
        ),
        (Met::Done, Action::LogIntent, (Phase::Logged, 1, 0, 2, 0)),
        (Met::Done, Action::Post, (Phase::Waiting, 1, 0, 2, 0)),
        (
            Met::Answered(7),
            Action::LogOutcome,
            (Phase::Installing, 1, 0, 2, 0),
        ),
        (
            Met::Done,
            Action::Install(0),
            (Phase::Installing, 1, 0, 2, 1),
        ),
        (Met::Done, Action::Install(2), (Phase::Ready, 2, 0, 0, 0)),
    ];
    for (met, action, want) in rows {
        if action == Action::LogIntent {
            let found = [
                Pair { was: 30, now: 30 },
                Pair::ZERO,
                Pair { was: 40, now: 0 },
            ];
            assert_eq!(rt; state.pairs.as_slice(), found.as_slice());
        }
        assert_eq!(rt; step(&mut state, &item, &parts, met), Some(action));
        assert_eq!(rt; counts(&state), want, "after {action:?}");
    }
    assert_eq!(rt; state.last, Stamp { number: 7, sub: 0 });
    Ok(())
}

#[test]
fn a_hot_script_takes_no_lock(rt: HostRuntime) -> Result<(), Fail> {
    let item = goes_round(rt.alloc())?;
    let parts = Parts {
        before: OpSet::EMPTY,
        hot: OpSet::EMPTY.with(0).with(1).with(2),
        after: OpSet::EMPTY,
    };
    let mut state = ClientState::fresh(rt.alloc(), 2)?;
    let rows = [
        (Met::Done, Action::LogIntent, (Phase::Logged, 1, 0, 0, 0)),
        (Met::Done, Action::Post, (Phase::Waiting, 1, 0, 0, 0)),
        (
            Met::Answered(3),
            Action::LogOutcome,
            (Phase::Ready, 2, 0, 0, 0),
        ),
    ];
    for (met, action, want) in rows {
        assert_eq!(rt; step(&mut state, &item, &parts, met), Some(action));
        assert_eq!(rt; counts(&state), want, "after {action:?}");
        if action == Action::LogIntent {
            assert_eq!(rt; state.pairs.as_slice(), [Pair::ZERO; 3].as_slice());
        }
    }
    assert_eq!(rt; state.last, Stamp { number: 3, sub: 0 });
    assert_eq!(rt; state.pairs.len(), 0);
    Ok(())
}
