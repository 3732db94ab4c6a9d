//! Which histories of a session with transactions in the switch are legal.

ghost use Rattle.std.specs.Prelude.{◌≡◌, IfOk, IfSome};
ghost use Rattle.std.specs.Bool.{OnTrue};
ghost use Rattle.catalogue.specs.PlanOf.{plan_of};
ghost use Rattle.catalogue.specs.Sound.{IsSound};
ghost use Rattle.history_core.specs.Answers.{with_reply, IsAboveOwn};
ghost use Rattle.history_core.specs.Runs.{runs_of};
ghost use Rattle.history_model.specs.History.{with_entry, IsInStampOrder};

use catalogue::Session;
use history_core::History;
use history_model::Entry;
use session_reader::read_session;
use std::alloc::Global;
use std::test::Fail;
use txn_model::{NoMemory, Pair, Pairs, Stamp};

/// Two clients have two operations each in the switch, in two passes, and one has one.
const SESSION: &str =
    r#"{"shape":{"stages":2,"arrays":1,"cells":2,"split":1,"hosts":2},"tuples":[[0,10],[1,20],[2,30],[3,40],[4,50]],"layout":[[0,0,0,0],[1,1,0,0],[4,0,0,1]],"tries":1,"clients":[[[["add",0,1,[]],["add",4,0,[["moved",0]]]]],[[["add",1,1,[]]]],[[["read",0],["read",4]]]],"schedule":""}"#;

/// Puts the answered entry of a client's first transaction in, whose packet had this number. False where it has
/// not as many operations.
fn put(session: &Session, history: &mut History, entry: Entry, pairs: &Pairs) -> bool
    requires sound { IsSound (plan_of session.now) }
    requires runs { history.old.runs ≡ runs_of (plan_of session.now) }
    requires above { IsAboveOwn entry history.old.items }
    requires sorted { IsInStampOrder history.old.items }
    ensures { OnTrue result (history.new ≡ record { items = with_reply entry.client entry.seq pairs.now.items (with_entry (record { entry = entry; pairs = None }) history.old.items); runs = history.old.runs }) }
{
    let Some(script) = session.script(entry.client, entry.seq) else {
        return false;
    };
    if script.len() != pairs.len() as usize {
        return false;
    }
    history.insert(entry);
    history.answer(entry.client, entry.seq, pairs);
    true
}

/// The history in which the packets of three clients entered in the clients' order, with these pairs in the third reply. None
/// where the session has no such transactions.
fn history_with(
    alloc: Global,
    session: &Session,
    last: [Pair; 2],
) -> Result<Option<History>, NoMemory>
    requires { IsSound (plan_of session.now) }
    ensures { IfOk result (λ some. IfSome some (λ history. history.runs ≡ runs_of (plan_of session.now))) }
{
    let mut history = History::for_session(alloc, session)?;
    let first = Pairs::of(Vec::from_slice(
        alloc,
        &[Pair { was: 10, now: 11 }, Pair { was: 50, now: 49 }],
    )?);
    let second = Pairs::of(Vec::from_slice(alloc, &[Pair { was: 20, now: 21 }])?);
    let third = Pairs::of(Vec::from_slice(alloc, &last)?);
    let are_there = put(
        session,
        &mut history,
        Entry {
            stamp: Stamp { number: 1, sub: 0 },
            client: 0,
            seq: 1,
        },
        &first,
    ) && put(
        session,
        &mut history,
        Entry {
            stamp: Stamp { number: 2, sub: 0 },
            client: 1,
            seq: 1,
        },
        &second,
    ) && put(
        session,
        &mut history,
        Entry {
            stamp: Stamp { number: 3, sub: 0 },
            client: 2,
            seq: 1,
        },
        &third,
    );
    Ok(if are_there { Some(history) } else { None })
}

#[test]
fn replies_of_packets_are_those_of_one_order(rt: HostRuntime) -> Result<(), Fail> {
    let alloc = rt.alloc();
    let session = read_session(alloc, SESSION.as_bytes())?;
    let found = [Pair { was: 11, now: 11 }, Pair { was: 49, now: 49 }];
    let first_values = [Pair { was: 10, now: 10 }, Pair { was: 50, now: 50 }];
    for (last, legal) in [(found, true), (first_values, false)] {
        let history = history_with(alloc, &session, last)?.expect(
            &rt,
            "the session has these transactions",
        );
        assert_eq!(rt; history.legal(alloc, &session)?, legal);
    }
    Ok(())
}
