ghost use Rattle.std.specs.Prelude.{◌≡◌, true, IfOk};
ghost use Rattle.catalogue.specs.PlanOf.{plan_of};
ghost use Rattle.catalogue.specs.Sound.{IsSound};
ghost use Rattle.fabric_model.specs.Driven.{has_no_loss};

use crate::item::{push_aborted, push_committed, push_lost};
use crate::line::{push_count, push_entry, push_schedule, push_tuple};
use crate::{write_recovered, write_report, write_summary};
use catalogue::{Actor, Actors, Clients, Kind, Session};
use fabric_core::{End, RunName, World};
use gap_placement::Slotted;
use history_model::Entry;
use port_io::{CleanRack, MemSink, SinkFault};
use stage_layout::{Layout, LayoutRow, Shape};
use std::alloc::Global;
use std::marker::Brand;
use std::test::Fail;
use switch_recovery::{Recovered, Restored, Torn};
use txn_model::{Items, NoMemory, Pair, Pairs, Place, PlaceMap, Stamp, TupleId, TupleMap};

const SHAPE: Shape = Shape {
    stages: 1,
    arrays: 1,
    cells: 1,
    split: 0,
    hosts: 1,
};

fn pair(was: i64, now: i64) -> Pair {
    Pair { was, now }
}

fn stamp(number: u64, sub: u32) -> Stamp {
    Stamp { number, sub }
}

#[test]
fn items_have_lines_by_their_ends(rt: HostRuntime) -> Result<(), Fail> {
    let mut text = String::new(rt.alloc());
    let warm = [pair(30, 30), pair(10, 40), pair(40, 11)];
    let wraps = [pair(i64::MAX, i64::MIN)];
    push_committed(&mut text, 0, 1, Kind::Warm, stamp(1, 0), &warm)?;
    push_committed(&mut text, 0, 2, Kind::Cold, stamp(0, 1), &wraps)?;
    push_committed(
        &mut text,
        7,
        4096,
        Kind::Hot,
        stamp(u64::MAX, u32::MAX),
        &[],
    )?;
    push_aborted(&mut text, 1, 1, TupleId(2), 0, 1)?;
    push_aborted(&mut text, 7, 3, TupleId(u32::MAX), 5, 1999999)?;
    push_lost(&mut text, 7, 4)?;
    assert_eq!(rt;
        text.as_str(),
        "c0 1 warm 1.0 30>30 10>40 40>11\n\
         c0 2 cold 0.1 9223372036854775807>-9223372036854775808\n\
         c7 4096 hot 18446744073709551615.4294967295\n\
         c1 1 abort t2 c0 @1\n\
         c7 3 abort t4294967295 c5 @1999999\n\
         c7 4 lose\n"
    );
    Ok(())
}

#[test]
fn other_lines_are_appended(rt: HostRuntime) -> Result<(), Fail> {
    let mut text = String::new(rt.alloc());
    let entry = Entry {
        stamp: stamp(12, 3),
        client: 7,
        seq: 4096,
    };
    let trace = [
        Actor::Client(3),
        Actor::Port(0),
        Actor::Stage(11),
        Actor::Recover,
    ];
    push_count(&mut text, "moves", 2000000)?;
    push_entry(&mut text, &entry)?;
    push_tuple(&mut text, TupleId(9), i64::MIN)?;
    push_schedule(&mut text, &trace)?;
    push_schedule(&mut text, &[])?;
    assert_eq!(rt;
        text.as_str(),
        "moves 2000000\n\
         12.3 c7 4096\n\
         t9 -9223372036854775808\n\
         schedule c3 p0 s11 r\n\
         schedule\n"
    );
    Ok(())
}

/// A session of no tuples and no clients.
fn session(alloc: Global) -> Result<Session, NoMemory>
    ensures sound { IfOk result (λ session. IsSound (plan_of session)) }
    ensures losses { IfOk result (λ session. has_no_loss (plan_of session) ≡ true) }
{
    Ok(Session {
        shape: SHAPE,
        tuples: TupleMap::of(alloc, &[])?,
        layout: Layout::of(alloc, Vec::new(alloc))?,
        tries: 1,
        clients: Clients::of(Vec::new(alloc)),
        schedule: Actors::of(Vec::new(alloc)),
    })
}

/// What is answered where the session's report is written, in pieces of 10 bytes at most, to a sink whose
/// calls with these numbers fail; that sink; and one with the summary. None where memory ran out before.
fn written<N: RunName>(
    alloc: Global,
    session: Session,
    fails: Vec<u32>,
) -> Option<(Result<(), SinkFault>, MemSink, MemSink)>
    requires sound { IsSound (plan_of session) }
    requires losses { has_no_loss (plan_of session) ≡ true }
    requires named { plan_of session ≡ N.session }
    requires faults { N.faults ≡ 0 }
    requires kept { N.kept ≡ true }
{
    let rack = CleanRack::fresh(alloc);
    let Ok(mut world) = World::<CleanRack, N>::begin(alloc, session, rack) else {
        return None;
    };
    let End::Finished = world.finish(alloc) else {
        return None;
    };
    let mut sink = MemSink::of(alloc, 10, fails);
    let answer = write_report(alloc, &world, &mut sink);
    let mut summary = MemSink::of(alloc, 100, Vec::new(alloc));
    let Ok(()) = write_summary(alloc, &world, &mut summary) else {
        return None;
    };
    Some((answer, sink, summary))
}

/// Two clients without items; tuple 3 is hot, and tuple 0 isn't.
fn hot_session(alloc: Global, place: Place) -> Result<Session, NoMemory> {
    let row = LayoutRow {
        tuple: TupleId(3),
        place,
    };
    Ok(Session {
        shape: SHAPE,
        tuples: TupleMap::of(alloc, &[(TupleId(0), 10), (TupleId(3), 40)])?,
        layout: Layout::of(alloc, vec![in alloc; row]?)?,
        tries: 1,
        clients: Clients::of(vec![in alloc; Vec::new(alloc), Vec::new(alloc)]?),
        schedule: Actors::of(Vec::new(alloc)),
    })
}

#[test]
fn a_recovered_order_is_told(rt: HostRuntime) -> Result<(), Fail> {
    let alloc = rt.alloc();
    let place = Place {
        stage: 0,
        array: 0,
        cell: 0,
    };
    let session = hot_session(alloc, place)?;
    let row = Slotted {
        number: 1,
        client: 1,
        seq: 2,
        pairs: Pairs::of(vec![in alloc; pair(40, -1)]?),
    };
    let restored = Restored {
        placement: Items::of(vec![in alloc; row]?),
        registers: PlaceMap::of(alloc, &[(place, -1)])?,
        next: 2,
    };
    let recovered = Recovered {
        restored,
        torn: Torn(2),
    };
    let mut sink = MemSink::of(alloc, 100, Vec::new(alloc));
    assert_eq!(rt;
        write_recovered(alloc, &recovered, &session, &mut sink),
        Ok(())
    );
    assert_eq!(rt;
        sink.content(),
        "order 1\n1 c1 2 40>-1\nregisters 1\nt3 -1\nnext 2\ntorn c1\n".as_bytes()
    );
    Ok(())
}

#[test]
fn a_failing_sink_is_told_as_a_failure(rt: HostRuntime) -> Result<(), Fail> {
    let alloc = rt.alloc();
    let whole = "replies 0\nhistory 0\ntuples 0\nschedule\n";
    let rows = [
        (9, Ok(()), whole),
        (2, Err(SinkFault::Failed), "replies 0\n"),
    ];
    for (fails, answer, content) in rows {
        let got = written::<Brand>(alloc, session(alloc)?, vec![in alloc; fails]?);
        let (got, sink, summary) = got.expect(&rt, "there is memory");
        assert_eq!(rt; got, answer);
        assert_eq!(rt; sink.content(), content.as_bytes());
        assert_eq!(rt;
            summary.content(),
            "hot 0\nwarm 0\ncold 0\naborted 0\nlost 0\nmoves 0\ntotal 0\n".as_bytes()
        );
    }
    Ok(())
}
