ghost use Rattle.std.specs.Prelude.{◌≡◌, ◌≤◌, true};
ghost use Rattle.catalogue.specs.PlanOf.{plan_of};
ghost use Rattle.catalogue.specs.Sound.{IsSound};

use super::*;
use catalogue::{Actor, Session};
use client_gate::{Gate, MeetGate};
use fabric_core::{End, RunName, World};
use port_io::CleanRack;
use session_reader::read_session;
use std::alloc::Global;
use std::marker::Brand;
use std::sync::Wait;
use std::test::Fail;
use std::thread::Threads;

/// Two clients on hosts, each with one operation.
const APART: &str =
    r#"{"shape":{"stages":2,"arrays":1,"cells":2,"split":1,"hosts":2},"tuples":[[0,10],[1,20],[2,30],[3,40],[4,50]],"layout":[[0,0,0,0],[1,1,0,0],[4,0,0,1]],"tries":2,"clients":[[[["add",2,5,[]]]],[[["add",3,1,[]]]]],"schedule":""}"#;

/// Who moved in the run of a session by this many threads.
fn moves_of<R: Threads + Wait + Sync, N: RunName + Send, G: Gate + Sync>(
    rt: &R,
    alloc: Global,
    session: Session,
    threads: u8,
    gate: &G,
) -> Option<Vec<Actor>>
    requires sound { IsSound (plan_of session) }
    requires named { plan_of session ≡ N.session }
    requires faults { N.faults ≡ 0 }
    requires kept { N.kept ≡ true }
    requires some { 1 ≤ threads }
    requires few { threads ≤ 8 }
{
    let rack = CleanRack::fresh(alloc);
    let Ok(world) = World::<CleanRack, N>::begin(alloc, session, rack) else {
        return None;
    };
    let (world, end) = race(rt, alloc, world, threads, gate);
    if end != End::Finished {
        return None;
    }
    Vec::from_slice(alloc, world.trace()).ok()
}

#[test]
fn two_threads_meet_in_a_run(rt: HostRuntime) -> Result<(), Fail> {
    let alloc = rt.alloc();
    let session = read_session(alloc, APART.as_bytes()).expect(&rt, "the text is a session");
    let gate = MeetGate::of(100_000_000);
    let moves = moves_of::<HostRuntime, Brand, MeetGate>(&rt, alloc, session, 4, &gate);
    let moves = moves.expect(&rt, "there is memory");
    assert!(rt; !gate.gave_up());
    let zero = Actor::Client(0);
    let one = Actor::Client(1);
    assert_eq!(rt; moves.len(), 6);
    assert!(rt; moves.ends_with(&[zero, zero]));
    assert_eq!(rt; moves.iter().filter(|actor| **actor == one).count(), 3);
    Ok(())
}
