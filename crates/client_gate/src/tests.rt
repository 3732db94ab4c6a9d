use super::*;
use catalogue::Actor;
use std::test::Fail;
use std::thread;

/// Passes the gate before each of these turns.
fn pass_all<G: Gate>(gate: &G, worker: u8, actors: &[Actor]) {
    for actor in actors {
        gate.before(worker, *actor);
    }
}

#[test]
fn no_order_on_one_thread_passes_a_meeting_gate(rt: HostRuntime) -> Result<(), Fail> {
    let zero = Actor::Client(0);
    let one = Actor::Client(1);
    let rows = [
        [zero, one, zero, one, one, one],
        [one, zero, one, one, one, zero],
        [zero, zero, one, one, one, one],
        [one, one, one, one, zero, zero],
    ];
    for actors in rows {
        let gate = MeetGate::of(3);
        assert!(rt; gate.gave_up());
        pass_all(&gate, 0, actors.as_slice());
        assert!(rt; gate.gave_up());
    }
    pass_all(
        &OpenGate,
        0,
        [zero, Actor::Port(0), Actor::Stage(1), Actor::Recover].as_slice(),
    );
    Ok(())
}

#[test]
fn two_threads_meet_at_the_gate(rt: HostRuntime) -> Result<(), Fail> {
    let gate = MeetGate::of(100_000_000);
    let zero = [Actor::Client(0), Actor::Port(0), Actor::Client(0)];
    let one = [Actor::Client(1); 4];
    thread::join(
        &rt,
        || pass_all(&gate, 0, zero.as_slice()),
        || pass_all(&gate, 1, one.as_slice()),
    );
    assert!(rt; !gate.gave_up());
    Ok(())
}
