use super::*;
use catalogue::{Actor, Actors, Clients, Session};
use stage_layout::{Layout, Shape};
use std::alloc::Global;
use std::test::Fail;
use txn_model::{NoMemory, TupleMap};

const SHAPE: Shape = Shape {
    stages: 12,
    arrays: 1,
    cells: 1,
    split: 0,
    hosts: 1,
};

/// Two clients that do nothing, and a switch of twelve stages.
fn session(alloc: Global) -> Result<Session, NoMemory> {
    Ok(Session {
        shape: SHAPE,
        tuples: TupleMap::of(alloc, &[])?,
        layout: Layout::of(alloc, Vec::new(alloc))?,
        tries: 1,
        clients: Clients::of(vec![in alloc; Vec::new(alloc), Vec::new(alloc)]?),
        schedule: Actors::of(Vec::new(alloc)),
    })
}

#[test]
fn words_name_these_actors(rt: HostRuntime) -> Result<(), Fail> {
    let session = session(rt.alloc())?;
    let cases = [
        ("r", Some(Actor::Recover)),
        ("c0", Some(Actor::Client(0))),
        ("c1", Some(Actor::Client(1))),
        ("c2", None),
        ("p1", Some(Actor::Port(1))),
        ("p2", None),
        ("s0", Some(Actor::Stage(0))),
        ("s11", Some(Actor::Stage(11))),
        ("s12", None),
        ("s01", None),
        ("s00", None),
        ("s256", None),
        ("s18446744073709551616", None),
        ("r0", None),
        ("R", None),
        ("c", None),
        ("c 1", None),
        ("c-1", None),
        ("c+1", None),
        ("1", None),
        ("", None),
    ];
    for (word, actor) in cases {
        assert_eq!(rt; actor_of(word.as_bytes(), &session), actor, "{word:?}");
    }
    Ok(())
}

#[test]
fn draws_repeat(rt: HostRuntime) -> Result<(), Fail> {
    let session = session(rt.alloc())?;
    let first = drawn(rt.alloc(), &session, 7, 3)?;
    let second = drawn(rt.alloc(), &session, 7, 3)?;
    assert_eq!(rt; first.len(), 3);
    assert!(rt; first.as_slice() == second.as_slice());
    Ok(())
}

#[test]
fn keys_fall_among_the_hot_ones(rt: HostRuntime) {
    let mut dice = Dice::of(7);
    assert!(rt; dice.draw(6) < 6);
    assert!(rt; dice.key(10, 3, 100) < 3);
    assert!(rt; dice.key(10, 3, 0) >= 3);
    assert!(rt; dice.key(10, 0, 100) < 10);
    assert!(rt; dice.key(10, 10, 0) < 10);
}
