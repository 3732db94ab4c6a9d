ghost use Rattle.std.specs.Prelude.{IfOk};
ghost use Rattle.catalogue.specs.PlanOf.{plan_of};
ghost use Rattle.catalogue.specs.Sound.{IsSound};

use super::*;
use catalogue::{Actors, Clients, Session};
use stage_layout::{Layout, Shape};
use std::alloc::Global;
use std::iter::ExactSizeIterator;
use std::test::Fail;
use txn_model::{NoMemory, TupleMap};

const SHAPE: Shape = Shape {
    stages: 1,
    arrays: 1,
    cells: 1,
    split: 0,
    hosts: 1,
};

/// A session of no clients.
fn session(alloc: Global) -> Result<Session, NoMemory>
    ensures { IfOk result (λ session. IsSound (plan_of session)) }
{
    Ok(Session {
        shape: SHAPE,
        tuples: TupleMap::of(alloc, &[])?,
        layout: Layout::of(alloc, Vec::new(alloc))?,
        tries: 1,
        clients: Clients::of(Vec::new(alloc)),
        schedule: Actors::of(Vec::new(alloc)),
    })
}

#[test]
fn histories_begin_empty_and_legal(rt: HostRuntime) -> Result<(), Fail> {
    let alloc = rt.alloc();
    let session = session(alloc)?;
    let history = History::for_session(alloc, &session)?;
    assert_eq!(rt; history.count(), 0);
    let mut entries = history.walk();
    assert_eq!(rt; entries.len(), 0);
    assert!(rt; entries.next().is_none());
    assert!(rt; history.entry(0, 1).is_none());
    assert!(rt; history.reply(0, 1).is_none());
    assert!(rt; history.legal(alloc, &session)?);
    Ok(())
}
