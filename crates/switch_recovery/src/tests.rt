//! What no clause says: that the calls succeed where memory is left, over one client's log.

use super::*;
use catalogue::{Actors, Clients, Session};
use port_io::{LogRack, MemRack};
use stage_layout::{Layout, LayoutRow, Shape};
use std::alloc::Global;
use std::test::Fail;
use txn_model::{NoMemory, Place, TupleId, TupleMap};

/// An intent of client 0: its item 1 reads the place 0, 0, 0.
const INTENT: [u8; 40] = [
    0x49, 1, 0, 0, 0, 0, 0, 0, 0, 0, 0, 0, 0x50, 1, 0, 0, 0, 0, 0, 1, 1, 1, 1, 0, 1, 0, 0, 0, 0, 0,
    0, 0, 0, 0, 0, 0, 0, 0, 0, 0,
];

/// Its outcome, as packet 3, which no order of one packet gives.
const OUTCOME: [u8; 32] = [
    0x4f, 1, 1, 0, 0, 0, 0, 1, 0, 0, 0, 0, 0, 0, 0, 3, 0, 0, 0, 0, 0, 0, 0, 12, 0, 0, 0, 0, 0, 0,
    0, 12,
];

/// One client without items, and one hot tuple in this cell of the first array.
fn session(alloc: Global, cell: u16) -> Result<Session, NoMemory> {
    let place = Place {
        stage: 0,
        array: 0,
        cell,
    };
    let row = LayoutRow {
        tuple: TupleId(0),
        place,
    };
    Ok(Session {
        shape: Shape {
            stages: 1,
            arrays: 1,
            cells: 2,
            split: 1,
            hosts: 1,
        },
        tuples: TupleMap::of(alloc, &[(TupleId(0), 12)])?,
        layout: Layout::of(alloc, vec![in alloc; row]?)?,
        tries: 1,
        clients: Clients::of(vec![in alloc; Vec::new(alloc)]?),
        schedule: Actors::of(Vec::new(alloc)),
    })
}

#[test]
fn a_torn_log_is_recovered(rt: HostRuntime) -> Result<(), Fail> {
    let alloc = rt.alloc();
    let session = session(alloc, 0)?;
    let mut rack = MemRack::of(alloc, Vec::new(alloc));
    rack.append(alloc, 0, &INTENT)?;
    rack.append(alloc, 0, &OUTCOME[..31])?;
    match recover(alloc, &mut rack, &session) {
        Ok(recovered) => {
            assert_eq!(rt; recovered.restored.next, 2);
            assert_eq!(rt; recovered.restored.placement.len(), 1);
            assert_eq!(rt; recovered.torn, Torn(1));
        }
        Err(_) => panic!(rt; "there is an order"),
    }
    Ok(())
}

#[test]
fn a_refusal_has_its_cause(rt: HostRuntime) -> Result<(), Fail> {
    let alloc = rt.alloc();
    let cases = [
        (0, RecoveryFault::NoOrder),
        (1, RecoveryFault::BadIntent(0, 1)),
    ];
    for (cell, want) in cases {
        let session = session(alloc, cell)?;
        let mut rack = MemRack::of(alloc, Vec::new(alloc));
        rack.append(alloc, 0, &INTENT)?;
        rack.append(alloc, 0, &OUTCOME)?;
        match recover(alloc, &mut rack, &session) {
            Ok(_) => panic!(rt; "it is refused"),
            Err(fault) => assert_eq!(rt; fault, want),
        }
    }
    Ok(())
}
