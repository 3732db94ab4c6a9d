ghost use Rattle.std.specs.Prelude.{◌≡◌, ◌<◌, [], ◌∷◌, length, pos, IfOk};
ghost use Rattle.txn_model.specs.Needs.{needs_of};
ghost use Rattle.txn_model.specs.declared.op.Act.TheVariants.{Add};
ghost use Rattle.switch_packet.specs.Packets.{plain};
ghost use Rattle.switch_packet.specs.Ranges.{Fits};
ghost use Rattle.pipeline.specs.Planned.{HasPlan};
ghost use Rattle.pipeline.specs.Rows.{IsVacant, fresh_pipeline, posted};

use super::*;
use stage_layout::{Layout, LayoutRow, Shape};
use std::alloc::Global;
use std::test::Fail;
use switch_packet::{Packet, PacketOp, PacketOps, encode_into, packet_len};
use txn_model::{Act, Needs, Pair, Pairs, Place, PlaceMap, TupleId, TupleMap};

/// Stage 0 is the left half, stage 1 the right one.
const SHAPE: Shape = Shape {
    stages: 2,
    arrays: 1,
    cells: 2,
    split: 1,
    hosts: 1,
};

fn place(stage: u8, cell: u16) -> Place
    ensures { result ≡ record { stage = stage; array = 0; cell = cell } }
{
    Place {
        stage,
        array: 0,
        cell,
    }
}

/// A pipeline for three clients, with a 5 in cell 0 of stage 1.
fn pipeline(alloc: Global) -> Result<Pipeline, Fail>
    ensures { IfOk result (λ made. (first : _) × (made ≡ fresh_pipeline SHAPE first 3)) }
{
    let tuple = TupleId(7);
    let tuples = TupleMap::of(alloc, &[(tuple, 5)])?;
    let row = LayoutRow {
        tuple,
        place: place(1, 0),
    };
    let layout = Layout::of(alloc, vec![in alloc; row]?)?;
    layout.check(alloc, &SHAPE, &tuples)?;
    Ok(Pipeline::fresh(alloc, &SHAPE, &layout, &tuples, 3)?)
}

fn add(pass: u8, stage: u8, cell: u16) -> PacketOp
    ensures { result ≡ record { pass = pass; place = record { stage = stage; array = 0; cell = cell }; act = Add (pos 1); bias = pos 0; needs = needs_of [] } }
{
    PacketOp {
        pass,
        place: place(stage, cell),
        act: Act::Add { base: 1 },
        bias: 0,
        needs: Needs::none(),
    }
}

/// Puts the packet at its client's port.
fn post(alloc: Global, pipeline: &mut Pipeline, packet: &Packet) -> Result<(), Fail>
    requires fits { Fits (plain packet.now) }
    requires planned { HasPlan pipeline.old.shape (plain packet.now) }
    requires there { packet.now.client < length pipeline.old.waiting }
    requires vacant { IsVacant pipeline.old packet.now.client }
    ensures { IfOk result (λ _. pipeline.new ≡ posted pipeline.old packet.now.client (plain packet.now)) }
{
    let mut text = Vec::with_capacity(alloc, packet_len(packet))?;
    encode_into(packet, &mut text);
    pipeline.post(packet.client, text.as_slice());
    Ok(())
}

/// Adds 1 to both cells of stage 0 and to cell 0 of stage 1: two passes, on both halves.
fn crossing(alloc: Global, client: u8) -> Result<Packet, Fail>
    ensures { IfOk result (λ packet. plain packet ≡ record {
      client = client;
      seq = 1;
      passes = 2;
      halves = 3;
      ops =
          record { pass = 1; place = record { stage = 0; array = 0; cell = 0 }; act = Add (pos 1); bias = pos 0; needs = needs_of [] }
          ∷ record { pass = 1; place = record { stage = 1; array = 0; cell = 0 }; act = Add (pos 1); bias = pos 0; needs = needs_of [] }
          ∷ record { pass = 2; place = record { stage = 0; array = 0; cell = 1 }; act = Add (pos 1); bias = pos 0; needs = needs_of [] }
          ∷ [];
    }) }
{
    Ok(Packet {
        client,
        seq: 1,
        passes: 2,
        halves: 3,
        ops: PacketOps::of(vec![in alloc; add(1, 0, 0), add(1, 1, 0), add(2, 0, 1)]?),
    })
}

/// Adds 1 to cell 0 of stage 1: one pass, on the right half alone.
fn single(alloc: Global, client: u8) -> Result<Packet, Fail>
    ensures { IfOk result (λ packet. plain packet ≡ record {
      client = client;
      seq = 1;
      passes = 1;
      halves = 2;
      ops = record { pass = 1; place = record { stage = 1; array = 0; cell = 0 }; act = Add (pos 1); bias = pos 0; needs = needs_of [] } ∷ [];
    }) }
{
    Ok(Packet {
        client,
        seq: 1,
        passes: 1,
        halves: 2,
        ops: PacketOps::of(vec![in alloc; add(1, 1, 0)]?),
    })
}

#[derive(Clone, Copy)]
enum Call {
    Enter(u8),
    Advance(u8),
}

fn make(pipeline: &mut Pipeline, call: &Call) -> Step {
    match *call {
        Call::Enter(client) => pipeline.enter(client),
        Call::Advance(stage) => pipeline.advance(stage),
    }
}

#[test]
fn packets_of_two_passes_keep_others_out(rt: HostRuntime) -> Result<(), Fail> {
    use Call::{Advance, Enter};
    let alloc = rt.alloc();
    let mut pipeline = pipeline(alloc)?;
    post(alloc, &mut pipeline, &crossing(alloc, 0)?)?;
    post(alloc, &mut pipeline, &crossing(alloc, 1)?)?;
    post(alloc, &mut pipeline, &single(alloc, 2)?)?;
    let calls = [
        (Advance(0), Step::Idle),
        (Enter(0), Step::Moved),
        // Slot 0 is taken.
        (Enter(1), Step::Idle),
        (Advance(0), Step::Moved),
        // Client 0 holds both halves, until it enters for its last pass.
        (Enter(1), Step::Idle),
        (Enter(2), Step::Idle),
        (Advance(1), Step::Moved),
        (Enter(2), Step::Idle),
        (Enter(0), Step::Moved),
        (Advance(0), Step::Moved),
        (Enter(2), Step::Moved),
        // The next slot is taken.
        (Advance(0), Step::Idle),
        (Advance(1), Step::Moved),
        (Advance(0), Step::Moved),
        (Enter(1), Step::Moved),
        (Advance(1), Step::Moved),
    ];
    for (next, step) in &calls {
        assert_eq!(rt; make(&mut pipeline, next), *step);
    }
    let added = |was: i64| Pair { was, now: was + 1 };
    let first = pipeline.answer_number(0);
    assert_eq!(rt; first, Some(1));
    assert_eq!(rt;
        pipeline.answer_pairs(0).as_slice(),
        [added(0), added(5), added(0)].as_slice()
    );
    let second = pipeline.answer_number(2);
    assert_eq!(rt; second, Some(2));
    assert_eq!(rt; pipeline.answer_pairs(2).as_slice(), [added(6)].as_slice());
    assert_eq!(rt;
        (pipeline.slot(0), pipeline.slot(1), pipeline.slot(2)),
        (Some(1), None, None)
    );
    assert_eq!(rt; (pipeline.waits_for(1), pipeline.next_number()), (None, 4));
    pipeline.drop_answer(0);
    assert_eq!(rt; pipeline.answer_number(0), None);
    Ok(())
}

#[test]
fn restored_pipelines_have_what_was_given(rt: HostRuntime) -> Result<(), Fail> {
    let alloc = rt.alloc();
    let mut pipeline = pipeline(alloc)?;
    post(alloc, &mut pipeline, &crossing(alloc, 0)?)?;
    pipeline.erase();
    assert_eq!(rt; (pipeline.waits_for(0), pipeline.next_number()), (None, 1));
    assert_eq!(rt; pipeline.register(place(1, 0)), 0);
    pipeline.restore(&PlaceMap::of(alloc, &[(place(0, 1), 9)])?, 5);
    pipeline.give_answer(1, 4, &Pairs::zeros(alloc, 2)?);
    assert_eq!(rt;
        (pipeline.answer_number(0), pipeline.next_number()),
        (None, 5)
    );
    let number = pipeline.answer_number(1);
    assert_eq!(rt; number, Some(4));
    assert_eq!(rt;
        pipeline.answer_pairs(1).as_slice(),
        [Pair::ZERO, Pair::ZERO].as_slice()
    );
    assert_eq!(rt;
        (
            pipeline.register(place(0, 1)),
            pipeline.register(place(1, 0))
        ),
        (9, 0)
    );
    Ok(())
}
