use super::*;
use std::test::Fail;
use switch_packet::{Packet, PacketOp};
use txn_model::{Act, Needs, Pair, Pairs, Place};

fn read() -> PacketOp {
    PacketOp {
        pass: 1,
        place: Place {
            stage: 0,
            array: 0,
            cell: 0,
        },
        act: Act::Read,
        bias: 0,
        needs: Needs::none(),
    }
}

#[test]
fn a_packet_is_taken_over(rt: HostRuntime) -> Result<(), Fail> {
    let mut log = ClientLog::fresh(rt.alloc(), 2)?;
    let mut packet = Packet::blank(rt.alloc())?;
    packet.seq = 3;
    packet.ops.push(read());
    log.push_intent(7, &mut packet);
    assert_eq!(rt; (packet.seq, packet.ops.len()), (0, 0));
    let intent = log.last_intent();
    assert_eq!(rt;
        (intent.floor, intent.packet.seq, intent.packet.ops.len()),
        (7, 3, 1)
    );
    assert_eq!(rt; log.intents().len(), 1);
    assert_eq!(rt; log.outcomes().len(), 0);
    Ok(())
}

#[test]
fn an_outcome_has_its_pairs(rt: HostRuntime) -> Result<(), Fail> {
    let mut log = ClientLog::fresh(rt.alloc(), 1)?;
    let pairs = Pairs::zeros(rt.alloc(), 2)?;
    log.push_outcome(3, 9, &pairs);
    let outcome = &log.outcomes()[0];
    assert_eq!(rt; (outcome.seq, outcome.number), (3, 9));
    assert_eq!(rt;
        outcome.pairs.as_slice(),
        [Pair::ZERO, Pair::ZERO].as_slice()
    );
    Ok(())
}
