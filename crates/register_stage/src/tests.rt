ghost use Rattle.std.specs.Prelude.{◌≡◌, []};
ghost use Rattle.txn_model.specs.Needs.{needs_list};
ghost use Rattle.register_stage.specs.Registers.{place_in};

use super::*;
use std::test::Fail;
use switch_packet::{Packet, PacketOp};
use txn_model::{Act, Needs, Pair, Pairs, Place};

/// Adds to cell 1 of an array of stage 3.
fn add(pass: u8, array: u8, base: i64) -> PacketOp
    ensures pass { result.pass ≡ pass }
    ensures place { result.place ≡ place_in 3 array 1 }
    ensures needs { needs_list result.needs ≡ [] }
{
    PacketOp {
        pass,
        place: Place {
            stage: 3,
            array,
            cell: 1,
        },
        act: Act::Add { base },
        bias: 0,
        needs: Needs::none(),
    }
}

#[test]
fn a_visit_executes_its_pass_alone_and_wraps(rt: HostRuntime) -> Result<(), Fail> {
    let mut stage = Stage::fresh(rt.alloc(), 3, 2, 4)?;
    stage.set_cell(0, 1, i64::MAX);
    let mut packet = Packet::blank(rt.alloc())?;
    let first = add(1, 0, 1);
    let second = add(2, 1, 5);
    packet.ops.push(first);
    packet.ops.push(second);
    let mut flight = Flight {
        packet,
        pairs: Pairs::zeros(rt.alloc(), 2)?,
        pass: 1,
        number: 1,
    };
    stage.visit(&mut flight);
    let executed = Pair {
        was: i64::MAX,
        now: i64::MIN,
    };
    assert_eq!(rt; flight.pairs.as_slice(), [executed, Pair::ZERO].as_slice());
    Ok(())
}
