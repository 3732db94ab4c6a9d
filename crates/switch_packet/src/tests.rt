use super::*;
use std::alloc::Global;
use std::process::Abort;
use std::test::Fail;
use txn_model::{Act, Need, Needs, NoMemory, Place, Which};

// Client 0's first item, in one pass through both halves: 3 is taken from a tuple at stage 0, and what that
// lowered it by is added to one at stage 1.
const PAYMENT: [u8; 62] = [
    0x50, 1, 0, 0, 0, 0, 0, 1, 1, 3, 2, 0, // the packet
    1, 0, 0, 2, 0, 0, 0, 0, 0, 0, 0, 0, 0, 0, 0, 0, // the first operation
    0xff, 0xff, 0xff, 0xff, 0xff, 0xff, 0xff, 0xfd, // its base
    1, 1, 0, 2, 0, 0, 1, 0, 0, 0, 0, 0, 0, 0, 0, 0, // the second one
    0, 0, 0, 0, 0, 0, 0, 0, // its base
    0, 1, // its need
];

fn add(stage: u8, base: i64, needs: Needs) -> PacketOp {
    PacketOp {
        pass: 1,
        place: Place {
            stage,
            array: 0,
            cell: 0,
        },
        act: Act::Add { base },
        bias: 0,
        needs,
    }
}

#[test]
fn a_packet_has_this_text(rt: HostRuntime) -> Result<(), Fail> {
    let mut packet = Packet::blank(rt.alloc())?;
    let length = decode_into(&PAYMENT, &mut packet)?;
    let moved = Needs::of(&[Need {
        from: 0,
        which: Which::Moved,
    }]);
    assert_eq!(rt; length, 62);
    assert_eq!(rt; (packet.client, packet.seq), (0, 1));
    assert_eq!(rt; (packet.passes, packet.halves), (1, 3));
    assert_eq!(rt;
        packet.ops.as_slice(),
        [add(0, -3, Needs::none()), add(1, 0, moved)].as_slice()
    );
    Ok(())
}

fn answer(alloc: Global, bytes: &[u8]) -> Result<Result<usize, PacketFault>, NoMemory> {
    let mut packet = Packet::blank(alloc)?;
    Ok(decode_into(bytes, &mut packet))
}

#[test]
fn a_front_of_a_text_is_short(rt: HostRuntime) -> Result<(), Fail> {
    for length in 0..62 {
        assert_eq!(rt;
            answer(rt.alloc(), &PAYMENT[..length])?,
            Err(PacketFault::Short)
        );
    }
    Ok(())
}

// Each byte that has a range, one above it, from the front to the back of a text, and a need of the operation
// itself.
#[test]
fn the_first_bad_byte_is_named(rt: HostRuntime) -> Result<(), Fail> {
    for (place, byte) in [
        (0, 0x51), // the mark
        (1, 2), // the version
        (2, 8), // the client
        (3, 1), // a filler
        (8, 17), // the passes
        (9, 4), // the halves
        (10, 17), // the operations
        (12, 2), // a pass
        (13, 12), // a stage
        (14, 4), // an array
        (15, 4), // an act
        (16, 16), // a cell
        (42, 5), // the needs
        (60, 1), // a need
        (61, 2), // what is needed
    ] {
        let mut bytes = PAYMENT;
        if let Some(changed) = bytes.get_mut(place) {
            *changed = byte;
        }
        assert_eq!(rt;
            answer(rt.alloc(), &bytes)?,
            Err(PacketFault::BadByte(place))
        );
    }
    Ok(())
}

fn goes_both_ways(rt: &impl Abort, alloc: Global, bytes: &[u8]) -> Result<usize, Fail> {
    let mut packet = Packet::blank(alloc)?;
    let length = decode_into(bytes, &mut packet)?;
    let mut text = Vec::with_capacity(alloc, packet_len(&packet))?;
    encode_into(&packet, &mut text);
    assert_eq!(rt; Some(text.as_slice()), bytes.get(..length));
    Ok(length)
}

#[test]
fn what_follows_a_text_is_left(rt: HostRuntime) -> Result<(), Fail> {
    let mut bytes = Vec::from_slice(rt.alloc(), &PAYMENT)?;
    bytes.push(7)?;
    assert_eq!(rt; goes_both_ways(&rt, rt.alloc(), &bytes)?, 62);
    Ok(())
}

#[test]
fn the_longest_text_goes_both_ways(rt: HostRuntime) -> Result<(), Fail> {
    let mut bytes = vec![in rt.alloc(); 0x50, 1, 7, 0, 255, 0, 1, 2, 16, 3, 16, 0]?;
    for number in 0..16u8 {
        let needs = if number == 0 { 0 } else { 4 };
        bytes.extend_from_slice(&[number + 1, 11, 3, 3, 15, 240 + number, needs, 0])?;
        bytes.extend_from_slice(&[0x80 + number; 32])?;
        for _ in 0..needs {
            bytes.extend_from_slice(&[number - 1, number % 2])?;
        }
    }
    assert_eq!(rt; goes_both_ways(&rt, rt.alloc(), &bytes)?, 772);
    Ok(())
}
