//! What no clause says: that the calls succeed where memory is left, and the bytes of one log.

ghost use Rattle.std.specs.Prelude.{◌≡◌, ◌<◌, false};
ghost use Rattle.switch_packet.specs.Packets.{plain_log};
ghost use Rattle.intent_log.specs.Told.{CanBeWritten};

use super::*;
use port_io::{DamagedRack, LogRack, MemRack};
use std::alloc::Global;
use std::test::Fail;
use switch_packet::LogView;
use txn_model::Pair;

/// An intent of client 2: its item 1 reads one place.
const INTENT: [u8; 40] = [
    0x49, 1, 0, 0, 0, 0, 0, 0, 0, 0, 0, 0, 0x50, 1, 2, 0, 0, 0, 0, 1, 1, 1, 1, 0, 1, 0, 0, 0, 0, 0,
    0, 0, 0, 0, 0, 0, 0, 0, 0, 0,
];

/// Its outcome: it was packet 2, and found 12.
const OUTCOME: [u8; 32] = [
    0x4f, 1, 1, 0, 0, 0, 0, 1, 0, 0, 0, 0, 0, 0, 0, 2, 0, 0, 0, 0, 0, 0, 0, 12, 0, 0, 0, 0, 0, 0,
    0, 12,
];

fn rack_with(alloc: Global, client: u8, front: &[u8], rest: &[u8]) -> Result<MemRack, Fail>
    requires { client < 8 }
{
    let mut rack = MemRack::of(alloc, Vec::new(alloc));
    rack.append(alloc, client, front)?;
    rack.append(alloc, client, rest)?;
    Ok(rack)
}

#[test]
fn a_log_says_its_records(rt: HostRuntime) -> Result<(), Fail> {
    let alloc = rt.alloc();
    let mut rack = rack_with(alloc, 2, &INTENT, &OUTCOME)?;
    let view = read_log(alloc, &mut rack, 2)?;
    assert_eq!(rt;
        (view.intents.len(), view.outcomes.len(), view.torn),
        (1, 1, false)
    );
    for outcome in view.outcomes.as_slice() {
        assert_eq!(rt; (outcome.seq, outcome.number), (1, 2));
        assert_eq!(rt;
            outcome.pairs.as_slice(),
            [Pair { was: 12, now: 12 }].as_slice()
        );
    }
    for intent in view.intents.as_slice() {
        assert_eq!(rt;
            (intent.floor, intent.packet.seq, intent.packet.ops.len()),
            (0, 1, 1)
        );
    }
    Ok(())
}

#[test]
fn a_torn_end_counts_as_absent(rt: HostRuntime) -> Result<(), Fail> {
    let alloc = rt.alloc();
    for len in 0..32usize {
        let mut rack = rack_with(alloc, 2, &INTENT, &OUTCOME[..len])?;
        let view = read_log(alloc, &mut rack, 2)?;
        assert_eq!(rt;
            (view.intents.len(), view.outcomes.len(), view.torn),
            (1, 0, len > 0)
        );
    }
    Ok(())
}

#[test]
fn damage_is_told_with_its_place(rt: HostRuntime) -> Result<(), Fail> {
    let alloc = rt.alloc();
    let cases: [(u64, u8, u64); 3] = [(2, 1, 0), (47, 2, 40), (14, 1, 0)];
    for (at, byte, want) in cases {
        let mut rack = DamagedRack::of(alloc, 2, at, byte);
        rack.append(alloc, 2, &INTENT)?;
        rack.append(alloc, 2, &OUTCOME)?;
        match read_log(alloc, &mut rack, 2) {
            Ok(_) => panic!(rt; "the log is damaged"),
            Err(fault) => assert_eq!(rt; fault, LogFault::Damaged(want)),
        }
    }
    Ok(())
}

#[test]
fn a_log_with_a_byte_beyond_the_limit_is_too_long(rt: HostRuntime) -> Result<(), Fail> {
    let alloc = rt.alloc();
    let mut rack = MemRack::of(alloc, Vec::new(alloc));
    let zeros = [0; 65536];
    for _ in 0..257 {
        rack.append(alloc, 2, &zeros)?;
    }
    match read_log(alloc, &mut rack, 2) {
        Ok(_) => panic!(rt; "the log is too long"),
        Err(fault) => assert_eq!(rt; fault, LogFault::TooLong),
    }
    Ok(())
}

/// Compares client 2's log with what it should say.
fn check(alloc: Global, rack: &mut MemRack, want: &LogView) -> Result<Result<(), CheckFault>, Fail>
    requires written { CanBeWritten (plain_log want.now) }
    requires whole { want.now.torn ≡ false }
{
    let mut buf = Vec::with_capacity(alloc, 784)?;
    Ok(check_log(rack, 2, want, &mut buf))
}

#[test]
fn the_first_change_of_a_log_is_found(rt: HostRuntime) -> Result<(), Fail> {
    let alloc = rt.alloc();
    let mut written = rack_with(alloc, 2, &INTENT, &OUTCOME)?;
    let want = read_log(alloc, &mut written, 2)?;
    assert_eq!(rt; want.torn, false);
    let cases: [(&[u8], &[u8], Result<(), CheckFault>); 4] = [
        (&OUTCOME, &[], Ok(())),
        (&OUTCOME[..5], &OUTCOME[6..], Err(CheckFault::Changed(46))),
        (&OUTCOME[..31], &[], Err(CheckFault::Changed(71))),
        (&OUTCOME, &INTENT, Err(CheckFault::Changed(72))),
    ];
    for (front, rest, found) in cases {
        let mut rack = rack_with(alloc, 2, &INTENT, front)?;
        rack.append(alloc, 2, rest)?;
        assert_eq!(rt; check(alloc, &mut rack, &want)?, found);
    }
    Ok(())
}
