//! One record, read from its text.

ghost use Rattle.std.specs.Prelude.{◌≡◌, ◌≤◌, [], IfOk};
ghost use Rattle.switch_packet.specs.Packets.{plain, plain_intent, plain_outcome, room_of};
ghost use Rattle.switch_packet.specs.Reading.{Reads, ReadsAs, each_at};
ghost use Rattle.intent_log.specs.Reading.{pair_at, intent_at, outcome_at, record_at, plain_entry, ReadsEntry};
ghost use Rattle.intent_log.specs.declared.entry.EntryFault.TheVariants.{Text, NoMemory};

use crate::encode::{INTENT_MARK, OUTCOME_MARK, VERSION};
use std::alloc::{AllocError, Global};
use switch_packet::{Intent, MOST_PACKET_OPS, Outcome, Packet, PacketFault, Reader, read_packet};
use txn_model::{Pair, Pairs};

/// A record of a log.
#[derive(Drop)]
pub(crate) enum Entry {
    Intent(Intent),
    Outcome(Outcome),
}

/// Why no record was read.
#[derive(Clone, Copy)]
pub(crate) enum EntryFault {
    /// None begins there, or only the front of one stands there.
    Text(PacketFault),
    /// No memory was left.
    NoMemory,
}

impl From<PacketFault> for EntryFault {
    ghost from_gives = { λ fault made. made ≡ Text fault };

    fn from(fault: PacketFault) -> Self {
        EntryFault::Text(fault)
    }
}

impl From<AllocError> for EntryFault {
    ghost from_gives = { λ _ made. made ≡ NoMemory };

    fn from(_: AllocError) -> Self {
        EntryFault::NoMemory
    }
}

impl From<txn_model::NoMemory> for EntryFault {
    ghost from_gives = { λ _ made. made ≡ NoMemory };

    fn from(_: txn_model::NoMemory) -> Self {
        EntryFault::NoMemory
    }
}

#[tactic(auto, unfolding(crate::specs::Reading::pair_at))]
fn read_pair(reader: &mut Reader<'_>) -> Result<Pair, PacketFault>
    ensures { Reads reader.new result (pair_at reader.old) }
{
    Ok(Pair {
        was: reader.i64()?,
        now: reader.i64()?,
    })
}

fn read_pairs(reader: &mut Reader<'_>, count: u8, to: &mut Pairs) -> Result<(), PacketFault>
    requires empty { to.old.items ≡ [] }
    requires room { count ≤ to.old.spare }
    ensures { ReadsAs to.new.items reader.new result (each_at (λ _. pair_at) 0 count reader.old) }
{
    for _ in 0..count {
        to.push(read_pair(reader)?);
    }
    Ok(())
}

/// A packet like this one, without spare room.
fn copy_packet(alloc: Global, packet: &Packet) -> Result<Packet, txn_model::NoMemory>
    ensures { IfOk result (λ copy. plain copy ≡ plain packet.now) }
{
    Ok(Packet {
        client: packet.client,
        seq: packet.seq,
        passes: packet.passes,
        halves: packet.halves,
        ops: packet.ops.copy(alloc)?,
    })
}

/// Reads an intent behind its first byte. `scratch` holds its packet meanwhile.
#[tactic(auto, unfolding(crate::specs::Reading::intent_at))]
fn read_intent(
    alloc: Global,
    reader: &mut Reader<'_>,
    scratch: &mut Packet,
) -> Result<Intent, EntryFault>
    requires { 16 ≤ room_of scratch.old.ops }
    ensures value { ReadsEntry plain_intent reader.new result (intent_at reader.old) }
    ensures room { room_of scratch.new.ops ≡ room_of scratch.old.ops }
{
    reader.byte(VERSION, VERSION)?;
    reader.zeros(2)?;
    let floor = reader.u64()?;
    read_packet(reader, scratch)?;
    let packet = copy_packet(alloc, scratch)?;
    Ok(Intent { floor, packet })
}

/// Reads an outcome behind its first byte.
#[tactic(auto, unfolding(crate::specs::Reading::outcome_at))]
fn read_outcome(alloc: Global, reader: &mut Reader<'_>) -> Result<Outcome, EntryFault>
    ensures { ReadsEntry plain_outcome reader.new result (outcome_at reader.old) }
{
    reader.byte(VERSION, VERSION)?;
    let count = reader.byte(1, MOST_PACKET_OPS)?;
    reader.byte(0, 0)?; // reserved, byte 3
    let seq = reader.u32()?;
    let number = reader.u64()?;
    let mut pairs = Pairs::of(Vec::with_capacity(alloc, count as usize)?);
    read_pairs(reader, count, &mut pairs)?;
    Ok(Outcome { seq, number, pairs })
}

/// Reads a record. `scratch` holds a packet meanwhile, for which it has room.
#[tactic(auto, unfolding(crate::specs::Reading::record_at))]
pub(crate) fn read_entry(
    alloc: Global,
    reader: &mut Reader<'_>,
    scratch: &mut Packet,
) -> Result<Entry, EntryFault>
    requires { 16 ≤ room_of scratch.old.ops }
    ensures value { ReadsEntry plain_entry reader.new result (record_at reader.old) }
    ensures room { room_of scratch.new.ops ≡ room_of scratch.old.ops }
{
    if reader.either(INTENT_MARK, OUTCOME_MARK)? == INTENT_MARK {
        Ok(Entry::Intent(read_intent(alloc, reader, scratch)?))
    } else {
        Ok(Entry::Outcome(read_outcome(alloc, reader)?))
    }
}
