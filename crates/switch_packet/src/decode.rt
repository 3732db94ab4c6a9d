//! Reading a packet's text.

ghost use Rattle.std.specs.Prelude.{◌≡◌, ℕ, ◌≤◌, ◌↔◌, List, [], ◌++◌, length, take, IfOk, OnErr};
ghost use Rattle.switch_packet.specs.Packets.{PlainPacket, plain, blank_packet, room_of};
ghost use Rattle.switch_packet.specs.Ranges.{IsPacket};
ghost use Rattle.switch_packet.specs.PacketText.{packet_text};
ghost use Rattle.switch_packet.specs.Fronts.{IsFront, IsBadAt};
ghost use Rattle.switch_packet.specs.Reading.{Reads, ReadsAs, start, each_at};
ghost use Rattle.switch_packet.specs.PacketReading.{cell_at, most_needs, op_head_at, bias_at, act_at, need_at, needs_at, op_at, packet_head_at, packet_at, Decodes};

use crate::fault::PacketFault;
use crate::format::{ADD, CHOOSE, MOVED, OLD, PACKET_MARK, PUT, READ, VERSION};
use crate::limits::{
    ARRAYS, BOTH_HALVES, CELLS, CLIENTS, MOST_NEEDS, MOST_PACKET_OPS, MOST_PASSES, STAGES,
};
use crate::packet::{Packet, PacketOp, PacketOps};
use crate::reader::Reader;
use txn_model::{Act, Need, Needs, Place, Which};

/// The first 8 bytes of an operation: its act as a byte, and how many needs it has.
#[derive(Clone, Copy)]
pub struct OpHead {
    pub pass: u8,
    pub place: Place,
    pub act: u8,
    pub needs: u8,
}

/// The first 12 bytes of a packet, with how many operations it has.
#[derive(Clone, Copy)]
pub struct PacketHead {
    pub client: u8,
    pub seq: u32,
    pub passes: u8,
    pub halves: u8,
    pub ops: u8,
}

#[tactic(auto, unfolding(crate::specs::PacketReading::cell_at))]
fn read_cell(reader: &mut Reader<'_>) -> Result<u16, PacketFault>
    ensures { Reads reader.new result (cell_at reader.old) }
{
    let high = reader.byte(0, ((CELLS - 1) / 256) as u8)?;
    let low = reader.byte(0, 255)?;
    Ok(u16::from_be_bytes([high, low]))
}

/// The most needs that an operation may have. A read and a packet's first operation have none.
fn most_needs(act: u8, number: u8) -> u8
    ensures { result ≡ most_needs act number }
{
    if act == READ || number == 0 {
        0
    } else {
        MOST_NEEDS
    }
}

#[tactic(auto, unfolding(crate::specs::PacketReading::op_head_at))]
fn read_op_head(reader: &mut Reader<'_>, passes: u8, number: u8) -> Result<OpHead, PacketFault>
    ensures value { Reads reader.new result (op_head_at passes number reader.old) }
    ensures few { IfOk result (λ head. head.needs ≤ most_needs head.act number) }
{
    let pass = reader.byte(1, passes)?;
    let stage = reader.byte(0, STAGES - 1)?;
    let array = reader.byte(0, ARRAYS - 1)?;
    let act = reader.byte(READ, CHOOSE)?;
    let cell = read_cell(reader)?;
    let needs = reader.byte(0, most_needs(act, number))?;
    reader.byte(0, 0)?; // reserved, byte 7
    Ok(OpHead {
        pass,
        place: Place { stage, array, cell },
        act,
        needs,
    })
}

/// The bias of an operation. A read has none.
#[tactic(auto, unfolding(crate::specs::PacketReading::bias_at))]
fn read_bias(reader: &mut Reader<'_>, act: u8) -> Result<i64, PacketFault>
    ensures { Reads reader.new result (bias_at act reader.old) }
{
    if act == READ {
        reader.zeros(8)?;
        return Ok(0);
    }
    reader.i64()
}

/// The numbers of the act that has this byte.
#[tactic(auto, unfolding(crate::specs::PacketReading::act_at))]
fn read_act(reader: &mut Reader<'_>, byte: u8) -> Result<Act, PacketFault>
    ensures { Reads reader.new result (act_at byte reader.old) }
{
    Ok(match byte {
        READ => Act::Read,
        PUT => Act::Put {
            base: reader.i64()?,
        },
        ADD => Act::Add {
            base: reader.i64()?,
        },
        _ => Act::Choose {
            limit: reader.i64()?,
            above: reader.i64()?,
            below: reader.i64()?,
        },
    })
}

#[tactic(auto, unfolding(crate::specs::PacketReading::need_at))]
fn read_need(reader: &mut Reader<'_>, number: u8) -> Result<Need, PacketFault>
    requires { 1 ≤ number }
    ensures { Reads reader.new result (need_at number reader.old) }
{
    let from = reader.byte(0, number - 1)?;
    let which = match reader.byte(OLD, MOVED)? {
        OLD => Which::Old,
        _ => Which::Moved,
    };
    Ok(Need { from, which })
}

fn read_needs(reader: &mut Reader<'_>, number: u8, count: u8) -> Result<Needs, PacketFault>
    requires few { count ≤ 4 }
    requires later { 1 ≤ count → 1 ≤ number }
    ensures { Reads reader.new result (needs_at number count reader.old) }
{
    let mut needs = Needs::none();
    for _ in 0..count {
        needs.push(read_need(reader, number)?);
    }
    Ok(needs)
}

#[tactic(auto, unfolding(crate::specs::PacketReading::op_at))]
fn read_op(reader: &mut Reader<'_>, passes: u8, number: u8) -> Result<PacketOp, PacketFault>
    ensures { Reads reader.new result (op_at passes number reader.old) }
{
    let head = read_op_head(reader, passes, number)?;
    let bias = read_bias(reader, head.act)?;
    let act = read_act(reader, head.act)?;
    let needs = read_needs(reader, number, head.needs)?;
    Ok(PacketOp {
        pass: head.pass,
        place: head.place,
        act,
        bias,
        needs,
    })
}

fn read_ops(
    reader: &mut Reader<'_>,
    passes: u8,
    count: u8,
    to: &mut PacketOps,
) -> Result<(), PacketFault>
    requires empty { to.old.items ≡ [] }
    requires room { count ≤ to.old.spare }
    ensures value { ReadsAs to.new.items reader.new result
        (each_at (op_at passes) 0 count reader.old) }
    ensures room { room_of to.new ≡ room_of to.old }
{
    for number in 0..count {
        to.push(read_op(reader, passes, number)?);
    }
    Ok(())
}

#[tactic(auto, unfolding(crate::specs::PacketReading::packet_head_at))]
fn read_packet_head(reader: &mut Reader<'_>) -> Result<PacketHead, PacketFault>
    ensures value { Reads reader.new result (packet_head_at reader.old) }
    ensures few { IfOk result (λ head. head.ops ≤ 16) }
{
    reader.byte(PACKET_MARK, PACKET_MARK)?;
    reader.byte(VERSION, VERSION)?;
    let client = reader.byte(0, CLIENTS - 1)?;
    reader.byte(0, 0)?; // reserved, byte 3
    let seq = reader.u32()?;
    let passes = reader.byte(1, MOST_PASSES)?;
    let halves = reader.byte(1, BOTH_HALVES)?;
    let ops = reader.byte(1, MOST_PACKET_OPS)?;
    reader.byte(0, 0)?; // reserved, byte 11
    Ok(PacketHead {
        client,
        seq,
        passes,
        halves,
        ops,
    })
}

#[tactic(auto, unfolding(crate::specs::PacketReading::packet_at))]
fn read_fields(reader: &mut Reader<'_>, to: &mut Packet) -> Result<(), PacketFault>
    requires { 16 ≤ room_of to.old.ops }
    ensures value { ReadsAs (plain to.new) reader.new result (packet_at reader.old) }
    ensures room { room_of to.new.ops ≡ room_of to.old.ops }
{
    to.clear();
    let head = read_packet_head(reader)?;
    to.client = head.client;
    to.seq = head.seq;
    to.passes = head.passes;
    to.halves = head.halves;
    read_ops(reader, head.passes, head.ops, &mut to.ops)
}

/// Reads a packet's text into `to`. The room for operations is kept. After a fault `to` is blank.
pub fn read_packet(reader: &mut Reader<'_>, to: &mut Packet) -> Result<(), PacketFault>
    requires { 16 ≤ room_of to.old.ops }
    ensures value { ReadsAs (plain to.new) reader.new result (packet_at reader.old) }
    ensures blank { OnErr result (plain to.new ≡ blank_packet) }
    ensures room { room_of to.new.ops ≡ room_of to.old.ops }
{
    let result = read_fields(reader, to);
    if result.is_err() {
        to.clear();
    }
    result
}

fn decode(bytes: &[u8], to: &mut Packet) -> Result<usize, PacketFault>
    requires { 16 ≤ room_of to.old.ops }
    ensures exact { Decodes (plain to.new) bytes.now result (packet_at (start bytes.now)) }
    ensures blank { OnErr result (plain to.new ≡ blank_packet) }
    ensures room { room_of to.new.ops ≡ room_of to.old.ops }
{
    let mut reader = Reader::new(bytes);
    read_packet(&mut reader, to)?;
    Ok(reader.place())
}

/// Reads the packet's text at the front of the bytes into `to`, and answers how many bytes it takes. The
/// room for operations is kept. After a fault `to` is blank. It takes no memory.
pub fn decode_into(bytes: &[u8], to: &mut Packet) -> Result<usize, PacketFault>
    requires { 16 ≤ room_of to.old.ops }
    // The bytes that were read are the text of the packet that `to` is now.
    ensures found { IfOk result (λ n. IsPacket (plain to.new) × (n ≤ length bytes.now)
        × (take n bytes.now ≡ packet_text (plain to.new))) }
    // What begins with a packet's text is read as that packet.
    ensures only { (packet : PlainPacket) (rest : List ℕ)
        → IsPacket packet → bytes.now ≡ packet_text packet ++ rest
        → (result ≡ Ok (length (packet_text packet))) × (plain to.new ≡ packet) }
    ensures short { (result ≡ Err PacketFault.Short) ↔ IsFront packet_text IsPacket bytes.now }
    ensures bad { (place : ℕ)
        → (result ≡ Err (PacketFault.BadByte place)) ↔ IsBadAt packet_text IsPacket bytes.now place }
    ensures blank { OnErr result (plain to.new ≡ blank_packet) }
    ensures room { room_of to.new.ops ≡ room_of to.old.ops }
    // The same, as a function of the bytes.
    ensures exact { Decodes (plain to.new) bytes.now result (packet_at (start bytes.now)) }
{
    decode(bytes, to)
}
