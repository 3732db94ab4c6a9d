//! The text of a recovery: the order of the packets, the registers behind them, and the torn logs.

ghost use Rattle.std.specs.Prelude.{◌≡◌, ◌++◌, ◌≤◌, [], ◌∷◌, IfOk, OnOk, OnErr, IsErrOf, map, length, string_bytes};
ghost use Rattle.std.specs.Io.KnownBytes.{Appends};
ghost use Rattle.std.specs.List.{filter, flat_map};
ghost use Rattle.catalogue.specs.PlanOf.{plan_of};
ghost use Rattle.core_model.specs.Rota.{numbers_below};
ghost use Rattle.gap_placement.specs.Answers.{plain_slotted};
ghost use Rattle.port_io.specs.Cause.{HasCause};
ghost use Rattle.port_io.specs.WriteAll.{AppendsFront};
ghost use Rattle.report_text.specs.Recovered.{has_bit, recovery_of, registers_told, slotted_line, order_text, registers_text, torn_word, torn_line};
ghost use Rattle.report_text.specs.Recovered as definition;

use crate::item::push_pairs;
use crate::line::{push_count, push_tuple};
use catalogue::Session;
use gap_placement::Slotted;
use port_io::{Sink, SinkFault, write_all};
use std::alloc::Global;
use switch_recovery::{Recovered, Torn};
use txn_model::{NoMemory, PlaceMap, TupleId};

/// Writes to a sink, in one piece, what was recovered from the session's logs.
///
/// After a fault a front of it stands. `NoMemory` comes where memory ran out, before or while it is
/// written; `Failed` only where the sink's count of failures rose.
pub fn write_recovered<K: Sink>(
    alloc: Global,
    recovered: &Recovered,
    session: &Session,
    sink: &mut K,
) -> Result<(), SinkFault>
    ensures ok { OnOk result (Appends (K.content sink.old) (K.content sink.new)
        (definition.recovered_text (recovery_of (plan_of session.now) recovered.now))) }
    ensures err { OnErr result (AppendsFront (K.content sink.old) (K.content sink.new)
        (definition.recovered_text (recovery_of (plan_of session.now) recovered.now))) }
    ensures cause { HasCause (K.faults sink.old) (K.faults sink.new) (IsErrOf result SinkFault.Failed) }
{
    let Ok(text) = recovered_text(alloc, recovered, session) else {
        return Err(SinkFault::NoMemory);
    };
    write_all(alloc, sink, text.as_bytes())
}

/// The text of what was recovered.
#[tactic(auto, unfolding(crate::specs::Recovered::recovered_text))]
fn recovered_text(
    alloc: Global,
    recovered: &Recovered,
    session: &Session,
) -> Result<String, NoMemory>
    ensures { IfOk result (λ text. string_bytes text
        ≡ definition.recovered_text (recovery_of (plan_of session.now) recovered.now)) }
{
    let mut text = String::new(alloc);
    let registers = register_rows(alloc, session, &recovered.restored.registers)?;
    push_order(&mut text, recovered.restored.placement.as_slice())?;
    push_registers(&mut text, registers.as_slice())?;
    push_next(&mut text, recovered.restored.next)?;
    push_torn(&mut text, recovered.torn, session.clients())?;
    Ok(text)
}

/// The hot tuples by id, each with the value of its register.
fn register_rows(
    alloc: Global,
    session: &Session,
    registers: &PlaceMap,
) -> Result<Vec<(TupleId, i64)>, NoMemory>
    ensures { IfOk result (λ rows. rows.items ≡ registers_told (plan_of session.now) registers.now) }
{
    let mut rows = Vec::new(alloc);
    for (tuple, _) in session.tuples.rows() {
        if let Some(value) = register_value(session, registers, *tuple) {
            rows.push((*tuple, value))?;
        }
    }
    Ok(rows)
}

/// The value of a tuple's register; None where it has none.
fn register_value(session: &Session, registers: &PlaceMap, tuple: TupleId) -> Option<i64>
    ensures { result ≡ definition.register_value (plan_of session.now) registers.now tuple }
{
    let place = session.layout.place_of(tuple)?;
    registers.get(place)
}

/// Appends how many packets there are, and the line of each. After `NoMemory` a part of that may have been
/// appended.
#[tactic(auto, unfolding(crate::specs::Recovered::order_text))]
fn push_order(text: &mut String, rows: &[Slotted]) -> Result<(), NoMemory>
    ensures { OnOk result (string_bytes text.new
        ≡ string_bytes text.old ++ order_text (map plain_slotted rows.now)) }
{
    push_count(text, "order", rows.len())?;
    for row in rows {
        push_slotted(text, row)?;
    }
    Ok(())
}

/// Appends the line of a packet. After `NoMemory` a part of it may have been appended.
#[tactic(auto, unfolding(crate::specs::Recovered::slotted_line))]
fn push_slotted(text: &mut String, row: &Slotted) -> Result<(), NoMemory>
    ensures { OnOk result (string_bytes text.new
        ≡ string_bytes text.old ++ slotted_line (plain_slotted row.now)) }
{
    let number = row.number;
    let client = row.client;
    let seq = row.seq;
    write!(text, "{number} c{client} {seq}")?;
    push_pairs(text, row.pairs.as_slice())?;
    text.push_str("\n")?;
    Ok(())
}

/// Appends how many hot tuples there are, and the line of each. After `NoMemory` a part of that may have been
/// appended.
#[tactic(auto, unfolding(crate::specs::Recovered::registers_text))]
fn push_registers(text: &mut String, rows: &[(TupleId, i64)]) -> Result<(), NoMemory>
    ensures { OnOk result (string_bytes text.new ≡ string_bytes text.old ++ registers_text rows.now) }
{
    push_count(text, "registers", rows.len())?;
    for (tuple, value) in rows {
        push_tuple(text, *tuple, *value)?;
    }
    Ok(())
}

/// Appends the line of the next packet's number. After `NoMemory` a part of it may have been appended.
#[tactic(auto, unfolding(crate::specs::Recovered::next_line))]
fn push_next(text: &mut String, next: u64) -> Result<(), NoMemory>
    ensures { OnOk result (string_bytes text.new
        ≡ string_bytes text.old ++ definition.next_line next) }
{
    write!(text, "next {next}\n")?;
    Ok(())
}

/// Appends the line of the torn logs: a word for each client whose log is torn. After `NoMemory` a part of it
/// may have been appended.
#[tactic(auto, unfolding(crate::specs::Recovered::torn_line))]
fn push_torn(text: &mut String, torn: Torn, clients: u8) -> Result<(), NoMemory>
    requires few { clients ≤ 8 }
    ensures { OnOk result (string_bytes text.new
        ≡ string_bytes text.old ++ torn_line (filter (has_bit torn.0) (numbers_below clients))) }
{
    text.push_str("torn")?;
    for client in 0..clients {
        push_if_torn(text, torn, client)?;
    }
    text.push_str("\n")?;
    Ok(())
}

/// Appends a space and the client's name, if its log is torn. After `NoMemory` a part of that may have been
/// appended.
fn push_if_torn(text: &mut String, torn: Torn, client: u8) -> Result<(), NoMemory>
    requires { client ≤ 7 }
    ensures { OnOk result (string_bytes text.new
        ≡ string_bytes text.old ++ flat_map torn_word (filter (has_bit torn.0) (client ∷ []))) }
{
    if has_bit(torn.0, client) {
        write!(text, " c{client}")?;
    }
    Ok(())
}

/// Whether the bit of this number is set.
fn has_bit(bits: u8, client: u8) -> bool
    requires { client ≤ 7 }
    ensures { result ≡ has_bit bits client }
{
    (bits >> client) % 2 == 1
}
