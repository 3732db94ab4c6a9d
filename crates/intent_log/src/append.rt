//! Appending records.

ghost use Rattle.std.specs.Prelude.{◌≡◌, ◌<◌, ◌≤◌, length, vec_capacity, IsTrue, IsErrOf, OnOk};
ghost use Rattle.std.specs.Io.KnownBytes.{Appends};
ghost use Rattle.port_io.specs.Cause.{HasCause};
ghost use Rattle.port_io.specs.LogRack.{AllStay, OthersStay};
ghost use Rattle.port_io.specs.WriteAll.{AppendsFront};
ghost use Rattle.switch_packet.specs.Packets.{plain, plain_intent, plain_outcome};
ghost use Rattle.switch_packet.specs.Ranges.{Fits};
ghost use Rattle.intent_log.specs.LogText.{intent_text, outcome_text};
ghost use Rattle.intent_log.specs.Records.{HasPairs};

use crate::encode::{encode_intent, encode_outcome};
use port_io::{LogRack, RackFault};
use std::alloc::Global;
use switch_packet::{Intent, Outcome};

/// Appends the intent's text to a client's log, in one append. `buf` is used for the text.
///
/// After `Failed`, which comes only where the rack's count of failures rose, a rack that keeps has a
/// front of the text. `NoMemory` comes from the rack alone, and leaves the log as it was.
pub fn append_intent<L: LogRack>(
    alloc: Global,
    rack: &mut L,
    client: u8,
    intent: &Intent,
    buf: &mut Vec<u8>,
) -> Result<(), RackFault>
    requires client { client < 8 }
    requires fits { Fits (plain intent.now.packet) }
    requires room { length (intent_text (plain_intent intent.now)) ≤ vec_capacity buf.old }

    // In a rack that keeps.
    ensures appended { IsTrue (L.keeps rack.old) → OnOk result
        (Appends (L.told rack.old client) (L.told rack.new client) (intent_text (plain_intent intent.now))) }
    ensures front { IsTrue (L.keeps rack.old) → IsErrOf result RackFault.Failed
        → AppendsFront (L.told rack.old client) (L.told rack.new client) (intent_text (plain_intent intent.now)) }
    ensures keeps_on { IsTrue (L.keeps rack.old) → IsTrue (L.keeps rack.new) }

    // In each rack.
    ensures no_memory { IsErrOf result RackFault.NoMemory → AllStay (L.told rack.old) (L.told rack.new) }
    ensures others { OthersStay client (L.told rack.old) (L.told rack.new) }
    ensures cause { HasCause (L.faults rack.old) (L.faults rack.new) (IsErrOf result RackFault.Failed) }
    ensures buf { vec_capacity buf.new ≡ vec_capacity buf.old }
{
    encode_intent(intent, buf);
    rack.append(alloc, client, buf.as_slice())
}

/// Appends the outcome's text to a client's log, in one append, as `append_intent` does.
pub fn append_outcome<L: LogRack>(
    alloc: Global,
    rack: &mut L,
    client: u8,
    outcome: &Outcome,
    buf: &mut Vec<u8>,
) -> Result<(), RackFault>
    requires client { client < 8 }
    requires pairs { HasPairs (plain_outcome outcome.now) }
    requires room { length (outcome_text (plain_outcome outcome.now)) ≤ vec_capacity buf.old }

    // In a rack that keeps.
    ensures appended { IsTrue (L.keeps rack.old) → OnOk result
        (Appends (L.told rack.old client) (L.told rack.new client) (outcome_text (plain_outcome outcome.now))) }
    ensures front { IsTrue (L.keeps rack.old) → IsErrOf result RackFault.Failed
        → AppendsFront (L.told rack.old client) (L.told rack.new client) (outcome_text (plain_outcome outcome.now)) }
    ensures keeps_on { IsTrue (L.keeps rack.old) → IsTrue (L.keeps rack.new) }

    // In each rack.
    ensures no_memory { IsErrOf result RackFault.NoMemory → AllStay (L.told rack.old) (L.told rack.new) }
    ensures others { OthersStay client (L.told rack.old) (L.told rack.new) }
    ensures cause { HasCause (L.faults rack.old) (L.faults rack.new) (IsErrOf result RackFault.Failed) }
    ensures buf { vec_capacity buf.new ≡ vec_capacity buf.old }
{
    encode_outcome(outcome, buf);
    rack.append(alloc, client, buf.as_slice())
}
