//! The records of a log, read from its bytes.

ghost use Rattle.std.specs.Prelude.{◌≡◌, ◌+◌, ◌↔◌, [], length, false, IfOk, IsTrue};
ghost use Rattle.switch_packet.specs.Packets.{plain_log, plain_intent, plain_outcome};
ghost use Rattle.intent_log.specs.Grammar.{with_record, last_intent, FitsBehind, IsOutcomeOf, Intended};
ghost use Rattle.intent_log.specs.Reading.{plain_entry};
ghost use Rattle.intent_log.specs.Told.{Says, CutsOff, StopsWith};

use crate::entry::{Entry, EntryFault, read_entry};
use crate::fault::LogFault;
use std::alloc::{AllocError, Global};
use std::marker::Model;
use switch_packet::{Intent, Intents, LogView, Outcome, Outcomes, Packet, PacketFault, Reader};

/// What the records that were read say.
#[derive(Drop)]
struct Records {
    intents: Vec<Intent>,
    outcomes: Vec<Outcome>,
}

impl Model for Records {
    ghost use Rattle.std.specs.Prelude.{map, false};
    ghost use Rattle.switch_packet.specs.Packets.{PlainLog, plain_intent, plain_outcome};

    ghost Value = { PlainLog };

    ghost view = { λ r. record {
      intents = map plain_intent r.intents.items;
      outcomes = map plain_outcome r.outcomes.items;
      torn = false;
    } };
}

impl Records {
    fn none(alloc: Global) -> Records
        ensures { result ≡ record { intents = []; outcomes = []; torn = false } }
    {
        Records {
            intents: Vec::new(alloc),
            outcomes: Vec::new(alloc),
        }
    }

    /// Whether an intent of this client fits behind the records.
    fn has_room_for(&self, client: u8, intent: &Intent) -> bool
        ensures { IsTrue result ↔ FitsBehind client self.now (Intended (plain_intent intent.now)) }
    {
        if intent.packet.client != client || self.intents.len() != self.outcomes.len() {
            return false;
        }
        match self.intents.last() {
            None => true,
            Some(last) => last.packet.seq < intent.packet.seq,
        }
    }

    /// Whether an outcome fits behind the records.
    fn awaits(&self, outcome: &Outcome) -> bool
        ensures { IsTrue result ↔ ((length self.now.intents ≡ length self.now.outcomes + 1)
            × IsOutcomeOf (last_intent self.now) (plain_outcome outcome.now)) }
    {
        if self.intents.len() != self.outcomes.len() + 1 {
            return false;
        }
        match self.intents.last() {
            None => false,
            Some(last) => {
                outcome.seq == last.packet.seq
                    && outcome.pairs.len() as usize == last.packet.ops.len()
            }
        }
    }

    /// Whether the record fits behind those of this client.
    fn fits(&self, client: u8, entry: &Entry) -> bool
        ensures { IsTrue result ↔ FitsBehind client self.now (plain_entry entry.now) }
    {
        match entry {
            Entry::Intent(intent) => self.has_room_for(client, intent),
            Entry::Outcome(outcome) => self.awaits(outcome),
        }
    }

    /// Adds the record.
    fn push(&mut self, entry: Entry) -> Result<(), AllocError>
        ensures { IfOk result (λ _. self.new ≡ with_record self.old (plain_entry entry)) }
    {
        match entry {
            Entry::Intent(intent) => self.intents.push(intent)?,
            Entry::Outcome(outcome) => self.outcomes.push(outcome)?,
        }
        Ok(())
    }

    fn into_view(self, torn: bool) -> LogView
        ensures { plain_log result ≡ record self { torn = torn } }
    {
        LogView {
            intents: Intents::of(self.intents),
            outcomes: Outcomes::of(self.outcomes),
            torn,
        }
    }
}

impl Records {
    /// What is said where no record was read at this place.
    fn stopped(self, fault: EntryFault, place: usize) -> Result<LogView, LogFault>
        ensures { StopsWith fault place self result }
    {
        match fault {
            EntryFault::Text(fault) => self.cut(fault, place),
            EntryFault::NoMemory => Err(LogFault::NoMemory),
        }
    }

    /// What is said where the bytes from this place on begin with no record.
    fn cut(self, fault: PacketFault, place: usize) -> Result<LogView, LogFault>
        ensures { CutsOff fault place self result }
    {
        match fault {
            PacketFault::Short => Ok(self.into_view(true)),
            PacketFault::BadByte(_) => Err(LogFault::Damaged(place as u64)),
        }
    }
}

/// What a log with these bytes says, if it is one.
pub(crate) fn read_records(alloc: Global, client: u8, bytes: &[u8]) -> Result<LogView, LogFault>
    ensures { Says client bytes.now result }
{
    let mut scratch = Packet::blank(alloc)?;
    let mut records = Records::none(alloc);
    let mut reader = Reader::new(bytes);
    while !reader.is_at_end() {
        let place = reader.place();
        match read_entry(alloc, &mut reader, &mut scratch) {
            Ok(entry) => {
                if !records.fits(client, &entry) {
                    return Err(LogFault::Damaged(place as u64));
                }
                records.push(entry)?;
            }
            Err(fault) => return records.stopped(fault, place),
        }
    }
    Ok(records.into_view(false))
}
