//! Reading a log ahead, since one record has few bytes.

ghost use Rattle.std.specs.Prelude.{◌≡◌, ℕ, ◌+◌, ◌-◌, ◌<◌, ◌≤◌, List, [], Option, Some, None, length, take, drop, IsErr, IsTrue, OnOk};
ghost use Rattle.port_io.specs.Cause.{HasCause};
ghost use Rattle.port_io.specs.LogRack.{AllStay};
ghost use Rattle.intent_log.specs.Ahead.{IsPieceOf, Reaches};

use crate::read::read_some;
use port_io::{Failed, LogRack};
use std::marker::Model;

/// How many bytes one read asks for.
const PIECE: usize = 4096;

/// The bytes of a log that the last read gave, and where in the log they begin.
#[derive(Drop)]
pub(crate) struct Ahead {
    place: usize,
    held: [u8; PIECE],
    /// How many of the held bytes were read; what stands behind them says nothing.
    len: usize,
}

impl Model for Ahead {
    ghost use Rattle.std.specs.Prelude.{◌≡◌, ◌≤◌, length, take};
    ghost use Rattle.intent_log.specs.Ahead.{Piece};

    ghost Value = { Piece };

    ghost view = { λ a. record { place = a.place; bytes = take a.len a.held } };

    ghost invariant = { λ a. (length a.held ≡ 4096) × (a.len ≤ 4096) };
}

impl Ahead {
    /// Nothing was read.
    pub(crate) fn nothing() -> Ahead
        ensures { result.bytes ≡ [] }
    {
        Ahead {
            place: 0,
            held: [0; PIECE],
            len: 0,
        }
    }

    /// Reads on at this place of a client's log, unless the byte there was read before.
    pub(crate) fn reach<L: LogRack>(
        &mut self,
        rack: &mut L,
        client: u8,
        at: usize,
    ) -> Result<(), Failed>
        requires client { client < 8 }
        requires piece { IsPieceOf (L.told rack.old client) self.old }
        ensures piece { IsPieceOf (L.told rack.old client) self.new }
        ensures reaches { OnOk result (Reaches (L.told rack.old client) at self.new) }
        ensures unchanged { AllStay (L.told rack.old) (L.told rack.new) }
        ensures keeps_on { IsTrue (L.keeps rack.old) → IsTrue (L.keeps rack.new) }
        ensures cause { HasCause (L.faults rack.old) (L.faults rack.new) (IsErr result) }
    {
        if self.place <= at && at - self.place < self.len {
            return Ok(());
        }
        self.place = at;
        self.len = 0;
        self.len = read_some(rack, client, at, &mut self.held, PIECE)?;
        Ok(())
    }

    /// The bytes that were read, from this place of the log on, at most so many.
    pub(crate) fn from(&self, at: usize, most: usize) -> &[u8]
        requires begins { self.now.place ≤ at }
        requires within { at ≤ self.now.place + length self.now.bytes }
        ensures { result.now ≡ take most (drop (at - self.now.place) self.now.bytes) }
    {
        let found = &self.held[at - self.place..self.len];
        &found[..most.min(found.len())]
    }
}
