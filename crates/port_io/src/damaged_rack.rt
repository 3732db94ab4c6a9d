//! In memory: a rack whose reads show a wrong byte.
ghost use Rattle.std.specs.Prelude.{◌≡◌, ◌⊎◌, ℕ, ◌+◌, ◌<◌, ◌≤◌, List, [], ◌++◌, false, IsNone, IfSome, IsErrOf, IsErr, IsOk, IfOk, IsOkUnless, OnOk, refl};
ghost use Rattle.std.specs.Io.{ReadsAtMost};
ghost use Rattle.port_io.specs.Cause.{HasCause};
ghost use Rattle.port_io.specs.InMemory.{damaged_log, told_logs, told_damaged};
ghost use Rattle.port_io.specs.LogRack.{log_of, AllStay, OthersStay, GivesFrom};

use crate::{CleanRack, Failed, LogRack, RackFault};
use std::alloc::Global;
use std::marker::Model;

/// Holds the clients' logs, but reads of one of them give a certain byte at a certain place, where the
/// log is that long. It tells the logs as its reads give them, doesn't keep them, and never fails.
#[derive(Debug, Drop)]
pub struct DamagedRack {
    rack: CleanRack,
    client: u8,
    at: u64,
    byte: u8,
}

impl Model for DamagedRack {
    ghost use Rattle.port_io.specs.InMemory.{DamagedLogs};

    ghost Value = { DamagedLogs };

    ghost view = { λ damaged. record {
      logs = damaged.rack;
      damage = record { client = damaged.client; at = damaged.at; byte = damaged.byte };
    } };
}

impl DamagedRack {
    /// A rack whose logs are empty. Reads of this client's log will give `byte` at `at`.
    pub fn of(alloc: Global, client: u8, at: u64, byte: u8) -> DamagedRack
        ensures logs { (of : ℕ) → log_of result.logs of ≡ [] }
        ensures damage { result.damage ≡ record { client = client; at = at; byte = byte } }
    {
        DamagedRack {
            rack: CleanRack::fresh(alloc),
            client,
            at,
            byte,
        }
    }

    /// A client's log as it is kept, without the damage.
    pub fn bytes(&self, client: u8) -> &[u8]
        requires { client < 8 }
        ensures { result.now ≡ log_of self.now.logs client }
    {
        self.rack.bytes(client)
    }

    /// Where the damage is among `count` bytes of a client's log from `at` on.
    fn damaged_place(&self, client: u8, at: u64, count: usize) -> Option<usize>
        ensures shown { IfSome result (λ place. (client ≡ self.now.damage.client)
            × (at + place ≡ self.now.damage.at) × (place < count)) }
        ensures hidden { IsNone result → client ≡ self.now.damage.client
            → (self.now.damage.at < at) ⊎ (at + count ≤ self.now.damage.at) }
    {
        if client != self.client || self.at < at || self.at - at >= count as u64 {
            return None;
        }
        Some((self.at - at) as usize)
    }
}

impl LogRack for DamagedRack {
    ghost told = { λ damaged. told_damaged damaged };

    ghost keeps = { λ _. false };

    ghost faults = { λ _. 0 };

    fn reset(&mut self, client: u8) -> Result<(), Failed>
        requires { client < 8 }
        ensures done { IsOk result }
        ensures emptied { log_of self.new.logs client ≡ [] }
        ensures kept { OthersStay client (told_logs self.old.logs) (told_logs self.new.logs) }
        ensures damage { self.new.damage ≡ self.old.damage }
        ensures others { OthersStay client (told_damaged self.old) (told_damaged self.new) }
        ensures cause { HasCause 0 0 (IsErr result) }
    {
        self.rack.reset(client)
    }

    fn append(&mut self, alloc: Global, client: u8, piece: &[u8]) -> Result<(), RackFault>
        requires { client < 8 }
        ensures done { IsOkUnless result RackFault.NoMemory }
        ensures appended { OnOk result (log_of self.new.logs client ≡ log_of self.old.logs client ++ piece.now) }
        ensures kept { OthersStay client (told_logs self.old.logs) (told_logs self.new.logs) }
        ensures kept_all { IsErr result → AllStay (told_logs self.old.logs) (told_logs self.new.logs) }
        ensures damage { self.new.damage ≡ self.old.damage }
        ensures no_memory { IsErrOf result RackFault.NoMemory → AllStay (told_damaged self.old) (told_damaged self.new) }
        ensures others { OthersStay client (told_damaged self.old) (told_damaged self.new) }
        ensures cause { HasCause 0 0 (IsErrOf result RackFault.Failed) }
    {
        self.rack.append(alloc, client, piece)
    }

    fn read(&mut self, client: u8, at: u64, buf: &mut [u8]) -> Result<usize, Failed>
        requires { client < 8 }
        ensures done { IsOk result }
        ensures bound { ReadsAtMost result buf.new }
        ensures bytes { IfOk result (λ n. GivesFrom (damaged_log self.old client) at n buf.new) }
        ensures kept { AllStay (told_logs self.old.logs) (told_logs self.new.logs) }
        ensures damage { self.new.damage ≡ self.old.damage }
        ensures unchanged { AllStay (told_damaged self.old) (told_damaged self.new) }
        ensures cause { HasCause 0 0 (IsErr result) }
    {
        let count = self.rack.read(client, at, buf)?;
        if let Some(place) = self.damaged_place(client, at, count) {
            buf[place] = self.byte;
        }
        Ok(count)
    }

    ghost keeping_tells = { λ rack client keeps. refl };
}
