//! In memory: a rack whose calls fail by number.
ghost use Rattle.std.specs.Prelude.{◌≡◌, ◌↔◌, ℕ, ◌/◌, ◌^◌, ◌<◌, List, [], ◌++◌, length, take, true, false, IsTrue, IsOk, IsErr, IsErrOf, IfOk, OnOk, OnErr, refl};
ghost use Rattle.std.specs.Io.{ReadsAtMost};
ghost use Rattle.port_io.specs.Calls.{no_calls, next_number, next_fails, after_success, after_next};
ghost use Rattle.port_io.specs.Cause.{HasCause};
ghost use Rattle.port_io.specs.InMemory.{told_logs};
ghost use Rattle.port_io.specs.LogRack.{log_of, AllStay, OthersStay, GivesFrom};
ghost use Rattle.port_io.specs.WriteAll.{AppendsFront};

use crate::calls::Calls;
use crate::{CleanRack, Failed, LogRack, RackFault};
use std::alloc::Global;
use std::marker::Model;

/// Holds the clients' logs and keeps them, and fails at the calls whose numbers are listed. All its
/// calls count, from 1 on, also one that answers `NoMemory`.
#[derive(Debug, Drop)]
pub struct MemRack {
    rack: CleanRack,
    calls: Calls,
}

impl Model for MemRack {
    ghost use Rattle.port_io.specs.InMemory.{RackInMemory};

    ghost Value = { RackInMemory };

    ghost view = { λ memory. record { logs = memory.rack; calls = memory.calls } };
}

impl MemRack {
    /// A rack whose logs are empty, with the numbers of the calls that are to fail.
    pub fn of(alloc: Global, fails: Vec<u32>) -> MemRack
        ensures logs { (client : ℕ) → log_of result.logs client ≡ [] }
        ensures calls { result.calls ≡ no_calls fails.items }
    {
        MemRack {
            rack: CleanRack::fresh(alloc),
            calls: Calls::of(fails),
        }
    }

    /// A client's log.
    pub fn bytes(&self, client: u8) -> &[u8]
        requires { client < 8 }
        ensures { result.now ≡ log_of self.now.logs client }
    {
        self.rack.bytes(client)
    }
}

impl LogRack for MemRack {
    ghost told = { λ memory. told_logs memory.logs };

    ghost keeps = { λ _. true };

    ghost faults = { λ memory. memory.calls.failed };

    /// Empties a client's log. A call that fails leaves it as it was.
    fn reset(&mut self, client: u8) -> Result<(), Failed>
        requires { client < 8 }
        ensures emptied { OnOk result (log_of self.new.logs client ≡ []) }
        ensures unchanged { OnErr result (AllStay (told_logs self.old.logs) (told_logs self.new.logs)) }
        ensures others { OthersStay client (told_logs self.old.logs) (told_logs self.new.logs) }
        ensures cause { HasCause self.old.calls.failed self.new.calls.failed (IsErr result) }

        // Which calls fail.
        ensures fails { IsErr result ↔ IsTrue (next_fails self.old.calls) }
        ensures not_late { IsErr result → next_number self.old.calls < 2 ^ 32 }
        ensures calls { self.new.calls ≡ after_next self.old.calls }
    {
        if self.calls.next_fails() {
            return Err(Failed);
        }
        self.rack.reset(client)
    }

    /// Appends a piece to a client's log. A call that fails leaves half of it there, rounded down.
    fn append(&mut self, alloc: Global, client: u8, piece: &[u8]) -> Result<(), RackFault>
        requires { client < 8 }
        ensures appended { OnOk result (log_of self.new.logs client ≡ log_of self.old.logs client ++ piece.now) }
        ensures half { IsErrOf result RackFault.Failed
            → log_of self.new.logs client ≡ log_of self.old.logs client ++ take (length piece.now / 2) piece.now }
        ensures front { IsErrOf result RackFault.Failed
            → AppendsFront (told_logs self.old.logs client) (told_logs self.new.logs client) piece.now }
        ensures no_memory { IsErrOf result RackFault.NoMemory
            → AllStay (told_logs self.old.logs) (told_logs self.new.logs) }
        ensures others { OthersStay client (told_logs self.old.logs) (told_logs self.new.logs) }
        ensures cause { HasCause self.old.calls.failed self.new.calls.failed (IsErrOf result RackFault.Failed) }

        // Which calls fail, unless memory ran out.
        ensures fails { IsErrOf result RackFault.Failed → IsTrue (next_fails self.old.calls) }
        ensures not_late { IsErrOf result RackFault.Failed → next_number self.old.calls < 2 ^ 32 }
        ensures succeeds { IsOk result → next_fails self.old.calls ≡ false }
        ensures calls { (IsErrOf result RackFault.NoMemory → ⊥) → self.new.calls ≡ after_next self.old.calls }
        ensures calls_no_memory { IsErrOf result RackFault.NoMemory → self.new.calls ≡ after_success self.old.calls }
    {
        if self.calls.begin() {
            self.rack.append(alloc, client, &piece[..piece.len() / 2])?;
            self.calls.fail();
            return Err(RackFault::Failed);
        }
        self.rack.append(alloc, client, piece)
    }

    fn read(&mut self, client: u8, at: u64, buf: &mut [u8]) -> Result<usize, Failed>
        requires { client < 8 }
        ensures bound { ReadsAtMost result buf.new }
        ensures bytes { IfOk result (λ n. GivesFrom (log_of self.old.logs client) at n buf.new) }
        ensures unchanged { AllStay (told_logs self.old.logs) (told_logs self.new.logs) }
        ensures cause { HasCause self.old.calls.failed self.new.calls.failed (IsErr result) }

        // Which calls fail.
        ensures fails { IsErr result ↔ IsTrue (next_fails self.old.calls) }
        ensures not_late { IsErr result → next_number self.old.calls < 2 ^ 32 }
        ensures calls { self.new.calls ≡ after_next self.old.calls }
    {
        if self.calls.next_fails() {
            return Err(Failed);
        }
        self.rack.read(client, at, buf)
    }

    ghost keeping_tells = { λ rack client keeps. refl };
}
