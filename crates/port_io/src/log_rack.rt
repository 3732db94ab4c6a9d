//! Where the clients' logs stand.
ghost use Rattle.std.specs.Prelude.{◌≡◌, ◌⊎◌, ℕ, Bool, ◌<◌, List, [], Option, Some, IsTrue, IsSome, IfSome, IsErr, IsErrOf, IfOk, OnOk, OnErr};
ghost use Rattle.std.specs.Io.{ReadsAtMost};
ghost use Rattle.std.specs.Io.KnownBytes.{Appends};
ghost use Rattle.port_io.specs.declared.log_rack.RackFault.TheVariants.{NoMemory};
ghost use Rattle.port_io.specs.Cause.{HasCause};
ghost use Rattle.port_io.specs.LogRack.{AllStay, OthersStay, GivesFrom};
ghost use Rattle.port_io.specs.WriteAll.{AppendsFront};

use crate::Failed;
use std::alloc::{AllocError, Global};

/// Why a log did not take the whole piece.
#[derive(Clone, Copy, Debug, PartialEq, Eq)]
pub enum RackFault {
    /// The append failed, and the rack's count of failures rose.
    Failed,
    /// No memory was left.
    NoMemory,
}

impl From<AllocError> for RackFault {
    ghost from_gives = { λ _ fault. fault ≡ NoMemory };

    fn from(_: AllocError) -> Self {
        RackFault::NoMemory
    }
}

/// Holds a log for each of eight clients.
///
/// What a rack tells is what its reads give. A rack that keeps tells each log, and holds what was
/// appended to it. One that doesn't keep, as a damaged one or one over files, promises nothing of
/// what an append or a reset does to the log of its client.
pub trait LogRack {
    /// The bytes that reads of a client's log give, where the rack tells them.
    ghost told: { Self → ℕ → Option (List ℕ) };

    /// Whether the rack holds what was appended.
    ghost keeps: { Self → Bool };

    /// How many failures there were. The count never falls.
    ghost faults: { Self → ℕ };

    /// Empties a client's log. After `Failed` a rack that keeps has the old log or an empty one.
    fn reset(&mut self, client: u8) -> Result<(), Failed>
        requires { client < 8 }

        // In a rack that keeps.
        ensures emptied { IsTrue (keeps self.old) → OnOk result (told self.new client ≡ Some []) }
        ensures old_or_empty { IsTrue (keeps self.old) → OnErr result
            ((told self.new client ≡ told self.old client) ⊎ (told self.new client ≡ Some [])) }
        ensures keeps_on { IsTrue (keeps self.old) → IsTrue (keeps self.new) }

        // In each rack.
        ensures others { OthersStay client (told self.old) (told self.new) }
        ensures cause { HasCause (faults self.old) (faults self.new) (IsErr result) };

    /// Appends a piece to a client's log. After `Failed`, which comes only where the count of
    /// failures rose, a rack that keeps has a front of it. `NoMemory` changes nothing, neither what
    /// is told nor that count.
    fn append(&mut self, alloc: Global, client: u8, piece: &[u8]) -> Result<(), RackFault>
        requires { client < 8 }

        // In a rack that keeps.
        ensures appended { IsTrue (keeps self.old) → OnOk result
            (Appends (told self.old client) (told self.new client) piece.now) }
        ensures front { IsTrue (keeps self.old) → IsErrOf result RackFault.Failed
            → AppendsFront (told self.old client) (told self.new client) piece.now }
        ensures keeps_on { IsTrue (keeps self.old) → IsTrue (keeps self.new) }

        // In each rack.
        ensures no_memory { IsErrOf result RackFault.NoMemory → AllStay (told self.old) (told self.new) }
        ensures others { OthersStay client (told self.old) (told self.new) }
        ensures cause { HasCause (faults self.old) (faults self.new) (IsErrOf result RackFault.Failed) };

    /// Copies a client's log from `at` on to the front of `buf`, and says how many bytes. None come
    /// only at the end, or where `buf` has no room. What stands behind them in `buf` is left open.
    fn read(&mut self, client: u8, at: u64, buf: &mut [u8]) -> Result<usize, Failed>
        requires { client < 8 }
        ensures bound { ReadsAtMost result buf.new }
        ensures bytes { IfOk result (λ n. IfSome (told self.old client)
            (λ log. GivesFrom log at n buf.new)) }
        ensures unchanged { AllStay (told self.old) (told self.new) }
        ensures keeps_on { IsTrue (keeps self.old) → IsTrue (keeps self.new) }
        ensures cause { HasCause (faults self.old) (faults self.new) (IsErr result) };

    /// A rack that keeps tells each log.
    ghost keeping_tells: { (rack : Self) (client : ℕ) → IsTrue (keeps rack) → IsSome (told rack client) };
}
