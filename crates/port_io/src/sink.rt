//! Where bytes go.
ghost use Rattle.std.specs.Prelude.{◌≡◌, ℕ, ◌<◌, List, Option, length, IfOk, IsErrOf};
ghost use Rattle.std.specs.Io.{WritesAtMost};
ghost use Rattle.std.specs.Io.KnownBytes.{WriteAppends};
ghost use Rattle.port_io.specs.declared.sink.SinkFault.TheVariants.{NoMemory};
ghost use Rattle.port_io.specs.Cause.{HasCause};

use std::alloc::{AllocError, Global};

/// Why a sink took nothing.
#[derive(Clone, Copy, Debug, PartialEq, Eq)]
pub enum SinkFault {
    /// The write failed, and the sink's count of failures rose.
    Failed,
    /// No memory was left.
    NoMemory,
}

impl From<AllocError> for SinkFault {
    ghost from_gives = { λ _ fault. fault ≡ NoMemory };

    fn from(_: AllocError) -> Self {
        SinkFault::NoMemory
    }
}

/// Takes bytes, a piece at a time.
pub trait Sink {
    /// The bytes that were taken so far, where the sink tells them.
    ghost content: { Self → Option (List ℕ) };

    /// How many failures there were. The count never falls.
    ghost faults: { Self → ℕ };

    /// Appends the first bytes of `piece`, and says how many: at least one, unless `piece` is empty.
    ///
    /// `Failed` comes only where the count of failures rose, `NoMemory` at any call. Both append
    /// nothing, and the call may be made again.
    fn write(&mut self, alloc: Global, piece: &[u8]) -> Result<usize, SinkFault>
        ensures bound { WritesAtMost result piece.now }
        ensures progress { IfOk result (λ n. 0 < length piece.now → 0 < n) }
        ensures bytes { WriteAppends (content self.old) (content self.new) result piece.now }
        ensures cause { HasCause (faults self.old) (faults self.new) (IsErrOf result SinkFault.Failed) };
}
