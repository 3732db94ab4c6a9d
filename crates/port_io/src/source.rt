//! Where bytes come from.
ghost use Rattle.std.specs.Prelude.{ℕ, List, Option, IsErr};
ghost use Rattle.std.specs.Io.{ReadsAtMost};
ghost use Rattle.std.specs.Io.KnownBytes.{ReadConsumes};
ghost use Rattle.port_io.specs.Cause.{HasCause};

/// A call of a source or of a rack failed. The count of failures says that it did.
#[derive(Clone, Copy, Debug, PartialEq, Eq)]
pub struct Failed;

/// Gives bytes, a piece at a time.
pub trait Source {
    /// The bytes that are still to come, where the source tells them.
    ghost left: { Self → Option (List ℕ) };

    /// How many failures there were. The count never falls.
    ghost faults: { Self → ℕ };

    /// Takes the first bytes of what is left to the front of `buf`, and says how many. None come
    /// only at the end, or where `buf` has no room. What stands behind them in `buf` is left open.
    ///
    /// `Failed` takes nothing from what is left. The call may be made again.
    fn read(&mut self, buf: &mut [u8]) -> Result<usize, Failed>
        ensures bound { ReadsAtMost result buf.new }
        ensures bytes { ReadConsumes (left self.old) (left self.new) result buf.new }
        ensures cause { HasCause (faults self.old) (faults self.new) (IsErr result) };
}
