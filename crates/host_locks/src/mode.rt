//! Modes of locks, and what is answered to one who asks for a lock.

ghost use Rattle.std.specs.Prelude.{◌≡◌};
ghost use Rattle.host_locks.specs.Conflict.{conflicts};

/// How a lock is held.
#[derive(Clone, Copy, Debug, PartialEq, Eq)]
pub enum Mode {
    /// Beside other shared locks.
    Shared,
    /// Alone.
    Exclusive,
}

impl Mode {
    /// Whether two clients can't hold locks in these modes on one tuple: one of them is exclusive.
    pub fn conflicts(self, other: Mode) -> bool
        ensures { result ≡ conflicts self other }
    {
        !matches!((self, other), (Mode::Shared, Mode::Shared))
    }
}

/// What is answered to one who asks for a lock.
#[derive(Clone, Copy, Debug, PartialEq, Eq)]
pub enum Grant {
    /// The lock is now held.
    Granted,
    /// Nothing changed, since a lock of this client is in the way; it is the least such client.
    HeldBy(u8),
}
