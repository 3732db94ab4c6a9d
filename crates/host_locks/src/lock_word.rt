//! Lock words.

ghost use Rattle.std.specs.Prelude.{◌≡◌, ℕ, ◌<◌, ◌==◌, IsSome, MatchOption, None, Some, if◌then◌else◌};
ghost use Rattle.std.specs.Int.{bit_at};
ghost use Rattle.host_locks.specs.Conflict.{IsFree, IsInTheWay};
ghost use Rattle.host_locks.specs.Words.{free_word, mode_in, stands_in};

use crate::mode::Mode;
use std::marker::Model;

/// The owner of a tuple that no client holds exclusively.
const NO_OWNER: u8 = 255;

/// Who holds one tuple. A word with an owner has no sharers.
#[derive(Clone, Copy, Debug, PartialEq, Eq)]
pub struct LockWord {
    /// Bit c, counted from the lowest, is set where client c holds the tuple shared.
    pub sharers: u8,
    /// The client that holds the tuple exclusively, below 8; 255 for none.
    pub owner: u8,
}

impl Model for LockWord {
    ghost use Rattle.std.specs.Prelude.{IsTrue};
    ghost use Rattle.host_locks.specs.Words.{PlainWord, is_word};

    ghost Value = { PlainWord };

    ghost view = { λ a. record { sharers = a.sharers; owner = a.owner } };

    ghost inverse = { λ word. record { sharers = word.sharers; owner = word.owner } };

    ghost invariant = { λ a. IsTrue (is_word (record { sharers = a.sharers; owner = a.owner })) };
}

impl LockWord {
    /// The word of a tuple that no client holds.
    pub fn free() -> LockWord
        ensures { result ≡ free_word }
    {
        LockWord {
            sharers: 0,
            owner: NO_OWNER,
        }
    }

    /// The least other client whose lock conflicts with this mode; None exactly where no other client's does.
    pub fn conflict(self, mode: Mode, client: u8) -> Option<u8>
        requires { client < 8 }
        ensures { IsInTheWay (stands_in self mode) client result }
    {
        if self.owner != NO_OWNER {
            return if self.owner == client {
                None
            } else {
                Some(self.owner)
            };
        }
        match mode {
            Mode::Shared => None,
            Mode::Exclusive => lowest(self.sharers & !(1 << client)),
        }
    }

    /// The mode in which the client holds the tuple; None exactly where it doesn't.
    pub fn mode_of(self, client: u8) -> Option<Mode>
        ensures { result ≡ mode_in self client }
    {
        if client >= 8 {
            None
        } else if client == self.owner {
            Some(Mode::Exclusive)
        } else if (self.sharers >> client) & 1 == 1 {
            Some(Mode::Shared)
        } else {
            None
        }
    }

    /// The word after a client's lock, where no other client is in its way.
    pub fn locked(self, mode: Mode, client: u8) -> LockWord
        requires client { client < 8 }
        requires free { mode_in self client ≡ None }
        requires others { IsFree (stands_in self mode) client }
        ensures { (c : ℕ) → mode_in result c ≡ (if c == client then Some mode else mode_in self c) }
    {
        match mode {
            Mode::Shared => LockWord {
                sharers: self.sharers | (1 << client),
                owner: self.owner,
            },
            Mode::Exclusive => LockWord {
                sharers: 0,
                owner: client,
            },
        }
    }

    /// The word without a client's lock.
    pub fn unlocked(self, client: u8) -> LockWord
        requires { IsSome (mode_in self client) }
        ensures { (c : ℕ) → mode_in result c ≡ (if c == client then None else mode_in self c) }
    {
        let sharers = self.sharers;
        LockWord {
            sharers: sharers & !(1 << client),
            owner: NO_OWNER,
        }
    }
}

/// The place of the lowest bit that is set; None where none is.
fn lowest(bits: u8) -> Option<u8>
    ensures { MatchOption result (bits ≡ 0) (λ k. (k < 8) × (bit_at bits k ≡ 1) × ((i : ℕ) → i < k → bit_at bits i ≡ 0)) }
{
    if bits == 0 {
        return None;
    }
    Some(bits.trailing_zeros() as u8)
}
