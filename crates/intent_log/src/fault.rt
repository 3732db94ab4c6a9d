//! Why a log was not read, or is not what it should be.

ghost use Rattle.std.specs.Prelude.{◌≡◌};
ghost use Rattle.intent_log.specs.declared.fault.LogFault.TheVariants.{Failed, NoMemory};
ghost use Rattle.intent_log.specs.declared.fault.CheckFault.TheVariants as check;

use std::alloc::AllocError;

/// Why a log was not read.
#[derive(Clone, Copy, Debug, PartialEq, Eq)]
pub enum LogFault {
    /// A read failed, and the rack's count of failures rose.
    Failed,
    /// A byte beyond 16,777,216 was read.
    TooLong,
    /// At this place, which whole fitting records have reached, stands neither a record that fits nor the
    /// front of a record.
    Damaged(u64),
    /// No memory was left.
    NoMemory,
}

impl From<AllocError> for LogFault {
    ghost from_gives = { λ _ fault. fault ≡ NoMemory };

    fn from(_: AllocError) -> Self {
        LogFault::NoMemory
    }
}

impl From<txn_model::NoMemory> for LogFault {
    ghost from_gives = { λ _ fault. fault ≡ NoMemory };

    fn from(_: txn_model::NoMemory) -> Self {
        LogFault::NoMemory
    }
}

impl From<port_io::Failed> for LogFault {
    ghost from_gives = { λ _ fault. fault ≡ Failed };

    fn from(_: port_io::Failed) -> Self {
        LogFault::Failed
    }
}

/// Why a log is not known to be what it should be.
#[derive(Clone, Copy, Debug, PartialEq, Eq)]
pub enum CheckFault {
    /// A read failed, and the rack's count of failures rose.
    Failed,
    /// The log differs, and this is the first place at which it does. A missing or further byte differs.
    Changed(u64),
}

impl From<port_io::Failed> for CheckFault {
    ghost from_gives = { λ _ fault. fault ≡ check.Failed };

    fn from(_: port_io::Failed) -> Self {
        CheckFault::Failed
    }
}
