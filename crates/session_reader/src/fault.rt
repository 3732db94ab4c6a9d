//! Why bytes are no session.

ghost use Rattle.std.specs.Prelude.{◌≡◌};
ghost use Rattle.session_reader.specs.declared.fault.SessionFault.TheVariants.{NoMemory};
ghost use Rattle.session_reader.specs.Faults.{draft_fault, place_fault};

use session_draft::{DraftFault, Section};
use stage_layout::LayoutFault;
use std::alloc::{AllocError, AllocFailed};
use txn_model::NoMemory;

/// A limit of sessions, in the order in which they're looked at.
#[derive(Clone, Copy, Debug, PartialEq, Eq)]
pub enum Limit {
    /// Stages: 1 to 12.
    Stages,
    /// Register arrays of a stage: 1 to 4.
    Arrays,
    /// Cells of a register array: 1 to 4,096.
    Cells,
    /// Stages of the left half: at most as many as there are stages.
    Split,
    /// Hosts: 1 to 8.
    Hosts,
    /// Tuples: at most 65,536.
    Tuples,
    /// Rows of the layout: at most 65,536.
    Layout,
    /// Tries: 1 to 16.
    Tries,
    /// Clients: at most 8.
    Clients,
    /// Items of all clients together: at most 4,096.
    Items,
    /// Operations of a script: 1 to 16.
    Ops,
    /// Needs of an operation: at most 4.
    Needs,
}

/// An operation of a session.
#[derive(Clone, Copy, Debug, PartialEq, Eq)]
pub struct OpAt {
    /// The client, counted from 0.
    pub client: u8,
    /// The item of the client, counted from 1.
    pub seq: u32,
    /// The operation of the item, counted from 0.
    pub op: u8,
}

/// Why bytes are no session: of several faults the first in this order, and of its places the first in
/// the text. Rows and words are counted from 0.
#[derive(Clone, Copy, Debug, PartialEq, Eq)]
pub enum SessionFault {
    /// They aren't UTF-8, or no JSON.
    NotJson,
    /// This section isn't as the grammar says.
    BadShape(Section),
    /// This limit isn't kept.
    OverLimit(Limit),
    /// This operation names a tuple that isn't there.
    BadTuple(OpAt),
    /// This row of the layout names a tuple that isn't there, or a place outside the switch.
    BadPlace(u32),
    /// This row of the layout repeats the tuple or the place of an earlier one.
    PlaceTwice(u32),
    /// This operation names the tuple of an earlier one of its script.
    TupleTwice(OpAt),
    /// This operation needs one that isn't earlier.
    BadUse(OpAt),
    /// This operation is on a hot tuple and needs a late one.
    BadTurn(OpAt),
    /// This word of the schedule is no actor of the session.
    BadActor(u64),
    /// Memory ran out.
    NoMemory,
}

impl From<NoMemory> for SessionFault {
    ghost from_gives = { λ _ fault. fault ≡ NoMemory };

    fn from(_error: NoMemory) -> SessionFault {
        SessionFault::NoMemory
    }
}

impl From<AllocError> for SessionFault {
    ghost from_gives = { λ _ fault. fault ≡ NoMemory };

    fn from(_error: AllocError) -> SessionFault {
        SessionFault::NoMemory
    }
}

impl<T: Drop> From<AllocFailed<T>> for SessionFault {
    ghost from_gives = { λ _ fault. fault ≡ NoMemory };

    fn from(_error: AllocFailed<T>) -> SessionFault {
        SessionFault::NoMemory
    }
}

impl From<DraftFault> for SessionFault {
    ghost from_gives = { λ cause fault. fault ≡ draft_fault cause };

    fn from(cause: DraftFault) -> SessionFault {
        match cause {
            DraftFault::NotJson => SessionFault::NotJson,
            DraftFault::BadShape(section) => SessionFault::BadShape(section),
            DraftFault::NoMemory => SessionFault::NoMemory,
        }
    }
}

impl From<LayoutFault> for SessionFault {
    ghost from_gives = { λ cause fault. fault ≡ place_fault cause };

    fn from(cause: LayoutFault) -> SessionFault {
        match cause {
            LayoutFault::BadPlace(row) => SessionFault::BadPlace(row),
            LayoutFault::PlaceTwice(row) => SessionFault::PlaceTwice(row),
            LayoutFault::NoMemory => SessionFault::NoMemory,
        }
    }
}
