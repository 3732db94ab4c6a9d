//! Refusals of locks.

use txn_model::TupleId;

/// A lock that was refused, and why.
#[derive(Clone, Copy, Debug, PartialEq, Eq)]
pub struct Refusal {
    pub client: u8,
    /// The number of the client's item, counted from 1.
    pub seq: u32,
    pub tuple: TupleId,
    /// The least client whose lock conflicted.
    pub holder: u8,
    /// How many moves were made before this one.
    pub at: u32,
}
