//! Stamps, by which the history of all transactions is ordered.

/// A logical time, after Lamport's clock. It is ordered by number, then by sub.
#[derive(Clone, Copy, Debug, PartialEq, Eq, PartialOrd, Ord)]
pub struct Stamp {
    /// The packet number that it stands at; 0 where none was met.
    pub number: u64,
    /// How many steps of cold transactions it is above that packet.
    pub sub: u32,
}

/// A cold tuple's value and stamp, as they are read under a lock.
#[derive(Clone, Copy, Debug, PartialEq, Eq)]
pub struct Seen {
    pub value: i64,
    pub stamp: Stamp,
}
