//! Kinds of transactions.

/// Where the tuples of a transaction are kept.
#[derive(Clone, Copy, Debug, PartialEq, Eq)]
pub enum Kind {
    /// All in the switch.
    Hot,
    /// In the switch and on hosts.
    Warm,
    /// All on hosts.
    Cold,
}
