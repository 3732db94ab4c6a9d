//! How items end.

use txn_model::Stamp;

/// How an item of a client has ended.
#[derive(Clone, Copy, Debug, PartialEq, Eq)]
pub enum ItemEnd {
    /// It hasn't.
    Pending,
    /// It has an answered entry in the history, with this stamp.
    Committed(Stamp),
    /// All its tries were refused a lock.
    Aborted,
    /// It was the loss of the switch.
    Lost,
}
