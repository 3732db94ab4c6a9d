//! Entries of a history.

use txn_model::Stamp;

/// One item of a client in the history. Histories are ordered by stamp, then client.
#[derive(Clone, Copy, Debug, PartialEq, Eq, PartialOrd, Ord)]
pub struct Entry {
    pub stamp: Stamp,
    pub client: u8,
    /// The number of the client's item, counted from 1.
    pub seq: u32,
}

impl Entry {
    ghost use Rattle.std.specs.Prelude.{◌≡◌, ◌↔◌, IsTrue};
    ghost use Rattle.std.specs.declared.cmp.Ordering.TheVariants.{Less};
    ghost use Rattle.history_model.specs.History.{entry_cmp};

    /// Whether it stands before the other one in a history: by stamp, then client.
    pub fn stands_before(&self, other: &Entry) -> bool
        ensures { IsTrue result ↔ (entry_cmp self.now other.now ≡ Less) }
    {
        (self.stamp, self.client) < (other.stamp, other.client)
    }
}
