//! A session as its text says it.

ghost use Rattle.std.specs.Prelude.{IsTrue};
ghost use Rattle.std.specs.FinMap.{is_sorted};
ghost use Rattle.txn_model.specs.Tuples.{tuple_cmp};

use txn_model::{Act, Need, Place, TupleId};

/// The sizes of the switch, and the number of hosts.
///
/// Nothing ties one number to another; each is only in the range of its type.
#[derive(Clone, Copy, Debug, PartialEq, Eq)]
pub struct ShapeDraft {
    pub stages: u8,
    /// Arrays of each stage.
    pub arrays: u8,
    /// How many stages the left half has.
    pub split: u8,
    pub hosts: u8,
    /// Cells of each array.
    pub cells: u16,
}

/// One row of the layout: a hot tuple and its place.
#[derive(Clone, Copy, Debug, PartialEq, Eq)]
pub struct RowDraft {
    pub tuple: TupleId,
    pub place: Place,
}

/// One operation, with any number of needs. A read has none.
#[derive(Debug, PartialEq, Drop)]
pub struct OpDraft {
    pub tuple: TupleId,
    pub act: Act,
    pub needs: Vec<Need>,
}

/// One item of a client.
#[derive(Debug, PartialEq, Drop)]
pub enum ItemDraft {
    /// A script, with any number of operations.
    Run(Vec<OpDraft>),
    /// The switch is lost.
    Lose,
}

/// A whole session. Its lists are in the order of the text.
#[derive(Debug, PartialEq, Drop)]
pub struct Draft {
    pub shape: ShapeDraft,
    /// Each tuple's first value.
    pub tuples: Vec<(TupleId, i64)>,
    pub layout: Vec<RowDraft>,
    /// After how many refused tries an item is aborted.
    pub tries: u8,
    /// The items of each client.
    pub clients: Vec<Vec<ItemDraft>>,
    /// The words of actors, with single spaces between them.
    pub schedule: String,
    ghost ascending: { IsTrue (is_sorted tuple_cmp tuples.items) },
}
