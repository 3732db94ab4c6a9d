//! What is printed of a run.

/// What is printed of a run that has come to its end.
#[derive(Clone, Copy, Debug, PartialEq, Eq)]
pub(crate) enum Output {
    /// Its report: each item, the history, the tuples and the trace.
    Report,
    /// Its summary: how many items ended in which way, how many moves there were, and the sum of all tuples.
    Summary,
}
