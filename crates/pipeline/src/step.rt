//! What is answered to an entry and to a stage.

/// Whether a packet went on.
#[derive(Clone, Copy, Debug, PartialEq, Eq)]
pub enum Step {
    /// It did.
    Moved,
    /// Nothing could go on there, and nothing changed.
    Idle,
}
