//! Phases of a client.

/// What a client is about to do.
#[derive(Clone, Copy, Debug, PartialEq, Eq)]
pub enum Phase {
    /// Begin its present item.
    Ready,
    /// Ask for its next lock, or decide.
    Locking,
    /// Release the lock that it took last.
    Aborting,
    /// Post the packet that its log has.
    Logged,
    /// Wait for the answer to its packet.
    Waiting,
    /// Install its next value and release the lock.
    Installing,
    /// Nothing: all its items have ended.
    Finished,
}
