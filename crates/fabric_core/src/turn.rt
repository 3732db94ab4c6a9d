//! What calls of a world answer.

ghost use Rattle.std.specs.Prelude.{◌≡◌};
ghost use Rattle.fabric_core.specs.Taken.{end_with};
ghost use Rattle.fabric_core.specs.Turns.{end_of};

/// What became of an actor's turn.
#[derive(Clone, Copy, Debug, PartialEq, Eq)]
pub enum Turn {
    /// It made its move, and stands at the end of the trace.
    Moved,
    /// It can't move now, and nothing changed.
    Idle,
    /// The record of this client, whose turn it was, could not be appended to its log, or at recovery the log
    /// could not be read: the rack counted a failure. State and trace stay, and the world has stopped.
    LogFault(u8),
    /// At recovery the log of this client is the first that is not what the client wrote, from this place on.
    /// State and trace stay, and the world has stopped.
    LogChanged(u8, u64),
    /// No memory was left to append a record, or to recover. State, logs and trace stay.
    NoMemory,
}

/// How a run ended.
#[derive(Clone, Copy, Debug, PartialEq, Eq)]
pub enum End {
    /// No client has anything left to do.
    Finished,
    /// The world has stopped, since a record of this client could not be appended, or its log not be read.
    LogFault(u8),
    /// The world has stopped, since the log of this client is not what the client wrote, from this place on.
    LogChanged(u8, u64),
    /// No memory was left to append a record, or to recover. The turns before that stand, and the run can go
    /// on.
    NoMemory,
}

/// Why a world takes no more turns.
#[derive(Clone, Copy, Debug, PartialEq, Eq)]
pub enum Stop {
    /// A record of this client could not be appended, or its log could not be read at recovery.
    LogFault(u8),
    /// The log of this client was not what the client wrote, from this place on, when recovery compared it.
    LogChanged(u8, u64),
}

/// Why no world began.
#[derive(Clone, Copy, Debug, PartialEq, Eq)]
pub enum BeginFault {
    /// The log of this client could not be emptied: the rack counted a failure.
    LogFault(u8),
    /// Memory ran out, and the rack is as it was.
    NoMemory,
}

/// Why turns that were to be taken one after another end early.
#[derive(Clone, Copy, Debug, PartialEq, Eq)]
pub(crate) enum Halt {
    /// The world has stopped, since a record of this client could not be appended, or its log not be read.
    LogFault(u8),
    /// The world has stopped, since the log of this client has changed at this place.
    LogChanged(u8, u64),
    /// No memory was left to append a record, or to recover.
    NoMemory,
}

impl Stop {
    /// How a run ends of a world that has stopped so.
    pub(crate) fn end(self) -> End
        ensures { result ≡ end_of self }
    {
        match self {
            Stop::LogFault(client) => End::LogFault(client),
            Stop::LogChanged(client, at) => End::LogChanged(client, at),
        }
    }
}

impl Halt {
    /// How a run ends whose turns ended so.
    pub fn end(self) -> End
        ensures { result ≡ end_with self }
    {
        match self {
            Halt::LogFault(client) => End::LogFault(client),
            Halt::LogChanged(client, at) => End::LogChanged(client, at),
            Halt::NoMemory => End::NoMemory,
        }
    }
}
