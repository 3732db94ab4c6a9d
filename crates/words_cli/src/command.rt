//! The commands of the program.

use catalogue::{BankPlan, YcsbPlan};

/// A command, as the words name it.
#[derive(Clone, Copy, Debug, PartialEq, Eq)]
pub enum Command {
    /// `run`: runs a session and prints its report.
    Run {
        /// What the schedule is drawn from; the session's own where there is nothing.
        draws: Option<Draws>,
    },
    /// `race`: runs a session on threads and prints its report.
    Race {
        /// How many threads, 1 to 8.
        threads: u8,
    },
    /// `recover`: prints the order and the registers that the logs tell.
    Recover,
    /// `hot K`: prints the most used tuples of a session.
    Hot {
        /// How many tuples at most, 0 to 65,536.
        k: u32,
    },
    /// `layout K`: prints a layout of the most used tuples of a session.
    Layout {
        /// How many tuples at most, 0 to 65,536.
        k: u32,
    },
    /// `gen`: prints the session that the load is.
    Gen(Work),
    /// `drive`: runs the session that the load is and prints its report.
    Drive(Work),
}

/// A load, by what its session is generated from.
#[derive(Clone, Copy, Debug, PartialEq, Eq)]
pub enum Work {
    /// `smallbank`: transactions over the accounts of customers.
    SmallBank(BankPlan),
    /// `ycsb`: reads and writes of records.
    Ycsb(YcsbPlan),
}

/// What a schedule is drawn from.
#[derive(Clone, Copy, Debug, PartialEq, Eq)]
pub struct Draws {
    /// How many actors are drawn, 0 to 1,000,000.
    pub count: u32,
    /// Seeds the generator.
    pub number: u64,
}

/// Why words are no command.
#[derive(Clone, Copy, Debug, PartialEq, Eq)]
pub enum WordFault {
    /// The words are no command.
    Usage,
    /// Memory ran out.
    NoMemory,
}
