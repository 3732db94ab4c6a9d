//! How a call of the program ended.

ghost use Rattle.std.specs.Prelude.{◌≡◌, ◌++◌, Some, codes, decimal};
ghost use Rattle.std.specs.Fmt.{DisplaysOnOk};
ghost use Rattle.p4db_top.specs.Status.{op_text, section_word, limit_word};

use session_reader::{Limit, OpAt, Section, SessionFault};
use std::fmt;

/// What the program has to say of a call, on one line of standard error unless all went well.
#[derive(Clone, Copy, Debug, PartialEq, Eq)]
pub enum Note {
    /// The whole output was written.
    Done,
    /// The words are no command.
    Usage,
    /// A read of the source failed.
    ReadFault,
    /// There were more bytes than 16,777,216.
    InputTooLong,
    /// A write to the sink failed; a front of the output stands.
    WriteFault,
    /// The text is that of no session.
    Session(SessionFault),
    /// The log of this client failed: it could not be emptied or read, or a record could not be appended to it.
    LogFault(u8),
    /// When the switch was to be recovered in a run, the log of this client was not what the run had written:
    /// it differs first at this place, counted from 0.
    LogChanged(u8, u64),
    /// The log of this client that is to be recovered is damaged at this place, counted from 0.
    LogDamaged(u8, u64),
    /// The log of this client that is to be recovered is longer than 16,777,216 bytes.
    LogTooLong(u8),
    /// In the log of this client that is to be recovered, the intent of this item names a place outside the
    /// layout.
    BadIntent(u8, u32),
    /// The logs that are to be recovered fit no order of their packets.
    NoOrder,
    /// Memory ran out.
    NoMemory,
}

impl Note {
    ghost use Rattle.p4db_top.specs.Status.{status_of};

    /// The exit status: 0, or 2 to 9.
    pub fn status(self) -> u8
        ensures { result ≡ status_of self }
    {
        match self {
            Note::Done => 0,
            Note::Usage => 2,
            Note::ReadFault | Note::InputTooLong => 3,
            Note::WriteFault => 4,
            Note::Session(_) => 5,
            Note::LogFault(_) => 6,
            Note::LogChanged(..)
            | Note::LogDamaged(..)
            | Note::LogTooLong(_)
            | Note::BadIntent(..) => 7,
            Note::NoOrder => 8,
            Note::NoMemory => 9,
        }
    }
}

/// The line on standard error, with the newline that ends it; nothing where all went well.
impl fmt::Display for Note {
    ghost use Rattle.std.specs.Prelude.{Some};
    ghost use Rattle.p4db_top.specs.Status.{line_of};

    ghost output = { λ note. Some (line_of note) };

    fn fmt<W: fmt::Write>(&self, f: &mut fmt::Formatter<W>) -> fmt::Result {
        match *self {
            Note::Done => Ok(()),
            Note::Usage => {
                f.write_str("p4db: usage: p4db run, race, recover, hot, layout, gen or drive\n")
            }
            Note::ReadFault => f.write_str("p4db: read failed\n"),
            Note::InputTooLong => f.write_str("p4db: input longer than 16777216 bytes\n"),
            Note::WriteFault => f.write_str("p4db: write failed\n"),
            Note::Session(fault) => {
                let text = FaultText(fault);
                write!(f, "p4db: session fault {text}\n")
            }
            Note::LogFault(client) => write_log(f, client, " failed\n"),
            Note::LogChanged(client, at) => write_place(f, client, " changed at ", at),
            Note::LogDamaged(client, at) => write_place(f, client, " damaged at ", at),
            Note::LogTooLong(client) => write_log(f, client, " longer than 16777216 bytes\n"),
            Note::BadIntent(client, seq) => write_bad_intent(f, client, seq),
            Note::NoOrder => f.write_str("p4db: no order fits the logs\n"),
            Note::NoMemory => f.write_str("p4db: out of memory\n"),
        }
    }
}

/// A fault's number, name and place.
#[derive(Clone, Copy)]
struct FaultText(SessionFault);

impl fmt::Display for FaultText {
    ghost use Rattle.std.specs.Prelude.{Some};
    ghost use Rattle.p4db_top.specs.Status.{fault_text};

    ghost output = { λ text. Some (fault_text text.0) };

    fn fmt<W: fmt::Write>(&self, f: &mut fmt::Formatter<W>) -> fmt::Result {
        match self.0 {
            SessionFault::NotJson => f.write_str("1 NotJson"),
            SessionFault::BadShape(section) => {
                let word = section_word(section);
                write!(f, "2 BadShape {word}")
            }
            SessionFault::OverLimit(limit) => {
                let word = limit_word(limit);
                write!(f, "3 OverLimit {word}")
            }
            SessionFault::BadTuple(at) => write_at(f, "4 BadTuple ", at),
            SessionFault::BadPlace(row) => write!(f, "5 BadPlace row {row}"),
            SessionFault::PlaceTwice(row) => write!(f, "6 PlaceTwice row {row}"),
            SessionFault::TupleTwice(at) => write_at(f, "7 TupleTwice ", at),
            SessionFault::BadUse(at) => write_at(f, "8 BadUse ", at),
            SessionFault::BadTurn(at) => write_at(f, "9 BadTurn ", at),
            SessionFault::BadActor(word) => write!(f, "10 BadActor word {word}"),
            SessionFault::NoMemory => f.write_str("out of memory"),
        }
    }
}

/// Writes a name and the place of an operation.
fn write_at<W: fmt::Write>(f: &mut fmt::Formatter<W>, name: &str, at: OpAt) -> fmt::Result
    ensures { DisplaysOnOk W.write_str_gives f.old result (Some (name.now ++ op_text at)) f.new }
{
    let OpAt { client, seq, op } = at;
    write!(f, "{name}c{client} {seq} op{op}")
}

/// Writes what is said of the log of a client.
fn write_log<W: fmt::Write>(f: &mut fmt::Formatter<W>, client: u8, what: &str) -> fmt::Result
    ensures { DisplaysOnOk W.write_str_gives f.old result (Some (codes "p4db: log of c" ++ decimal client ++ what.now)) f.new }
{
    write!(f, "p4db: log of c{client}{what}")
}

/// Writes what is said of a place in the log of a client.
fn write_place<W: fmt::Write>(
    f: &mut fmt::Formatter<W>,
    client: u8,
    what: &str,
    at: u64,
) -> fmt::Result
    ensures { DisplaysOnOk W.write_str_gives f.old result (Some (codes "p4db: log of c" ++ decimal client ++ what.now ++ decimal at ++ codes "\n")) f.new }
{
    write!(f, "p4db: log of c{client}{what}{at}\n")
}

/// Writes what is said of a bad intent.
fn write_bad_intent<W: fmt::Write>(f: &mut fmt::Formatter<W>, client: u8, seq: u32) -> fmt::Result
    ensures { DisplaysOnOk W.write_str_gives f.old result (Some (codes "p4db: log of c" ++ decimal client ++ codes " item " ++ decimal seq ++ codes " names a place outside the layout\n")) f.new }
{
    let what = " names a place outside the layout\n";
    write!(f, "p4db: log of c{client} item {seq}{what}")
}

/// A section's word in messages.
fn section_word(section: Section) -> &'static str
    ensures { result.now ≡ section_word section }
{
    match section {
        Section::Whole => "whole",
        Section::Shape => "shape",
        Section::Tuples => "tuples",
        Section::Layout => "layout",
        Section::Tries => "tries",
        Section::Clients => "clients",
        Section::Schedule => "schedule",
    }
}

/// A limit's word in messages.
fn limit_word(limit: Limit) -> &'static str
    ensures { result.now ≡ limit_word limit }
{
    match limit {
        Limit::Stages => "stages",
        Limit::Arrays => "arrays",
        Limit::Cells => "cells",
        Limit::Split => "split",
        Limit::Hosts => "hosts",
        Limit::Tuples => "tuples",
        Limit::Layout => "layout",
        Limit::Tries => "tries",
        Limit::Clients => "clients",
        Limit::Items => "items",
        Limit::Ops => "ops",
        Limit::Needs => "needs",
    }
}
