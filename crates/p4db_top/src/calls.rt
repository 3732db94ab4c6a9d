//! The top calls.

ghost use Rattle.std.specs.Prelude.{◌≡◌, ◌≢◌, ◌≤◌, ℕ, List, ◌⊎◌, Some, None, Ok, length};
ghost use Rattle.port_io.specs.Cause.{Rose, HasCause};
ghost use Rattle.catalogue.specs.Plan.{Plan};
ghost use Rattle.session_reader.specs.SessionOf.{session_of};
ghost use Rattle.fabric_core.specs.Racks.{seen};
ghost use Rattle.words_cli.specs.Table.{command_of};
ghost use Rattle.words_cli.specs.declared.command.Command.{Command};
ghost use Rattle.p4db_top.specs.Commands.{CanDo, CanGenerate, ExplainsWords, IsRace, Promises, ReadsNothing, TouchesLogs};
ghost use Rattle.p4db_top.specs.Headline.{most_input};
ghost use Rattle.p4db_top.specs.Logs.{HasLogCause, IsOfNoRun};
ghost use Rattle.p4db_top.specs.Status.{status_of};

use crate::note::Note;
use crate::obeying::obey;
use crate::racing::race_session;
use client_gate::Gate;
use port_io::{LogRack, Sink, Source, Word};
use session_reader::SessionFault;
use std::alloc::Global;
use std::marker::{Send, Sync};
use std::sync::Wait;
use std::thread::Threads;
use words_cli::{Command, WordFault, command_of};

/// How a call of the program ended, and the logs that it was given.
#[derive(Debug, Drop)]
pub struct Ended<L> {
    pub status: u8,
    pub note: Note,
    pub logs: L,
}

/// What is told of a call that ended so.
fn end_of<L>(end: (Note, L)) -> Ended<L>
    ensures { result ≡ record { status = status_of end.0; note = end.0; logs = end.1 } }
{
    let (note, logs) = end;
    Ended {
        status: note.status(),
        note,
        logs,
    }
}

/// Why words were no command.
fn note_of(fault: WordFault) -> Note
    ensures usage { result ≡ Note.Usage → fault ≡ WordFault.Usage }
    ensures either { (result ≡ Note.Usage) ⊎ (result ≡ Note.NoMemory) }
{
    match fault {
        WordFault::Usage => Note::Usage,
        WordFault::NoMemory => Note::NoMemory,
    }
}

/// Does what the words say, and tells how it ended.
///
/// `run` reads a session from the source, empties the logs of the session's clients, runs it, with each
/// record in its client's log before the client moves, and writes its report to the sink, in one piece. Its
/// actors are those of the session's schedule, or drawn ones. `recover` reads a session and the logs, and
/// writes the order that they tell. `hot K` and `layout K` read a session and write the list of its K most
/// used tuples, and a layout of them; they touch no log. `gen` writes the text of a session that it generates,
/// and touches no log; `drive` runs such a session as `run` does, by drawn actors, and writes its summary. Both
/// leave the source as it is. The words are none of `race`: that is `top`'s.
///
/// Status 0 says that the output was written, and for `run` and `drive` that the headline holds. The other statuses:
/// 2 `Usage` exactly where the words are no command; 3 `ReadFault` only where the source's count of
/// failures rose, and `InputTooLong` exactly where a byte beyond 16,777,216 was read; 4 `WriteFault` only
/// where the sink's count rose; 5 exactly by the bytes, after the source was read to its end; 6 `LogFault`
/// only where the rack's count rose; 7 where a log was changed beside a run that recovers from it, and where
/// one that `recover` reads is damaged, too long or names a place outside the layout; 8 where no order fits
/// the logs that it reads; 9 where memory ran out, maybe before the words were read. A status other than 0,
/// 4 and 9 leaves the sink as it was; after 4 and 9 a front of the output stands. Statuses 2, 3 and 5 leave
/// the logs as they were. Where the rack kept, the logs hold the records of the turns that moved, after 6
/// perhaps with a front of one record more.
pub fn command<S: Source, K: Sink, L: LogRack + Send>(
    alloc: Global,
    words: &[Word],
    source: &mut S,
    sink: &mut K,
    logs: L,
) -> Ended<L>
    requires alone { (command : Command) → command_of words.now ≡ Some command → IsRace command → ⊥ }
    ensures status { result.status ≡ status_of result.note }
    ensures promised { (command : Command) → command_of words.now ≡ Some command → result.status ≡ 0
        → Promises command (S.left source.old) (S.left source.new) (K.content sink.old) (K.content sink.new)
        (seen (L.told logs) (L.keeps logs) (L.faults logs)) (seen (L.told result.logs) (L.keeps result.logs) (L.faults result.logs)) }

    // The words decide between the usage fault, which touches nothing, and a command.
    ensures usage { result.note ≡ Note.Usage → command_of words.now ≡ None }
    ensures untouched { command_of words.now ≡ None → (source.new ≡ source.old) × (sink.new ≡ sink.old) × (result.logs ≡ logs) }
    ensures explained { ExplainsWords (command_of words.now) result.note (S.left source.old) (S.left source.new) (K.content sink.old) (K.content sink.new)
        (seen (L.told logs) (L.keeps logs) (L.faults logs)) (seen (L.told result.logs) (L.keeps result.logs) (L.faults result.logs)) }

    // A session that is generated is not read.
    ensures unread { (command : Command) → command_of words.now ≡ Some command → ReadsNothing command → source.new ≡ source.old }

    // Where nothing was run, the logs are those that were handed in.
    ensures logs { IsOfNoRun result.note → result.logs ≡ logs }
    ensures lists { (command : Command) → command_of words.now ≡ Some command → (TouchesLogs command → ⊥) → result.logs ≡ logs }

    // Recovery reads the logs, and what they tell stays.
    ensures recovers { command_of words.now ≡ Some Command.Recover → (c : ℕ) → L.told result.logs c ≡ L.told logs c }

    // Want of memory is a note of its own.
    ensures told { result.note ≢ Note.Session SessionFault.NoMemory }

    // Each failure has its cause, and a count that rose is told as a failure.
    ensures read_cause { HasCause (S.faults source.old) (S.faults source.new) (result.note ≡ Note.ReadFault) }
    ensures write_cause { HasCause (K.faults sink.old) (K.faults sink.new) (result.note ≡ Note.WriteFault) }
    ensures log_cause { HasLogCause (L.faults logs) (L.faults result.logs) result.note }

    // What the words say is done with a session within the limit, unless a call failed or memory ran out.
    ensures complete { (bytes : List ℕ) (session : Plan) (command : Command) → command_of words.now ≡ Some command
        → S.left source.old ≡ Some bytes → length bytes ≤ most_input → session_of bytes ≡ Ok session
        → CanDo command session (seen (L.told logs) (L.keeps logs) (L.faults logs)) (seen (L.told result.logs) (L.keeps result.logs) (L.faults result.logs))
        → (Rose (S.faults source.old) (S.faults source.new) → ⊥) → (Rose (K.faults sink.old) (K.faults sink.new) → ⊥)
        → (result.note ≡ Note.Done) ⊎ (result.note ≡ Note.NoMemory) }

    // So is it with a session that is generated.
    ensures loads { (command : Command) → command_of words.now ≡ Some command
        → CanGenerate command (seen (L.told logs) (L.keeps logs) (L.faults logs)) (seen (L.told result.logs) (L.keeps result.logs) (L.faults result.logs))
        → (Rose (K.faults sink.old) (K.faults sink.new) → ⊥) → (result.note ≡ Note.Done) ⊎ (result.note ≡ Note.NoMemory) }
{
    match command_of(alloc, words) {
        Ok(command) => end_of(obey(alloc, command, source, sink, logs)),
        Err(fault) => end_of((note_of(fault), logs)),
    }
}

/// Does what the words say, and tells how it ended: all that `command` does, and `race`.
///
/// `race --threads N` does what `run` does, but so many threads take the turns, each of which passes the gate
/// before it; the trace is in the order in which they did. All that is promised of `run` is promised of it,
/// with the trace that was raced in place of the driven one, if the call returns: threads wait for each other.
pub fn top<R: Threads + Wait + Sync, S: Source, K: Sink, L: LogRack + Send, G: Gate + Sync>(
    rt: &R,
    alloc: Global,
    words: &[Word],
    source: &mut S,
    sink: &mut K,
    logs: L,
    gate: &G,
) -> Ended<L>
    ensures status { result.status ≡ status_of result.note }
    ensures promised { (command : Command) → command_of words.now ≡ Some command → result.status ≡ 0
        → Promises command (S.left source.old) (S.left source.new) (K.content sink.old) (K.content sink.new)
        (seen (L.told logs) (L.keeps logs) (L.faults logs)) (seen (L.told result.logs) (L.keeps result.logs) (L.faults result.logs)) }

    // The words decide between the usage fault, which touches nothing, and a command.
    ensures usage { result.note ≡ Note.Usage → command_of words.now ≡ None }
    ensures untouched { command_of words.now ≡ None → (source.new ≡ source.old) × (sink.new ≡ sink.old) × (result.logs ≡ logs) }
    ensures explained { ExplainsWords (command_of words.now) result.note (S.left source.old) (S.left source.new) (K.content sink.old) (K.content sink.new)
        (seen (L.told logs) (L.keeps logs) (L.faults logs)) (seen (L.told result.logs) (L.keeps result.logs) (L.faults result.logs)) }

    // A session that is generated is not read.
    ensures unread { (command : Command) → command_of words.now ≡ Some command → ReadsNothing command → source.new ≡ source.old }

    // Where nothing was run, the logs are those that were handed in.
    ensures logs { IsOfNoRun result.note → result.logs ≡ logs }
    ensures lists { (command : Command) → command_of words.now ≡ Some command → (TouchesLogs command → ⊥) → result.logs ≡ logs }

    // Recovery reads the logs, and what they tell stays.
    ensures recovers { command_of words.now ≡ Some Command.Recover → (c : ℕ) → L.told result.logs c ≡ L.told logs c }

    // Want of memory is a note of its own.
    ensures told { result.note ≢ Note.Session SessionFault.NoMemory }

    // Each failure has its cause, and a count that rose is told as a failure.
    ensures read_cause { HasCause (S.faults source.old) (S.faults source.new) (result.note ≡ Note.ReadFault) }
    ensures write_cause { HasCause (K.faults sink.old) (K.faults sink.new) (result.note ≡ Note.WriteFault) }
    ensures log_cause { HasLogCause (L.faults logs) (L.faults result.logs) result.note }

    // What the words say is done with a session within the limit, unless a call failed or memory ran out.
    ensures complete { (bytes : List ℕ) (session : Plan) (command : Command) → command_of words.now ≡ Some command
        → S.left source.old ≡ Some bytes → length bytes ≤ most_input → session_of bytes ≡ Ok session
        → CanDo command session (seen (L.told logs) (L.keeps logs) (L.faults logs)) (seen (L.told result.logs) (L.keeps result.logs) (L.faults result.logs))
        → (Rose (S.faults source.old) (S.faults source.new) → ⊥) → (Rose (K.faults sink.old) (K.faults sink.new) → ⊥)
        → (result.note ≡ Note.Done) ⊎ (result.note ≡ Note.NoMemory) }

    // So is it with a session that is generated.
    ensures loads { (command : Command) → command_of words.now ≡ Some command
        → CanGenerate command (seen (L.told logs) (L.keeps logs) (L.faults logs)) (seen (L.told result.logs) (L.keeps result.logs) (L.faults result.logs))
        → (Rose (K.faults sink.old) (K.faults sink.new) → ⊥) → (result.note ≡ Note.Done) ⊎ (result.note ≡ Note.NoMemory) }
{
    match command_of(alloc, words) {
        Ok(Command::Race { threads }) => {
            end_of(race_session(rt, alloc, source, sink, logs, threads, gate))
        }
        Ok(command) => end_of(obey(alloc, command, source, sink, logs)),
        Err(fault) => end_of((note_of(fault), logs)),
    }
}
