//! Commands, and what does them.

ghost use Rattle.std.specs.Prelude.{◌≡◌, ◌≢◌, ◌≤◌, ◌⊎◌, ℕ, List, Some, Ok, length};
ghost use Rattle.port_io.specs.Cause.{Rose, HasCause};
ghost use Rattle.catalogue.specs.Plan.{Plan};
ghost use Rattle.session_reader.specs.SessionOf.{session_of};
ghost use Rattle.words_cli.specs.Ranges.{InRange};
ghost use Rattle.fabric_core.specs.Racks.{seen};
ghost use Rattle.p4db_top.specs.Commands.{CanDo, CanGenerate, ExplainsBy, IsRace, ReadsNothing, TouchesLogs};
ghost use Rattle.p4db_top.specs.Headline.{most_input};
ghost use Rattle.p4db_top.specs.Logs.{HasLogCause, IsOfNoRun};

use crate::driving::drive;
use crate::generating::generate;
use crate::hot::hot;
use crate::layout::layout;
use crate::note::Note;
use crate::recovering::recover_session;
use crate::running::run;
use port_io::{LogRack, Sink, Source};
use session_reader::SessionFault;
use std::alloc::Global;
use words_cli::Command;

/// Does what the command says, which is none that waits for threads, and hands the logs back.
pub(crate) fn obey<S: Source, K: Sink, L: LogRack>(
    alloc: Global,
    command: Command,
    source: &mut S,
    sink: &mut K,
    rack: L,
) -> (Note, L)
    requires range { InRange command }
    requires alone { IsRace command → ⊥ }
    ensures explained { ExplainsBy command result.0 (S.left source.old) (S.left source.new) (K.content sink.old) (K.content sink.new)
        (seen (L.told rack) (L.keeps rack) (L.faults rack)) (seen (L.told result.1) (L.keeps result.1) (L.faults result.1)) }
    ensures told { result.0 ≢ Note.Session SessionFault.NoMemory }
    ensures read_cause { HasCause (S.faults source.old) (S.faults source.new) (result.0 ≡ Note.ReadFault) }
    ensures write_cause { HasCause (K.faults sink.old) (K.faults sink.new) (result.0 ≡ Note.WriteFault) }
    ensures log_cause { HasLogCause (L.faults rack) (L.faults result.1) result.0 }
    ensures untouched { IsOfNoRun result.0 → result.1 ≡ rack }
    ensures unread { ReadsNothing command → source.new ≡ source.old }
    ensures lists { (TouchesLogs command → ⊥) → result.1 ≡ rack }
    ensures recovers { command ≡ Command.Recover → (c : ℕ) → L.told result.1 c ≡ L.told rack c }
    ensures complete { (bytes : List ℕ) (session : Plan) → S.left source.old ≡ Some bytes → length bytes ≤ most_input
        → session_of bytes ≡ Ok session → CanDo command session (seen (L.told rack) (L.keeps rack) (L.faults rack)) (seen (L.told result.1) (L.keeps result.1) (L.faults result.1))
        → (Rose (S.faults source.old) (S.faults source.new) → ⊥) → (Rose (K.faults sink.old) (K.faults sink.new) → ⊥)
        → (result.0 ≡ Note.Done) ⊎ (result.0 ≡ Note.NoMemory) }
    ensures loads { CanGenerate command (seen (L.told rack) (L.keeps rack) (L.faults rack)) (seen (L.told result.1) (L.keeps result.1) (L.faults result.1))
        → (Rose (K.faults sink.old) (K.faults sink.new) → ⊥) → (result.0 ≡ Note.Done) ⊎ (result.0 ≡ Note.NoMemory) }
{
    match command {
        Command::Run { draws } => run(alloc, source, sink, rack, draws),
        Command::Race { .. } => unreachable!(),
        Command::Recover => recover_session(alloc, source, sink, rack),
        Command::Hot { k } => (hot(alloc, source, sink, k), rack),
        Command::Layout { k } => (layout(alloc, source, sink, k), rack),
        Command::Gen(work) => (generate(alloc, sink, work), rack),
        Command::Drive(work) => drive(alloc, sink, rack, work),
    }
}
