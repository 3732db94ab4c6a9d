//! The command `recover`.

ghost use Rattle.std.specs.Prelude.{◌≡◌, ◌≢◌, ◌≤◌, ◌⊎◌, ℕ, List, Some, Ok, length};
ghost use Rattle.port_io.specs.Cause.{Rose, HasCause};
ghost use Rattle.port_io.specs.LogRack.{AllStay};
ghost use Rattle.catalogue.specs.Plan.{Plan};
ghost use Rattle.catalogue.specs.PlanOf.{plan_of};
ghost use Rattle.report_text.specs.Recovered.{recovered_text, recovery_of};
ghost use Rattle.session_reader.specs.SessionOf.{session_of};
ghost use Rattle.fabric_core.specs.Racks.{seen};
ghost use Rattle.p4db_top.specs.Headline.{most_input};
ghost use Rattle.p4db_top.specs.Logs.{HasLogCause, IsOfNoRun};
ghost use Rattle.p4db_top.specs.Prints.{Written};
ghost use Rattle.p4db_top.specs.Recovering.{CanRecover, EndsRecovery, ExplainsRecovery, note_of};

use crate::note::Note;
use crate::reading::session_of;
use catalogue::Session;
use port_io::{LogRack, Sink, SinkFault, Source};
use report_text::write_recovered;
use session_reader::SessionFault;
use std::alloc::Global;
use switch_recovery::{Recovered, RecoveryFault, recover};

/// The command `recover`: reads a session and the logs of its clients, prints the order that they tell, and hands
/// the logs back.
pub(crate) fn recover_session<S: Source, K: Sink, L: LogRack>(
    alloc: Global,
    source: &mut S,
    sink: &mut K,
    rack: L,
) -> (Note, L)
    ensures explained { ExplainsRecovery result.0 (S.left source.old) (S.left source.new) (K.content sink.old) (K.content sink.new)
        (seen (L.told rack) (L.keeps rack) (L.faults rack)) (seen (L.told result.1) (L.keeps result.1) (L.faults result.1)) }
    ensures told { result.0 ≢ Note.Session SessionFault.NoMemory }
    ensures read_cause { HasCause (S.faults source.old) (S.faults source.new) (result.0 ≡ Note.ReadFault) }
    ensures write_cause { HasCause (K.faults sink.old) (K.faults sink.new) (result.0 ≡ Note.WriteFault) }
    ensures log_cause { HasLogCause (L.faults rack) (L.faults result.1) result.0 }
    ensures untouched { IsOfNoRun result.0 → result.1 ≡ rack }
    ensures stays { (c : ℕ) → L.told result.1 c ≡ L.told rack c }

    // The logs of a session are recovered where they tell an order, unless a call failed or memory ran out.
    ensures complete { (bytes : List ℕ) (session : Plan) → S.left source.old ≡ Some bytes → length bytes ≤ most_input
        → session_of bytes ≡ Ok session → (Rose (L.faults rack) (L.faults result.1) → ⊥) → CanRecover session (seen (L.told rack) (L.keeps rack) (L.faults rack))
        → (Rose (S.faults source.old) (S.faults source.new) → ⊥) → (Rose (K.faults sink.old) (K.faults sink.new) → ⊥)
        → (result.0 ≡ Note.Done) ⊎ (result.0 ≡ Note.NoMemory) }
{
    let mut rack = rack;
    match session_of(alloc, source) {
        Ok(session) => {
            let note = recover_logs(alloc, &mut rack, &session, sink);
            (note, rack)
        }
        Err(note) => (note, rack),
    }
}

/// Recovers the session's logs, and prints the order that they tell.
fn recover_logs<K: Sink, L: LogRack>(
    alloc: Global,
    rack: &mut L,
    session: &Session,
    sink: &mut K,
) -> Note
    ensures ends { EndsRecovery result (plan_of session.now) (seen (L.told rack.old) (L.keeps rack.old) (L.faults rack.old)) (K.content sink.old) (K.content sink.new) }
    ensures write_cause { HasCause (K.faults sink.old) (K.faults sink.new) (result ≡ Note.WriteFault) }
    ensures log_cause { HasLogCause (L.faults rack.old) (L.faults rack.new) result }
    ensures stays { AllStay (L.told rack.old) (L.told rack.new) }
{
    match recover(alloc, rack, session) {
        Ok(recovered) => print_recovered(alloc, &recovered, session, sink),
        Err(fault) => note_of(fault),
    }
}

/// Prints what was recovered.
fn print_recovered<K: Sink>(
    alloc: Global,
    recovered: &Recovered,
    session: &Session,
    sink: &mut K,
) -> Note
    ensures written { Written result (recovered_text (recovery_of (plan_of session.now) recovered.now)) (K.content sink.old) (K.content sink.new) }
    ensures cause { HasCause (K.faults sink.old) (K.faults sink.new) (result ≡ Note.WriteFault) }
{
    match write_recovered(alloc, recovered, session, sink) {
        Ok(()) => Note::Done,
        Err(SinkFault::Failed) => Note::WriteFault,
        Err(SinkFault::NoMemory) => Note::NoMemory,
    }
}

/// The note of a fault of recovery.
fn note_of(fault: RecoveryFault) -> Note
    ensures { result ≡ note_of fault }
{
    match fault {
        RecoveryFault::LogFailed(client) => Note::LogFault(client),
        RecoveryFault::LogTooLong(client) => Note::LogTooLong(client),
        RecoveryFault::LogDamaged(client, at) => Note::LogDamaged(client, at),
        RecoveryFault::BadIntent(client, seq) => Note::BadIntent(client, seq),
        RecoveryFault::NoOrder => Note::NoOrder,
        RecoveryFault::NoMemory => Note::NoMemory,
    }
}
