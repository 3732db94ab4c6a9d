//! The command `hot`.

ghost use Rattle.std.specs.Prelude.{◌≡◌, ◌≢◌, ◌≤◌, ◌⊎◌, ℕ, List, Some, Ok, Err, length};
ghost use Rattle.port_io.specs.Cause.{Rose, HasCause};
ghost use Rattle.catalogue.specs.Plan.{Plan};
ghost use Rattle.catalogue.specs.PlanOf.{plan_of};
ghost use Rattle.catalogue.specs.Sound.{IsSound};
ghost use Rattle.session_reader.specs.SessionOf.{session_of};
ghost use Rattle.p4db_top.specs.Headline.{most_input};
ghost use Rattle.p4db_top.specs.Prints.{ExplainsPrint, Printed, IsHotText};

use crate::note::Note;
use crate::reading::session_of;
use crate::written::print_text;
use catalogue::Session;
use hot_set::pick;
use list_text::hot_text;
use port_io::{Sink, Source};
use session_reader::SessionFault;
use std::alloc::Global;

/// The command `hot`: reads a session, and prints its `k` most used tuples.
pub(crate) fn hot<S: Source, K: Sink>(alloc: Global, source: &mut S, sink: &mut K, k: u32) -> Note
    ensures explained { ExplainsPrint (IsHotText k) result (S.left source.old) (S.left source.new) (K.content sink.old) (K.content sink.new) }
    ensures told { result ≢ Note.Session SessionFault.NoMemory }
    ensures read_cause { HasCause (S.faults source.old) (S.faults source.new) (result ≡ Note.ReadFault) }
    ensures write_cause { HasCause (K.faults sink.old) (K.faults sink.new) (result ≡ Note.WriteFault) }

    // The list of a session within the limit is printed, unless a call failed or memory ran out.
    ensures complete { (bytes : List ℕ) (session : Plan) → S.left source.old ≡ Some bytes → length bytes ≤ most_input → session_of bytes ≡ Ok session
        → (Rose (S.faults source.old) (S.faults source.new) → ⊥) → (Rose (K.faults sink.old) (K.faults sink.new) → ⊥)
        → (result ≡ Note.Done) ⊎ (result ≡ Note.NoMemory) }
{
    match session_of(alloc, source) {
        Ok(session) => print_hot(alloc, &session, sink, k),
        Err(note) => note,
    }
}

/// Prints the `k` most used tuples of the session.
fn print_hot<K: Sink>(alloc: Global, session: &Session, sink: &mut K, k: u32) -> Note
    requires { IsSound (plan_of session.now) }
    ensures printed { Printed (IsHotText k) result (plan_of session.now) (K.content sink.old) (K.content sink.new) }
    ensures cause { HasCause (K.faults sink.old) (K.faults sink.new) (result ≡ Note.WriteFault) }
{
    let Ok(list) = pick(alloc, session, k) else {
        return Note::NoMemory;
    };
    let Ok(text) = hot_text(alloc, &list) else {
        return Note::NoMemory;
    };
    print_text(alloc, sink, text.as_bytes())
}
