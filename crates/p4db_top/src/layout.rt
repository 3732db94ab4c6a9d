//! The command `layout`.

ghost use Rattle.std.specs.Prelude.{◌≡◌, ◌≢◌, ◌≤◌, ◌⊎◌, ℕ, List, Some, Ok, Err, IfOk, length, string_bytes};
ghost use Rattle.port_io.specs.Cause.{Rose, HasCause};
ghost use Rattle.catalogue.specs.Plan.{Plan};
ghost use Rattle.catalogue.specs.PlanOf.{plan_of};
ghost use Rattle.catalogue.specs.Sound.{IsSound};
ghost use Rattle.session_reader.specs.SessionOf.{session_of};
ghost use Rattle.p4db_top.specs.Headline.{most_input};
ghost use Rattle.p4db_top.specs.Layouts.{cell_count, IsLayoutText};
ghost use Rattle.p4db_top.specs.Prints.{ExplainsPrint, Printed};

use crate::note::Note;
use crate::reading::session_of;
use crate::written::print_text;
use catalogue::Session;
use declust::spread;
use hot_set::pick;
use list_text::layout_text;
use port_io::{Sink, Source};
use session_reader::SessionFault;
use stage_layout::Shape;
use std::alloc::Global;
use txn_model::NoMemory;

/// The command `layout`: reads a session, and prints a layout of its `k` most used tuples.
pub(crate) fn layout<S: Source, K: Sink>(
    alloc: Global,
    source: &mut S,
    sink: &mut K,
    k: u32,
) -> Note
    ensures explained { ExplainsPrint (IsLayoutText k) result (S.left source.old) (S.left source.new) (K.content sink.old) (K.content sink.new) }
    ensures told { result ≢ Note.Session SessionFault.NoMemory }
    ensures read_cause { HasCause (S.faults source.old) (S.faults source.new) (result ≡ Note.ReadFault) }
    ensures write_cause { HasCause (K.faults sink.old) (K.faults sink.new) (result ≡ Note.WriteFault) }

    // The layout of a session within the limit is printed, unless a call failed or memory ran out.
    ensures complete { (bytes : List ℕ) (session : Plan) → S.left source.old ≡ Some bytes → length bytes ≤ most_input → session_of bytes ≡ Ok session
        → (Rose (S.faults source.old) (S.faults source.new) → ⊥) → (Rose (K.faults sink.old) (K.faults sink.new) → ⊥)
        → (result ≡ Note.Done) ⊎ (result ≡ Note.NoMemory) }
{
    match session_of(alloc, source) {
        Ok(session) => print_layout(alloc, &session, sink, k),
        Err(note) => note,
    }
}

/// Prints a layout of the `k` most used tuples of the session.
fn print_layout<K: Sink>(alloc: Global, session: &Session, sink: &mut K, k: u32) -> Note
    requires { IsSound (plan_of session.now) }
    ensures printed { Printed (IsLayoutText k) result (plan_of session.now) (K.content sink.old) (K.content sink.new) }
    ensures cause { HasCause (K.faults sink.old) (K.faults sink.new) (result ≡ Note.WriteFault) }
{
    let Ok(text) = text_of(alloc, session, k) else {
        return Note::NoMemory;
    };
    print_text(alloc, sink, text.as_bytes())
}

/// The text of a layout of the `k` most used tuples, or of as many as the switch has cells.
fn text_of(alloc: Global, session: &Session, k: u32) -> Result<String, NoMemory>
    requires { IsSound (plan_of session.now) }
    ensures { IfOk result (λ text. IsLayoutText k (plan_of session.now) (string_bytes text)) }
{
    let hot = pick(alloc, session, k.min(cell_count(&session.shape)))?;
    let layout = spread(alloc, session, &hot)?;
    layout_text(alloc, &layout)
}

/// How many cells all register arrays of the switch have.
fn cell_count(shape: &Shape) -> u32
    ensures { result ≡ cell_count shape.now }
{
    u32::from(shape.stages) * u32::from(shape.arrays) * u32::from(shape.cells)
}
