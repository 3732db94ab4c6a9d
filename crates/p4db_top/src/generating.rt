//! The command `gen`.

ghost use Rattle.std.specs.Prelude.{◌≡◌, ◌⊎◌, Ok, IfOk};
ghost use Rattle.port_io.specs.Cause.{Rose, HasCause};
ghost use Rattle.session_reader.specs.SessionOf.{session_of};
ghost use Rattle.session_text.specs.Canonical.{text_line};
ghost use Rattle.words_cli.specs.Ranges.{IsWork};
ghost use Rattle.p4db_top.specs.Loads.{ExplainsGen, load_plan};

use crate::loads::load_session;
use crate::note::Note;
use crate::written::print_text;
use port_io::Sink;
use session_text::write_session;
use std::alloc::Global;
use txn_model::NoMemory;
use words_cli::Work;

/// The command `gen`: prints the text of the session that is generated.
pub(crate) fn generate<K: Sink>(alloc: Global, sink: &mut K, work: Work) -> Note
    requires { IsWork work }
    ensures explained { ExplainsGen work result (K.content sink.old) (K.content sink.new) }
    ensures write_cause { HasCause (K.faults sink.old) (K.faults sink.new) (result ≡ Note.WriteFault) }

    // The text is printed, unless a write failed or memory ran out.
    ensures complete { (Rose (K.faults sink.old) (K.faults sink.new) → ⊥) → (result ≡ Note.Done) ⊎ (result ≡ Note.NoMemory) }
{
    let Ok(text) = load_text(alloc, &work) else {
        return Note::NoMemory;
    };
    print_text(alloc, sink, text.as_slice())
}

/// The canonical text of the session that is generated, and a newline.
fn load_text(alloc: Global, work: &Work) -> Result<Vec<u8>, NoMemory>
    requires { IsWork work.now }
    ensures text { IfOk result (λ text. text.items ≡ text_line (load_plan work.now)) }
    ensures reads_back { IfOk result (λ _. session_of (text_line (load_plan work.now)) ≡ Ok (load_plan work.now)) }
{
    let session = load_session(alloc, work)?;
    let mut text = write_session(alloc, &session)?;
    text.push(b'\n')?;
    Ok(text)
}
