//! Writing a text to the sink.

ghost use Rattle.std.specs.Prelude.{◌≡◌};
ghost use Rattle.port_io.specs.Cause.{HasCause};
ghost use Rattle.p4db_top.specs.Prints.{Written};

use crate::note::Note;
use port_io::{Sink, SinkFault, write_all};
use std::alloc::Global;

/// Writes a text, and tells how that ended. Not all of it may have been written unless the note is `Done`.
pub(crate) fn print_text<K: Sink>(alloc: Global, sink: &mut K, text: &[u8]) -> Note
    ensures written { Written result text.now (K.content sink.old) (K.content sink.new) }
    ensures cause { HasCause (K.faults sink.old) (K.faults sink.new) (result ≡ Note.WriteFault) }
{
    match write_all(alloc, sink, text) {
        Ok(()) => Note::Done,
        Err(SinkFault::Failed) => Note::WriteFault,
        Err(SinkFault::NoMemory) => Note::NoMemory,
    }
}
