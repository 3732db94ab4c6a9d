//! Reading a session from a source.

ghost use Rattle.std.specs.Prelude.{◌≡◌, ◌≢◌, Err, IfOk, IfErr};
ghost use Rattle.port_io.specs.Cause.{HasCause};
ghost use Rattle.catalogue.specs.PlanOf.{plan_of};
ghost use Rattle.catalogue.specs.Sound.{IsSound};
ghost use Rattle.p4db_top.specs.Headline.{IsRead, StopsReading};

use crate::note::Note;
use catalogue::Session;
use port_io::{ReadAllFault, Source, read_all};
use session_reader::{SessionFault, read_session};
use std::alloc::Global;

/// The longest input that is read, in bytes.
const MOST_INPUT: usize = 16_777_216;

/// Reads the session that is all of the source's bytes.
pub(crate) fn session_of<S: Source>(alloc: Global, source: &mut S) -> Result<Session, Note>
    ensures ok { IfOk result (λ s. IsRead (S.left source.old) (S.left source.new) (plan_of s)) }
    ensures sound { IfOk result (λ s. IsSound (plan_of s)) }
    ensures err { IfErr result (λ note. StopsReading note (S.left source.old) (S.left source.new)) }
    ensures told { result ≢ Err (Note.Session SessionFault.NoMemory) }
    ensures cause { HasCause (S.faults source.old) (S.faults source.new) (result ≡ Err Note.ReadFault) }
{
    let bytes = match read_all(alloc, source, MOST_INPUT) {
        Ok(bytes) => bytes,
        Err(ReadAllFault::Failed) => return Err(Note::ReadFault),
        Err(ReadAllFault::TooLong) => return Err(Note::InputTooLong),
        Err(ReadAllFault::NoMemory) => return Err(Note::NoMemory),
    };
    match read_session(alloc, bytes.as_slice()) {
        Ok(session) => Ok(session),
        Err(SessionFault::NoMemory) => Err(Note::NoMemory),
        Err(fault) => Err(Note::Session(fault)),
    }
}
