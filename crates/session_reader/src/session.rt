//! Sessions from their text.

ghost use Rattle.std.specs.Prelude.{◌≡◌, IfOk};
ghost use Rattle.catalogue.specs.PlanOf.{plan_of};
ghost use Rattle.catalogue.specs.Sound.{IsSound};
ghost use Rattle.session_draft.specs.Answers.{Answers};
ghost use Rattle.session_draft.specs.Written.{written};
ghost use Rattle.session_reader.specs.SessionOf.{checked, session_of};

use crate::build::unscheduled;
use crate::check::check_parts;
use crate::fault::SessionFault;
use crate::limits::over_limit;
use crate::words::schedule_of;
use catalogue::Session;
use session_draft::{Draft, read_draft};
use std::alloc::Global;

/// Reads the session that the bytes are. It is sound: within the limits, with a layout that fits, scripts
/// that can be run, and a schedule of its own actors. Of several faults the first in the order of
/// `SessionFault` is answered, at its first place. After an error nothing is kept.
#[tactic(auto, unfolding(crate::specs::SessionOf::session_of))]
pub fn read_session(alloc: Global, bytes: &[u8]) -> Result<Session, SessionFault>
    ensures exact { Answers SessionFault.NoMemory plan_of result (session_of bytes.now) }
    ensures sound { IfOk result (λ session. IsSound (plan_of session)) }
{
    let draft = read_draft(alloc, bytes)?;
    checked(alloc, &draft)
}

#[tactic(auto, unfolding(crate::specs::SessionOf::checked))]
fn checked(alloc: Global, draft: &Draft) -> Result<Session, SessionFault>
    ensures { Answers SessionFault.NoMemory plan_of result (checked (written draft.now)) }
{
    if let Some(limit) = over_limit(draft) {
        return Err(SessionFault::OverLimit(limit));
    }
    let mut session = unscheduled(alloc, draft)?;
    check_parts(alloc, &session)?;
    session.schedule = schedule_of(alloc, &session, draft.schedule.as_str())?;
    Ok(session)
}
