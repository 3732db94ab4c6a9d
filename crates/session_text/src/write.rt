//! Writing a session.

ghost use Rattle.std.specs.Prelude.{◌≡◌, ◌<◌, ◌^◌, ◌++◌, codes, IfOk, OnOk, Some, Ok, string_bytes};
ghost use Rattle.std.specs.List.{AllByRecursion};
ghost use Rattle.serde_json.specs.Written.{compact_text};
ghost use Rattle.catalogue.specs.PlanOf.{plan_of};
ghost use Rattle.catalogue.specs.Sound.{IsSound};
ghost use Rattle.session_draft.specs.Draft.{draft_of_bytes};
ghost use Rattle.session_draft.specs.Json.{json_of};
ghost use Rattle.session_reader.specs.SessionOf.{session_of};
ghost use Rattle.session_text.specs.AsWritten.{written_of};
ghost use Rattle.session_text.specs.Canonical.{canonical};
ghost use Rattle.session_text.specs.SessionData.{natural, data_of};
ghost use Rattle.session_text.specs.Typed.{IsTyped, IsTypedActor};

use crate::item::push_clients;
use crate::number::push_natural;
use crate::section::{push_layout, push_schedule, push_shape, push_tuples};
use catalogue::Session;
use std::alloc::{AllocError, Global};
use txn_model::NoMemory;

fn push_tries(text: &mut String, tries: u8) -> Result<(), AllocError>
    ensures text { OnOk result (string_bytes text.new
        ≡ string_bytes text.old ++ (codes ",\"tries\":" ++ compact_text (natural tries))) }
    ensures typed { IfOk result (λ _. tries < 2 ^ 8) }
{
    push_natural(text, ",\"tries\":", u64::from(tries))
}

/// Appends the sections in the order of their names.
fn push_session(text: &mut String, session: &Session) -> Result<(), AllocError>
    ensures text { OnOk result (string_bytes text.new
        ≡ string_bytes text.old ++ compact_text (data_of (plan_of session.now))) }
    ensures typed { IfOk result (λ _. IsTyped (plan_of session.now)) }
    ensures actors { IfOk result (λ _. AllByRecursion IsTypedActor (plan_of session.now).schedule) }
{
    text.push_str("{\"clients\":")?;
    push_clients(text, &session.clients)?;
    text.push_str(",\"layout\":")?;
    push_layout(text, &session.layout)?;
    text.push_str(",\"schedule\":")?;
    push_schedule(text, &session.schedule)?;
    text.push_str(",\"shape\":")?;
    push_shape(text, &session.shape)?;
    push_tries(text, session.tries)?;
    text.push_str(",\"tuples\":")?;
    push_tuples(text, &session.tuples)?;
    text.push_str("}")?;
    Ok(())
}

/// The canonical text of the session, in time and memory linear in it. Where the session is sound, the
/// text is read as that session: `read_session` gives it back. The one error is that memory runs out.
pub fn write_session(alloc: Global, session: &Session) -> Result<Vec<u8>, NoMemory>
    ensures text { IfOk result (λ text. text.items ≡ canonical (plan_of session.now)) }
    ensures json { IfOk result (λ text. json_of text.items ≡ Some (data_of (plan_of session.now))) }
    ensures draft { IfOk result (λ text. IsSound (plan_of session.now)
        → draft_of_bytes text.items ≡ Ok (written_of (plan_of session.now))) }
    ensures session { IfOk result (λ text. IsSound (plan_of session.now)
        → session_of text.items ≡ Ok (plan_of session.now)) }
    ensures typed { IfOk result (λ _. IsTyped (plan_of session.now)) }
{
    let mut text = String::new(alloc);
    push_session(&mut text, session)?;
    Ok(text.into_bytes())
}
