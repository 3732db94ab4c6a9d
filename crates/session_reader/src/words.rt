//! The words of a schedule.

ghost use Rattle.std.specs.Prelude.{◌≡◌, map, IfOk};
ghost use Rattle.catalogue.specs.PlanOf.{plan_of};
ghost use Rattle.session_draft.specs.Answers.{Answers};
ghost use Rattle.session_reader.specs.SessionOf.{words_of, actors_of};

use crate::fault::SessionFault;
use catalogue::{Actor, Actors, Session};
use schedule::actor_of;
use std::alloc::{AllocError, Global};

/// The schedule that the text is in this session.
pub(crate) fn schedule_of(
    alloc: Global,
    session: &Session,
    text: &str,
) -> Result<Actors, SessionFault>
    ensures { Answers SessionFault.NoMemory (λ schedule. schedule.items) result (actors_of (plan_of session.now) (words_of text.now)) }
{
    let words = words_of(alloc, text)?;
    Ok(Actors::of(actors_of(alloc, session, words.as_slice())?))
}

/// What stands between the single spaces; nothing in the empty text.
fn words_of(alloc: Global, text: &str) -> Result<Vec<&str>, AllocError>
    ensures { IfOk result (λ words. map (λ word. word.now) words.items ≡ words_of text.now) }
{
    if text.is_empty() {
        return Ok(Vec::new(alloc));
    }
    text.split(' ').collect(alloc)
}

#[tactic(auto, using(crate::proofs::Searches::actors_counted))]
fn actors_of(alloc: Global, session: &Session, words: &[&str]) -> Result<Vec<Actor>, SessionFault>
    ensures { Answers SessionFault.NoMemory (λ actors. actors.items) result (actors_of (plan_of session.now) (map (λ word. word.now) words.now)) }
{
    let mut actors = Vec::with_capacity(alloc, words.len())?;
    for (i, word) in words.iter().enumerate() {
        match actor_of(word.as_bytes(), session) {
            Some(actor) => actors.push(actor)?,
            None => return Err(SessionFault::BadActor(i as u64)),
        }
    }
    Ok(actors)
}
