//! The rules that tie the parts of a session together.

ghost use Rattle.std.specs.Prelude.{◌≡◌, All};
ghost use Rattle.catalogue.specs.PlanOf.{plan_of};
ghost use Rattle.session_draft.specs.Answers.{Answers};
ghost use Rattle.session_reader.specs.Rules.{HasOps, OfScript};
ghost use Rattle.session_reader.specs.SessionOf.{scripts_fit, parts_fit};

use crate::fault::SessionFault;
use crate::rule::{Rule, first_place};
use catalogue::Session;
use std::alloc::Global;

/// The first fault of a session whose scripts are within the limit: of its operations and its layout.
#[tactic(auto, unfolding(crate::specs::SessionOf::parts_fit))]
pub(crate) fn check_parts(alloc: Global, session: &Session) -> Result<(), SessionFault>
    requires { All (All (OfScript HasOps)) (plan_of session.now).clients }
    ensures { Answers SessionFault.NoMemory (λ done. done) result (parts_fit (plan_of session.now)) }
{
    if let Some(at) = first_place(Rule::KnownTuple, session) {
        return Err(SessionFault::BadTuple(at));
    }
    session
        .layout
        .check(alloc, &session.shape, &session.tuples)?;
    check_scripts(session)
}

#[tactic(auto, unfolding(crate::specs::SessionOf::scripts_fit))]
fn check_scripts(session: &Session) -> Result<(), SessionFault>
    requires { All (All (OfScript HasOps)) (plan_of session.now).clients }
    ensures { result ≡ scripts_fit (plan_of session.now) }
{
    if let Some(at) = first_place(Rule::TupleOnce, session) {
        return Err(SessionFault::TupleTwice(at));
    }
    if let Some(at) = first_place(Rule::EarlierNeeds, session) {
        return Err(SessionFault::BadUse(at));
    }
    match first_place(Rule::OneTurn, session) {
        Some(at) => Err(SessionFault::BadTurn(at)),
        None => Ok(()),
    }
}
