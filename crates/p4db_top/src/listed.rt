//! The actors that a run takes first.

ghost use Rattle.std.specs.Prelude.{◌≡◌, All, IfOk};
ghost use Rattle.catalogue.specs.PlanOf.{plan_of};
ghost use Rattle.catalogue.specs.Sound.{IsActor, IsSound};
ghost use Rattle.p4db_top.specs.Commands.{listed_by};

use catalogue::{Actors, Session};
use schedule::drawn;
use std::alloc::Global;
use txn_model::NoMemory;
use words_cli::Draws;

/// The actors that a run of the session takes first: those of its schedule, or so many drawn ones.
pub(crate) fn actors_of(
    alloc: Global,
    session: &Session,
    draws: Option<Draws>,
) -> Result<Actors, NoMemory>
    requires { IsSound (plan_of session.now) }
    ensures listed { IfOk result (λ actors. actors.items ≡ listed_by draws (plan_of session.now)) }
    ensures are { IfOk result (λ actors. All (IsActor (plan_of session.now)) actors.items) }
{
    match draws {
        None => session.schedule.copy(alloc),
        Some(draws) => drawn(alloc, session, draws.number, draws.count),
    }
}
