//! Schedules of drawn actors.

ghost use Rattle.std.specs.Prelude.{◌≡◌, ◌<◌, ◌≤◌, ◌+◌, ◌*◌, All, IfOk, length};
ghost use Rattle.catalogue.specs.PlanOf.{plan_of};
ghost use Rattle.catalogue.specs.Sound.{IsActor};
ghost use Rattle.schedule.specs.Dice.{seeded, words_of};
ghost use Rattle.schedule.specs.Drawn.{actor_at, drawn};

use crate::dice::Dice;
use catalogue::{Actor, Actors, Session};
use std::alloc::Global;
use txn_model::NoMemory;

/// So many actors of the session, drawn by the generator of this number.
pub fn drawn(alloc: Global, session: &Session, number: u64, count: u32) -> Result<Actors, NoMemory>
    ensures drawn { IfOk result (λ actors. actors.items ≡ drawn (plan_of session.now) count (words_of (seeded number))) }
    ensures of_session { IfOk result (λ actors. All (IsActor (plan_of session.now)) actors.items) }
{
    let clients = u32::from(session.clients());
    let stages = u32::from(session.shape.stages);
    let mut dice = Dice::of(number);
    let mut actors = Vec::with_capacity(alloc, count as usize)?;
    for _ in 0..count {
        let place = dice.draw(2 * clients + stages + 1);
        actors.push(actor_at(session, place))?;
    }
    Ok(Actors::of(actors))
}

/// The actor at this place among the clients, their ports, the stages, and recovery.
fn actor_at(session: &Session, place: u32) -> Actor
    ensures { result ≡ actor_at (plan_of session.now) place }
{
    let clients = u32::from(session.clients());
    let stages = u32::from(session.shape.stages);
    if place < clients {
        Actor::Client(place as u8)
    } else if place < 2 * clients {
        Actor::Port((place - clients) as u8)
    } else if place < 2 * clients + stages {
        Actor::Stage((place - 2 * clients) as u8)
    } else {
        Actor::Recover
    }
}
