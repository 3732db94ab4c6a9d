//! The actors of a session by their places in the rota.

ghost use Rattle.std.specs.Prelude.{◌≡◌, ◌<◌, ◌≤◌};
ghost use Rattle.catalogue.specs.Plan.{Plan};
ghost use Rattle.catalogue.specs.PlanOf.{plan_of};
ghost use Rattle.catalogue.specs.Sound.{IsSound, IsActor};
ghost use Rattle.race_run.specs.Places.{AreOf, count_of};

use catalogue::{Actor, Session};

/// How many clients and stages the actors of a session are for. The rota is recovery, the clients, their ports,
/// and the stages from the last to the first.
#[derive(Clone, Copy, Debug, PartialEq, Eq)]
pub(crate) struct Places {
    pub(crate) clients: u8,
    pub(crate) stages: u8,
}

impl Places {
    pub(crate) fn of(session: &Session) -> Places
        requires { IsSound (plan_of session.now) }
        ensures { AreOf (plan_of session.now) result }
    {
        Places {
            clients: session.clients(),
            stages: session.shape.stages,
        }
    }

    /// How many actors there are.
    pub(crate) fn count(self) -> usize
        ensures { result ≡ count_of self }
    {
        1 + 2 * self.clients as usize + self.stages as usize
    }

    /// The actor at this place of the rota, counted from 0.
    pub(crate) fn actor(self, place: usize) -> Actor
        requires { place < count_of self }
        ensures { (plan : Plan) → AreOf plan self → IsActor plan result }
    {
        let clients = self.clients as usize;
        if place == 0 {
            return Actor::Recover;
        }
        let place = place - 1;
        if place < clients {
            return Actor::Client(place as u8);
        }
        let place = place - clients;
        if place < clients {
            return Actor::Port(place as u8);
        }
        Actor::Stage(self.stages - 1 - (place - clients) as u8)
    }
}
