//! The loss of the switch.

ghost use Rattle.std.specs.Prelude.{◌≡◌, ℕ, None, MatchBool};
ghost use Rattle.catalogue.specs.Items.{plain_item};
ghost use Rattle.catalogue.specs.PlanOf.{plan_of};
ghost use Rattle.catalogue.specs.declared.actor.Actor.TheVariants.{Client};
ghost use Rattle.fabric_model.specs.State.{State};
ghost use Rattle.fabric_model.specs.Step as model;
ghost use Rattle.fabric_core.specs.Standing.{IsActionIn, Follows};

use crate::core_state::CoreState;
use catalogue::{Item, Session};
use client_phase::{Action, Met};

impl CoreState {
    /// Loses the switch with all that it has; false where it is lost already. What is unanswered leaves the
    /// history, and the client goes on to its next item.
    #[inline(never)]
    pub fn lose(&mut self, session: &Session, item: &Item, client: u8) -> bool
        requires { (s : State) × (at : ℕ) × IsActionIn (plan_of session.now) self.old client at (plain_item item.now) Action.Lose s }
        ensures turn { (s : State) (at : ℕ) → IsActionIn (plan_of session.now) self.old client at (plain_item item.now) Action.Lose s
            → MatchBool result (Follows (plan_of session.now) s (Client client) self.new)
            ((model.step (plan_of session.now) s (Client client) ≡ None) × (self.new ≡ self.old)) }
        ensures logs { self.new.logs ≡ self.old.logs }
    {
        if !self.is_up {
            return false;
        }
        self.pipeline.erase();
        self.history.drop_unanswered();
        self.runners[client as usize].step(session, item, client, Action::Lose, Met::Done);
        self.is_up = false;
        true
    }
}
