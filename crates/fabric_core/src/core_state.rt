//! What a world keeps of its clients, the switch and the hosts, and the moves of each actor.
//!
//! Each move of the code is the model's: it leads to what the model's step makes of the state.

ghost use Rattle.std.specs.Prelude.{◌≡◌, MatchBool};
ghost use Rattle.catalogue.specs.PlanOf.{plan_of};
ghost use Rattle.catalogue.specs.declared.actor.Actor.TheVariants.{Client};
ghost use Rattle.fabric_model.specs.State.{State};
ghost use Rattle.fabric_core.specs.CoreTurns.{IsTurnOf};
ghost use Rattle.fabric_core.specs.Racks.{seen};
ghost use Rattle.fabric_core.specs.Standing.{IsTurnIn};

use crate::draft::Draft;
use crate::runner::Runner;
use crate::turn::Turn;
use catalogue::{Actor, Item, Session};
use client_phase::Action;
use core_model::Refusal;
use history_core::History;
use host_locks::LockTable;
use host_store::HostStore;
use log_records::ClientLog;
use pipeline::Pipeline;
use port_io::LogRack;
use std::alloc::Global;
use txn_model::Items;

/// The clients with their records, the switch, the hosts, the history and the refusals; and what clients
/// make their records in.
#[derive(Debug, Drop)]
pub(crate) struct CoreState {
    pub runners: Vec<Runner>,
    pub logs: Vec<ClientLog>,
    /// Whether the switch is up. While it is lost, the pipeline is empty.
    pub is_up: bool,
    pub pipeline: Pipeline,
    pub locks: LockTable,
    pub store: HostStore,
    pub history: History,
    pub refusals: Items<Refusal>,
    pub draft: Draft,
}

impl CoreState {
    /// Lets an actor take its turn, behind this many moves. A client's record is appended to its log before
    /// the client moves.
    #[inline(always)]
    pub fn turn<L: LogRack>(
        &mut self,
        alloc: Global,
        rack: &mut L,
        session: &Session,
        actor: Actor,
        at: u32,
    ) -> Turn
        requires { (s : State) × IsTurnIn (plan_of session.now) self.old actor at s }
        ensures turn { (s : State) → IsTurnIn (plan_of session.now) self.old actor at s
            → IsTurnOf (plan_of session.now) s actor self.old self.new (seen (L.told rack.old) (L.keeps rack.old) (L.faults rack.old)) (seen (L.told rack.new) (L.keeps rack.new) (L.faults rack.new)) result }
        ensures idle { result ≡ Turn.Idle → rack.new ≡ rack.old }
    {
        match actor {
            Actor::Client(client) => self.step(alloc, rack, session, client, at),
            Actor::Port(client) => turn_if(self.enter_port(session, client)),
            Actor::Stage(stage) => turn_if(self.advance(session, stage)),
            Actor::Recover => self.recover(alloc, rack, session),
        }
    }

    /// Lets a client take its turn, behind this many moves.
    #[inline(always)]
    fn step<L: LogRack>(
        &mut self,
        alloc: Global,
        rack: &mut L,
        session: &Session,
        client: u8,
        at: u32,
    ) -> Turn
        requires { (s : State) × IsTurnIn (plan_of session.now) self.old (Client client) at s }
        ensures turn { (s : State) → IsTurnIn (plan_of session.now) self.old (Client client) at s
            → IsTurnOf (plan_of session.now) s (Client client) self.old self.new (seen (L.told rack.old) (L.keeps rack.old) (L.faults rack.old)) (seen (L.told rack.new) (L.keeps rack.new) (L.faults rack.new)) result }
        ensures idle { result ≡ Turn.Idle → rack.new ≡ rack.old }
    {
        let runner = &self.runners[client as usize];
        let Some(item) = session.item(client, runner.state.seq) else {
            return Turn::Idle;
        };
        let Item::Run(script) = item else {
            return turn_if(self.lose(session, item, client));
        };
        match runner.action(item) {
            Action::Lock(number) => self.ask(session, item, script, client, number, at),
            Action::Release(number) => self.release(session, item, script, client, number),
            Action::Decide => self.decide(session, item, client),
            Action::LogIntent => {
                return self.log_intent(alloc, rack, session, item, script, client);
            }
            Action::Post => return turn_if(self.post(session, item, client)),
            Action::LogOutcome => {
                return self.take_answer(alloc, rack, session, item, script, client);
            }
            Action::Install(number) => self.install(session, item, script, client, number),
            Action::Lose | Action::Rest => return Turn::Idle,
        }
        Turn::Moved
    }
}

/// What became of the turn of an actor that moved, or couldn't.
fn turn_if(moved: bool) -> Turn
    ensures { MatchBool moved (result ≡ Turn.Moved) (result ≡ Turn.Idle) }
{
    if moved { Turn::Moved } else { Turn::Idle }
}
