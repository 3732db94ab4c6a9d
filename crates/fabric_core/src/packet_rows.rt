//! The moves of packets: intents, posts, answers, the port and the stages.

ghost use Rattle.std.specs.Prelude.{◌≡◌, ◌≢◌, ℕ, None, MatchBool};
ghost use Rattle.catalogue.specs.Items.{plain_item};
ghost use Rattle.catalogue.specs.Plan.{Run};
ghost use Rattle.catalogue.specs.PlanOf.{plan_of};
ghost use Rattle.catalogue.specs.declared.actor.Actor.TheVariants.{Client, Port, Stage};
ghost use Rattle.fabric_model.specs.State.{State};
ghost use Rattle.fabric_model.specs.Step as model;
ghost use Rattle.fabric_core.specs.CoreTurns as turns;
ghost use Rattle.fabric_core.specs.CoreTurns.{IsTurnOf};
ghost use Rattle.fabric_core.specs.Racks.{seen};
ghost use Rattle.fabric_core.specs.Standing.{IsActionIn, IsTurnIn, Follows};

use crate::core_state::CoreState;
use crate::draft::note_outcome;
use crate::turn::Turn;
use catalogue::{Item, Session};
use client_phase::{Action, Met};
use history_core::Entry;
use history_model::greater;
use intent_log::{append_intent, append_outcome};
use pipeline::Step;
use port_io::{LogRack, RackFault};
use std::alloc::Global;
use switch_packet::encode_into;
use txn_model::{Script, Stamp};
use warm_split::join_pairs;

impl CoreState {
    /// Puts what the client is about to do in the switch into its log: the packet of its script, and the
    /// number above which its own will be.
    #[inline(never)]
    pub fn log_intent<L: LogRack>(
        &mut self,
        alloc: Global,
        rack: &mut L,
        session: &Session,
        item: &Item,
        script: &Script,
        client: u8,
    ) -> Turn
        requires item { plain_item item.now ≡ Run script.now.items }
        requires action { (s : State) × (at : ℕ) × IsActionIn (plan_of session.now) self.old client at (plain_item item.now) Action.LogIntent s }
        ensures turn { (s : State) (at : ℕ) → IsActionIn (plan_of session.now) self.old client at (plain_item item.now) Action.LogIntent s
            → IsTurnOf (plan_of session.now) s (Client client) self.old self.new (seen (L.told rack.old) (L.keeps rack.old) (L.faults rack.old)) (seen (L.told rack.new) (L.keeps rack.new) (L.faults rack.new)) result }
        ensures moves { result ≢ Turn.Idle }
    {
        let runner = &self.runners[client as usize];
        self.draft.intent.floor = greater(runner.state.last, runner.state.met).number;
        runner.resolve(
            session,
            script,
            client,
            &mut self.draft.zeros,
            &mut self.draft.intent.packet,
        );
        if let Err(fault) = append_intent(
            alloc,
            rack,
            client,
            &self.draft.intent,
            &mut self.draft.text,
        ) {
            return turn_after(client, fault);
        }
        self.runners[client as usize].step(session, item, client, Action::LogIntent, Met::Done);
        self.logs[client as usize].push_intent(
            self.draft.intent.floor,
            &mut self.draft.intent.packet,
        );
        Turn::Moved
    }

    /// Posts the packet that stands last in the client's log; false where the switch is lost.
    #[inline(never)]
    pub fn post(&mut self, session: &Session, item: &Item, client: u8) -> bool
        requires action { (s : State) × (at : ℕ) × IsActionIn (plan_of session.now) self.old client at (plain_item item.now) Action.Post s }
        ensures turn { (s : State) (at : ℕ) → IsActionIn (plan_of session.now) self.old client at (plain_item item.now) Action.Post s
            → MatchBool result (Follows (plan_of session.now) s (Client client) self.new)
            ((model.step (plan_of session.now) s (Client client) ≡ None) × (self.new ≡ self.old)) }
        ensures logs { self.new.logs ≡ self.old.logs }
    {
        if !self.is_up {
            return false;
        }
        self.runners[client as usize].step(session, item, client, Action::Post, Met::Done);
        let intent = self.logs[client as usize].last_intent();
        self.draft.text.clear();
        encode_into(&intent.packet, &mut self.draft.text);
        self.pipeline.post(client, self.draft.text.as_slice());
        true
    }

    /// Takes the answer to the client's packet, where there is one: number and pairs go into its log, and
    /// its entry is answered.
    pub fn take_answer<L: LogRack>(
        &mut self,
        alloc: Global,
        rack: &mut L,
        session: &Session,
        item: &Item,
        script: &Script,
        client: u8,
    ) -> Turn
        requires item { plain_item item.now ≡ Run script.now.items }
        requires action { (s : State) × (at : ℕ) × IsActionIn (plan_of session.now) self.old client at (plain_item item.now) Action.LogOutcome s }
        ensures turn { (s : State) (at : ℕ) → IsActionIn (plan_of session.now) self.old client at (plain_item item.now) Action.LogOutcome s
            → IsTurnOf (plan_of session.now) s (Client client) self.old self.new (seen (L.told rack.old) (L.keeps rack.old) (L.faults rack.old)) (seen (L.told rack.new) (L.keeps rack.new) (L.faults rack.new)) result }
        ensures idle { result ≡ Turn.Idle → rack.new ≡ rack.old }
    {
        if !self.is_up {
            return Turn::Idle;
        }
        let seq = self.runners[client as usize].state.seq;
        let Some(number) = self.pipeline.answer_number(client) else {
            return Turn::Idle;
        };
        let hot = self.pipeline.answer_pairs(client);
        note_outcome(&mut self.draft.outcome, seq, number, hot);
        if let Err(fault) = append_outcome(
            alloc,
            rack,
            client,
            &self.draft.outcome,
            &mut self.draft.text,
        ) {
            return turn_after(client, fault);
        }
        let runner = &mut self.runners[client as usize];
        join_pairs(script, &runner.parts, hot, &mut runner.state.pairs);
        self.logs[client as usize].push_outcome(seq, number, hot);
        self.history.answer(client, seq, &runner.state.pairs);
        runner.step(
            session,
            item,
            client,
            Action::LogOutcome,
            Met::Answered(number),
        );
        self.pipeline.drop_answer(client);
        Turn::Moved
    }

    /// Lets the packet of a client enter the switch; false where it can't, or the switch is lost. At its first entry it gets its
    /// number, and an unanswered entry of its transaction goes into the history.
    #[inline(always)]
    pub fn enter_port(&mut self, session: &Session, client: u8) -> bool
        requires { (s : State) × (at : ℕ) × IsTurnIn (plan_of session.now) self.old (Port client) at s }
        ensures turn { (s : State) (at : ℕ) → IsTurnIn (plan_of session.now) self.old (Port client) at s
            → MatchBool result (Follows (plan_of session.now) s (Port client) self.new)
            ((model.step (plan_of session.now) s (Port client) ≡ None) × (self.new ≡ self.old)) }
        ensures logs { self.new.logs ≡ self.old.logs }
    {
        if !self.is_up {
            return false;
        }
        let number = self.pipeline.next_number();
        let pass = self.pipeline.waits_for(client);
        if let Step::Idle = self.pipeline.enter(client) {
            return false;
        }
        if pass == Some(1) {
            let seq = self.runners[client as usize].state.seq;
            let stamp = Stamp { number, sub: 0 };
            self.history.insert(Entry { stamp, client, seq });
        }
        true
    }

    /// Lets the packet at a stage be executed and go on; false where there is none, it can't, or the switch is
    /// lost.
    #[inline(always)]
    pub fn advance(&mut self, session: &Session, stage: u8) -> bool
        requires { (s : State) × (at : ℕ) × IsTurnIn (plan_of session.now) self.old (Stage stage) at s }
        ensures turn { (s : State) (at : ℕ) → IsTurnIn (plan_of session.now) self.old (Stage stage) at s
            → MatchBool result (Follows (plan_of session.now) s (Stage stage) self.new)
            ((model.step (plan_of session.now) s (Stage stage) ≡ None) × (self.new ≡ self.old)) }
        ensures logs { self.new.logs ≡ self.old.logs }
    {
        if !self.is_up {
            return false;
        }
        matches!(self.pipeline.advance(stage), Step::Moved)
    }
}

/// The answer to the turn of a client whose record could not be appended.
fn turn_after(client: u8, fault: RackFault) -> Turn
    ensures { result ≡ turns.turn_after client fault }
{
    match fault {
        RackFault::Failed => Turn::LogFault(client),
        RackFault::NoMemory => Turn::NoMemory,
    }
}
