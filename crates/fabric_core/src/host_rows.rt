//! The moves of clients at hosts: locks, decisions and installations.

ghost use Rattle.std.specs.Prelude.{◌≡◌, ℕ};
ghost use Rattle.catalogue.specs.Items.{plain_item};
ghost use Rattle.catalogue.specs.Plan.{Run};
ghost use Rattle.catalogue.specs.PlanOf.{plan_of};
ghost use Rattle.catalogue.specs.declared.actor.Actor.TheVariants.{Client};
ghost use Rattle.fabric_model.specs.State.{State};
ghost use Rattle.fabric_core.specs.Held.{mode_of};
ghost use Rattle.fabric_core.specs.Standing.{IsActionIn, Follows};

use crate::core_state::CoreState;
use catalogue::{Item, Session};
use client_phase::{Action, Met};
use core_model::Refusal;
use history_core::Entry;
use host_locks::{Grant, Mode};
use txn_model::{Act, Op, Script};

impl CoreState {
    /// Asks for the lock of an operation of the script, which is the next one on a host.
    #[inline(never)]
    pub fn ask(
        &mut self,
        session: &Session,
        item: &Item,
        script: &Script,
        client: u8,
        number: u8,
        at: u32,
    )
        requires item { plain_item item.now ≡ Run script.now.items }
        requires action { (s : State) × IsActionIn (plan_of session.now) self.old client at (plain_item item.now) (Action.Lock number) s }
        ensures follows { (s : State) → IsActionIn (plan_of session.now) self.old client at (plain_item item.now) (Action.Lock number) s
            → Follows (plan_of session.now) s (Client client) self.new }
        ensures logs { self.new.logs ≡ self.old.logs }
    {
        let runner = &mut self.runners[client as usize];
        let op = script.op(number);
        match self.locks.try_lock(op.tuple, mode_of(&op), client) {
            Grant::Granted => {
                let seen = self.store.read(op.tuple);
                runner.step(
                    session,
                    item,
                    client,
                    Action::Lock(number),
                    Met::Granted(seen),
                );
            }
            Grant::HeldBy(holder) => {
                self.refusals.push(Refusal {
                    client,
                    seq: runner.state.seq,
                    tuple: op.tuple,
                    holder,
                    at,
                });
                runner.step(
                    session,
                    item,
                    client,
                    Action::Lock(number),
                    Met::HeldBy(holder),
                );
            }
        }
    }

    /// Releases the lock that the client took last, which is that of this operation.
    #[inline(never)]
    pub fn release(
        &mut self,
        session: &Session,
        item: &Item,
        script: &Script,
        client: u8,
        number: u8,
    )
        requires item { plain_item item.now ≡ Run script.now.items }
        requires action { (s : State) × (at : ℕ) × IsActionIn (plan_of session.now) self.old client at (plain_item item.now) (Action.Release number) s }
        ensures follows { (s : State) (at : ℕ) → IsActionIn (plan_of session.now) self.old client at (plain_item item.now) (Action.Release number) s
            → Follows (plan_of session.now) s (Client client) self.new }
        ensures logs { self.new.logs ≡ self.old.logs }
    {
        let runner = &mut self.runners[client as usize];
        let op = script.op(number);
        self.locks.unlock(op.tuple, client);
        runner.step(session, item, client, Action::Release(number), Met::Done);
    }

    /// Decides the client's transaction, and puts it into the history with its reply.
    #[inline(never)]
    pub fn decide(&mut self, session: &Session, item: &Item, client: u8)
        requires { (s : State) × (at : ℕ) × IsActionIn (plan_of session.now) self.old client at (plain_item item.now) Action.Decide s }
        ensures follows { (s : State) (at : ℕ) → IsActionIn (plan_of session.now) self.old client at (plain_item item.now) Action.Decide s
            → Follows (plan_of session.now) s (Client client) self.new }
        ensures logs { self.new.logs ≡ self.old.logs }
    {
        let runner = &mut self.runners[client as usize];
        runner.step(session, item, client, Action::Decide, Met::Done);
        let state = &runner.state;
        self.history.insert(Entry {
            stamp: state.last,
            client,
            seq: state.seq,
        });
        self.history.answer(client, state.seq, &state.pairs);
    }

    /// Installs the value of this operation, which is the client's next one, and releases its lock.
    #[inline(never)]
    pub fn install(
        &mut self,
        session: &Session,
        item: &Item,
        script: &Script,
        client: u8,
        number: u8,
    )
        requires item { plain_item item.now ≡ Run script.now.items }
        requires action { (s : State) × (at : ℕ) × IsActionIn (plan_of session.now) self.old client at (plain_item item.now) (Action.Install number) s }
        ensures follows { (s : State) (at : ℕ) → IsActionIn (plan_of session.now) self.old client at (plain_item item.now) (Action.Install number) s
            → Follows (plan_of session.now) s (Client client) self.new }
        ensures logs { self.new.logs ≡ self.old.logs }
    {
        let runner = &mut self.runners[client as usize];
        let op = script.op(number);
        let pair = runner.state.pairs.get(number);
        self.store.install(op.tuple, pair.now, runner.state.last);
        self.locks.unlock(op.tuple, client);
        runner.step(session, item, client, Action::Install(number), Met::Done);
    }
}

fn mode_of(op: &Op) -> Mode
    ensures { result ≡ mode_of op.now }
{
    match op.act {
        Act::Read => Mode::Shared,
        Act::Put { .. } | Act::Add { .. } | Act::Choose { .. } => Mode::Exclusive,
    }
}
