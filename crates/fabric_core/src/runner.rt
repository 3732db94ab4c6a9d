//! A client at its present item.

ghost use Rattle.std.specs.Prelude.{◌≡◌, ◌≢◌, if◌then◌else◌, ◌<◌, ◌≤◌, [], length, replicate, IfOk, Some};
ghost use Rattle.catalogue.specs.Items.{plain_item};
ghost use Rattle.catalogue.specs.Plan.{items_of, item_of, script_at};
ghost use Rattle.catalogue.specs.PlanOf.{plan_of};
ghost use Rattle.catalogue.specs.Sound.{IsSound};
ghost use Rattle.core_model.specs.State as model;
ghost use Rattle.client_phase.specs.NextAction.{next_action};
ghost use Rattle.client_phase.specs.Shown.{plain_client, zero_pair};
ghost use Rattle.client_phase.specs.Stepped.{pairs_to_fill};
ghost use Rattle.switch_packet.specs.Packets as packets;
ghost use Rattle.switch_packet.specs.Packets.{plain};
ghost use Rattle.warm_split.specs.Filled.{AreExecuted};
ghost use Rattle.warm_split.specs.Parts.{IsParts};
ghost use Rattle.warm_split.specs.Resolved.{packet_of};
ghost use Rattle.warm_split.specs.Sides.{HasPlaces, IsOneVisit, found_values, hot_ops};
ghost use Rattle.client_phase.specs.Fits.{Fits, HasNoFault};
ghost use Rattle.fabric_core.specs.Standing.{IsRunner};
ghost use Rattle.fabric_core.specs.Steps.{CanStep, HasStepped};

use catalogue::{Item, Session};
use client_phase::{Action, ClientState, Met, action_of, step_client};
use std::alloc::Global;
use switch_packet::Packet;
use txn_model::{NoMemory, Pair, Pairs, Script};
use warm_split::{OpSet, Parts, resolve, split};

/// What is kept of a client, and where the operations of its present script are executed; no operations
/// where its present item is no transaction.
#[derive(Debug, Drop)]
pub(crate) struct Runner {
    pub state: ClientState,
    pub parts: Parts,
}

impl Runner {
    /// A client at the first of its items.
    pub fn fresh(alloc: Global, session: &Session, client: u8) -> Result<Runner, NoMemory>
        requires sound { IsSound (plan_of session.now) }
        requires within { client < length (plan_of session.now).clients }
        ensures { IfOk result (IsRunner (plan_of session.now) client (model.at_item (length (items_of (plan_of session.now) client)) 1 model.zero_stamp)) }
    {
        Ok(Runner {
            state: ClientState::fresh(alloc, session.items(client))?,
            parts: parts_of(session, client, 1),
        })
    }

    /// What the client does next at its present item, which is this one.
    pub fn action(&self, item: &Item) -> Action
        requires fault { HasNoFault (plain_item item.now) }
        requires fits { Fits self.now.parts (plain_item item.now) (plain_client self.now.state) }
        ensures { result ≡ next_action self.now.parts (plain_client self.now.state) (Some (plain_item item.now)) }
    {
        action_of(&self.state, Some(item), &self.parts)
    }

    /// Makes the client's part of a move, and takes the parts of its next item where it goes on to that.
    pub fn step(&mut self, session: &Session, item: &Item, client: u8, action: Action, met: Met)
        requires sound { IsSound (plan_of session.now) }
        requires within { client < length (plan_of session.now).clients }
        requires item { item_of (plan_of session.now) client self.old.state.seq ≡ Some (plain_item item.now) }
        requires step { CanStep (plan_of session.now) (plain_item item.now) self.old action met }
        ensures { HasStepped (plan_of session.now) client (plain_item item.now) self.old self.new action met }
    {
        let seq = self.state.seq;
        step_client(
            &mut self.state,
            item,
            session.items(client),
            &self.parts,
            session.tries,
            action,
            met,
        );
        if self.state.seq != seq {
            self.parts = parts_of(session, client, self.state.seq);
        }
    }

    /// Makes the packet of the client's present script, for which it has all its locks.
    pub fn resolve(
        &self,
        session: &Session,
        script: &Script,
        client: u8,
        zeros: &mut Pairs,
        to: &mut Packet,
    )
        requires visit { IsOneVisit (plan_of session.now).layout script.now.items }
        requires sets { IsParts (plan_of session.now).layout script.now.items self.now.parts }
        requires hot { hot_ops (plan_of session.now).layout script.now.items ≢ [] }
        requires places { HasPlaces (plan_of session.now).shape (plan_of session.now).layout script.now.items }
        requires filled { AreExecuted self.now.parts.before script.now.items (pairs_to_fill (length script.now.items) (plain_client self.now.state)) }
        requires zeros { 16 ≤ packets.room_of zeros.old }
        requires room { 16 ≤ packets.room_of to.old.ops }
        requires few { length script.now.items ≤ 16 }
        ensures packet { plain to.new ≡ packet_of (plan_of session.now).shape (plan_of session.now).layout client self.now.state.seq script.now.items
            (found_values (plan_of session.now).layout script.now.items (pairs_to_fill (length script.now.items) (plain_client self.now.state))) }
        ensures zeros { packets.room_of zeros.new ≡ packets.room_of zeros.old }
        ensures room { packets.room_of to.new.ops ≡ packets.room_of to.old.ops }
    {
        let state = &self.state;
        make_zeros(script.len() as u8, zeros);
        let pairs = pick(state.locked == 0, zeros, &state.pairs);
        resolve(
            &session.shape,
            &session.layout,
            script,
            &self.parts,
            client,
            state.seq,
            pairs,
            to,
        );
    }
}

/// The first of them where it is that one, else the second.
fn pick<'a>(is_first: bool, first: &'a Pairs, second: &'a Pairs) -> &'a Pairs
    ensures { result.now ≡ (if is_first then first.now else second.now) }
{
    if is_first { first } else { second }
}

/// Makes it this many pairs of zeros, in the room that the pairs have.
fn make_zeros(len: u8, pairs: &mut Pairs)
    requires room { len ≤ packets.room_of pairs.old }
    ensures items { pairs.new.items ≡ replicate len zero_pair }
    ensures room { packets.room_of pairs.new ≡ packets.room_of pairs.old }
{
    pairs.clear();
    for _ in 0..len {
        pairs.push(Pair::ZERO);
    }
}

/// Where the operations of a client's item are executed; no operations where that is no transaction.
fn parts_of(session: &Session, client: u8, seq: u32) -> Parts
    requires { IsSound (plan_of session.now) }
    ensures { IsParts (plan_of session.now).layout (script_at (plan_of session.now) client seq) result }
{
    match session.script(client, seq) {
        Some(script) => parts_in(session, script),
        None => Parts {
            before: OpSet::EMPTY,
            hot: OpSet::EMPTY,
            after: OpSet::EMPTY,
        },
    }
}

/// Where the operations of a script are executed, which one visit of the switch is enough for.
fn parts_in(session: &Session, script: &Script) -> Parts
    requires { IsOneVisit (plan_of session.now).layout script.now.items }
    ensures { IsParts (plan_of session.now).layout script.now.items result }
{
    match split(script, &session.layout) {
        Ok(parts) => parts,
        Err(_) => unreachable!(),
    }
}
