//! Worlds.

ghost use Rattle.std.specs.Prelude.{ℕ, ◌≡◌, ◌↔◌, ◌<◌, ◌≤◌, [], ◌∷◌, true, false, length, map, reverse, All, IfOk, IfErr, IsSome, IsTrue, Some, None};
ghost use Rattle.std.specs.FinMap.{get};
ghost use Rattle.std.specs.List.{list_all};
ghost use Rattle.catalogue.specs.Plan.{item_of};
ghost use Rattle.catalogue.specs.PlanOf.{plan_of};
ghost use Rattle.catalogue.specs.Sound.{IsSound, IsActor};
ghost use Rattle.catalogue.specs.declared.actor.Actor.TheVariants.{Client, Port, Stage};
ghost use Rattle.core_model.specs.Rota.{is_finished, numbers_below, rota};
ghost use Rattle.fabric_model.specs.Bound.{move_bound};
ghost use Rattle.fabric_model.specs.Driven.{IsFinished};
ghost use Rattle.fabric_model.specs.Ends as ends;
ghost use Rattle.fabric_model.specs.Laws.{IsReached, tuple_now};
ghost use Rattle.fabric_model.specs.Rota.{driven_from};
ghost use Rattle.fabric_model.specs.Run.{opening, state_of};
ghost use Rattle.fabric_model.specs.State.{client_at};
ghost use Rattle.history_core.specs.Runs.{runs_of};
ghost use Rattle.fabric_core.specs.Begun.{IsNotReset};
ghost use Rattle.fabric_core.specs.Racks.{seen, StaysFrom};
ghost use Rattle.fabric_core.specs.RecordTexts.{LogsMatch, HasStopCause};
ghost use Rattle.fabric_core.specs.Running.{state_in};
ghost use Rattle.fabric_core.specs.Slots.{slot_now};
ghost use Rattle.fabric_core.specs.Standing.{StandsFor};
ghost use Rattle.fabric_core.specs.Taken.{IsTaken, IsTakenOn};
ghost use Rattle.fabric_core.specs.Turns.{IsTurn, IsEnd};

use crate::core_state::CoreState;
use crate::ends::{loss_end, script_end};
use crate::name::RunName;
use crate::resets::reset_logs;
use crate::room::MOST_MOVES;
use crate::runner::Runner;
use crate::turn::{BeginFault, End, Halt, Stop, Turn};
use catalogue::{Actor, Actors, Item, Session};
use core_model::{ItemEnd, Phase, Refusal};
use history_core::History;
use port_io::LogRack;
use std::alloc::Global;
use std::marker::{Model, PhantomData};
use txn_model::{Items, NoMemory, TupleId};

/// A run that has begun: its session, the state that the moves so far have made, and the clients' logs.
///
/// The name is a part of the type, so that a world that comes back from elsewhere is still a run of the
/// same session. Where the rack kept when the run began, each client's log is told as the text of its
/// records. Once a record could not be appended the world has stopped: only the log of that client may
/// then go on, with a front of that record's text. A world has stopped, too, where at recovery a log could
/// not be read, or was not the text of its records; the latter never over a rack that keeps.
#[derive(Drop)]
pub struct World<L: LogRack, N: RunName> {
    session: Session,
    core: CoreState,
    trace: Actors,
    stop: Option<Stop>,
    rack: L,
    of: PhantomData<N>,
}

impl<L: LogRack, N: RunName> Model for World<L, N> {
    ghost use Rattle.catalogue.specs.PlanOf.{plan_of};
    ghost use Rattle.fabric_core.specs.Kept.{IsKept};
    ghost use Rattle.fabric_core.specs.Racks.{seen};
    ghost use Rattle.fabric_core.specs.Running.{Running};
    ghost use Rattle.std.specs.Coded.{codes};
    ghost use Rattle.std.specs.Prelude.{IsTrue};
    ghost use Rattle.txn_model.specs.Tuples.{tuples_code};

    ghost Value = { Running L };

    ghost coded = { Prim.hlevel (codes, tuples_code) };

    ghost view = { λ a. record { plan = plan_of a.session; trace = a.trace.items; stop = a.stop; rack = a.rack } };

    ghost invariant = { λ a. IsKept N.session (plan_of a.session) N.faults (IsTrue N.kept) a.core a.trace a.stop (seen (L.told a.rack) (L.keeps a.rack) (L.faults a.rack)) };
}

impl<L: LogRack, N: RunName> World<L, N> {
    /// Takes all room that the run of a session needs, and then empties the logs of its clients in order.
    /// After this no call of the world takes memory, but for what its rack takes to append, and what recovery
    /// takes. After a fault the logs are handed back; where memory ran out, as they were.
    pub fn begin(alloc: Global, session: Session, rack: L) -> Result<World<L, N>, (L, BeginFault)>
        requires sound { IsSound (plan_of session) }

        // The run is named after its session and its rack.
        requires named { plan_of session ≡ N.session }
        requires faults { L.faults rack ≡ N.faults }
        requires kept { L.keeps rack ≡ N.kept }
        ensures begun { IfOk result (λ world. world ≡ record { plan = plan_of session; trace = []; stop = None; rack = world.rack }) }
        ensures counted { IfOk result (λ world. L.faults world.rack ≡ L.faults rack) }
        ensures beyond { IfOk result (λ world. StaysFrom (length (plan_of session).clients) (seen (L.told rack) (L.keeps rack) (L.faults rack)) (seen (L.told world.rack) (L.keeps world.rack) (L.faults world.rack))) }
        ensures no_memory { IfErr result (λ err. err.1 ≡ BeginFault.NoMemory → err.0 ≡ rack) }
        ensures log_fault { IfErr result (λ err. (c : ℕ) → err.1 ≡ BeginFault.LogFault c
            → IsNotReset (length (plan_of session).clients) (seen (L.told rack) (L.keeps rack) (L.faults rack)) (seen (L.told err.0) (L.keeps err.0) (L.faults err.0)) c) }
    {
        let (core, trace) = match room_of(alloc, &session) {
            Ok(room) => room,
            Err(NoMemory) => return Err((rack, BeginFault::NoMemory)),
        };
        let mut rack = rack;
        if let Err(client) = reset_logs(&mut rack, session.clients()) {
            return Err((rack, BeginFault::LogFault(client)));
        }
        Ok(World {
            session,
            core,
            trace,
            stop: None,
            rack,
            of: PhantomData,
        })
    }

    /// Lets an actor of the session take its turn. A client's record stands in its log before the client
    /// moves.
    #[inline(always)]
    pub fn turn(&mut self, alloc: Global, actor: Actor) -> Turn
        requires actor { IsActor self.old.plan actor }
        requires goes_on { self.old.stop ≡ None }
        ensures { IsTurn self.old self.new (seen (L.told self.old.rack) (L.keeps self.old.rack) (L.faults self.old.rack)) (seen (L.told self.new.rack) (L.keeps self.new.rack) (L.faults self.new.rack)) actor result }
    {
        let at = self.trace.len() as u32;
        let turn = self
            .core
            .turn(alloc, &mut self.rack, &self.session, actor, at);
        match turn {
            Turn::Moved => self.trace.push(actor),
            Turn::LogFault(client) => self.stop = Some(Stop::LogFault(client)),
            Turn::LogChanged(client, at) => self.stop = Some(Stop::LogChanged(client, at)),
            Turn::Idle | Turn::NoMemory => {}
        }
        turn
    }

    /// Lets the actors take their turns in order, and then the rota again and again, until no client has
    /// anything left to do, or a turn has a fault. A world that has stopped stays as it is.
    pub fn run(&mut self, alloc: Global, actors: &[Actor]) -> End
        requires { All (IsActor self.old.plan) actors.now }
        ensures { IsEnd self.old self.new (seen (L.told self.old.rack) (L.keeps self.old.rack) (L.faults self.old.rack)) (seen (L.told self.new.rack) (L.keeps self.new.rack) (L.faults self.new.rack))
            (driven_from self.old.plan (state_in self.old) actors.now) result }
    {
        if let Some(stop) = self.stop {
            return stop.end();
        }
        match self.take_all(alloc, actors) {
            Ok(()) => self.finish(alloc),
            Err(halt) => halt.end(),
        }
    }

    /// Lets the actors of the rota take their turns again and again, until no client has anything left to
    /// do, or a turn has a fault. A world that has stopped stays as it is.
    pub fn finish(&mut self, alloc: Global) -> End
        ensures { IsEnd self.old self.new (seen (L.told self.old.rack) (L.keeps self.old.rack) (L.faults self.old.rack)) (seen (L.told self.new.rack) (L.keeps self.new.rack) (L.faults self.new.rack))
            (driven_from self.old.plan (state_in self.old) []) result }
    {
        if let Some(stop) = self.stop {
            return stop.end();
        }
        match self.take_rotas(alloc) {
            Ok(()) => End::Finished,
            Err(halt) => halt.end(),
        }
    }

    /// Takes rotas until no client has anything left to do, or a turn has a fault.
    fn take_rotas(&mut self, alloc: Global) -> Result<(), Halt>
        requires { self.old.stop ≡ None }
        ensures { IsTakenOn self.old self.new (seen (L.told self.old.rack) (L.keeps self.old.rack) (L.faults self.old.rack)) (seen (L.told self.new.rack) (L.keeps self.new.rack) (L.faults self.new.rack)) result }
    {
        // Opened for what is true of each world.
        let _ = &self.session;
        'rounds: while !self.finished() {
            self.take_rota(alloc)?;
        }
        Ok(())
    }

    /// Lets all actors take their turns once: recovery, the clients, their ports, and the stages from the
    /// last to the first.
    fn take_rota(&mut self, alloc: Global) -> Result<(), Halt>
        requires { self.old.stop ≡ None }
        ensures { IsTaken self.old self.new (seen (L.told self.old.rack) (L.keeps self.old.rack) (L.faults self.old.rack)) (seen (L.told self.new.rack) (L.keeps self.new.rack) (L.faults self.new.rack)) (rota self.old.plan) result }
    {
        // Opened for what is true of each world.
        let _ = &self.session;
        self.take(alloc, Actor::Recover)?;
        self.take_clients(alloc)?;
        if self.session.layout.as_slice().is_empty() {
            // No tuple is in the switch, so no packet is ever at a port or in a stage.
            return Ok(());
        }
        self.take_ports(alloc)?;
        self.take_stages(alloc)
    }

    fn take_clients(&mut self, alloc: Global) -> Result<(), Halt>
        requires { self.old.stop ≡ None }
        ensures { IsTaken self.old self.new (seen (L.told self.old.rack) (L.keeps self.old.rack) (L.faults self.old.rack)) (seen (L.told self.new.rack) (L.keeps self.new.rack) (L.faults self.new.rack)) (map Client (numbers_below (length self.old.plan.clients))) result }
    {
        for client in 0..self.session.clients() {
            self.take(alloc, Actor::Client(client))?;
        }
        Ok(())
    }

    fn take_ports(&mut self, alloc: Global) -> Result<(), Halt>
        requires { self.old.stop ≡ None }
        ensures { IsTaken self.old self.new (seen (L.told self.old.rack) (L.keeps self.old.rack) (L.faults self.old.rack)) (seen (L.told self.new.rack) (L.keeps self.new.rack) (L.faults self.new.rack)) (map Port (numbers_below (length self.old.plan.clients))) result }
    {
        for client in 0..self.session.clients() {
            self.take(alloc, Actor::Port(client))?;
        }
        Ok(())
    }

    fn take_stages(&mut self, alloc: Global) -> Result<(), Halt>
        requires { self.old.stop ≡ None }
        ensures { IsTaken self.old self.new (seen (L.told self.old.rack) (L.keeps self.old.rack) (L.faults self.old.rack)) (seen (L.told self.new.rack) (L.keeps self.new.rack) (L.faults self.new.rack)) (map Stage (reverse (numbers_below self.old.plan.shape.stages))) result }
    {
        for stage in (0..self.session.shape.stages).rev() {
            self.take(alloc, Actor::Stage(stage))?;
        }
        Ok(())
    }

    fn take_all(&mut self, alloc: Global, actors: &[Actor]) -> Result<(), Halt>
        requires actors { All (IsActor self.old.plan) actors.now }
        requires goes_on { self.old.stop ≡ None }
        ensures { IsTaken self.old self.new (seen (L.told self.old.rack) (L.keeps self.old.rack) (L.faults self.old.rack)) (seen (L.told self.new.rack) (L.keeps self.new.rack) (L.faults self.new.rack)) actors.now result }
    {
        // Opened for what is true of each world.
        let _ = &self.session;
        for actor in actors {
            self.take(alloc, *actor)?;
        }
        Ok(())
    }

    /// Lets an actor take its turn, unless no client has anything left to do.
    #[inline(always)]
    fn take(&mut self, alloc: Global, actor: Actor) -> Result<(), Halt>
        requires actor { IsActor self.old.plan actor }
        requires goes_on { self.old.stop ≡ None }
        ensures { IsTaken self.old self.new (seen (L.told self.old.rack) (L.keeps self.old.rack) (L.faults self.old.rack)) (seen (L.told self.new.rack) (L.keeps self.new.rack) (L.faults self.new.rack)) (actor ∷ []) result }
    {
        if self.finished() {
            return Ok(());
        }
        match self.turn(alloc, actor) {
            Turn::Moved | Turn::Idle => Ok(()),
            Turn::LogFault(client) => Err(Halt::LogFault(client)),
            Turn::LogChanged(client, at) => Err(Halt::LogChanged(client, at)),
            Turn::NoMemory => Err(Halt::NoMemory),
        }
    }

    /// Whether no client has anything left to do, and the switch is up.
    pub fn finished(&self) -> bool
        ensures { IsTrue result ↔ IsFinished (state_in self.now) }
    {
        self.core.is_up && have_finished(self.core.runners.as_slice())
    }

    /// What is run.
    pub fn session(&self) -> &Session
        ensures plan { plan_of result.now ≡ self.now.plan }
        ensures named { self.now.plan ≡ N.session }
        ensures sound { IsSound self.now.plan }
    {
        &self.session
    }

    /// Who moved so far, in order. The state is what the core makes of these moves.
    pub fn trace(&self) -> &[Actor]
        ensures trace { result.now ≡ self.now.trace }
        ensures run { state_of self.now.plan self.now.trace ≡ Some (state_in self.now) }
        ensures reached { IsReached self.now.plan (state_in self.now) }
    {
        self.trace.as_slice()
    }

    /// The entries so far, in stamp order, over the items of the session.
    pub fn history(&self) -> &History
        ensures items { result.now.items ≡ (state_in self.now).history }
        ensures runs { result.now.runs ≡ runs_of self.now.plan }
    {
        &self.core.history
    }

    /// The locks that were refused so far, in order.
    pub fn refusals(&self) -> &[Refusal]
        ensures { result.now ≡ (state_in self.now).refusals }
    {
        self.core.refusals.as_slice()
    }

    /// How the client's item with this number has ended; the number is counted from 1.
    pub fn item_end(&self, client: u8, seq: u32) -> ItemEnd
        requires { IsSome (item_of self.now.plan client seq) }
        ensures { result ≡ ends.item_end self.now.plan (state_in self.now) client seq }
    {
        let present = self.core.runners[client as usize].state.seq;
        match self.session.item(client, seq) {
            Some(Item::Run(_)) => script_end(&self.core.history, client, seq, present),
            Some(Item::Lose) => loss_end(seq, present),
            None => ItemEnd::Pending,
        }
    }

    /// The value that the tuple has now: in its register, where it has a place in the switch, and else on its
    /// host.
    pub fn tuple_now(&self, tuple: TupleId) -> i64
        requires { IsSome (get self.now.plan.tuples tuple) }
        ensures { result ≡ tuple_now self.now.plan (state_in self.now) tuple }
    {
        match self.session.layout.place_of(tuple) {
            Some(place) => self.core.pipeline.register(place),
            None => self.core.store.read(tuple).value,
        }
    }

    /// What the client is about to do.
    pub fn phase(&self, client: u8) -> Phase
        requires { client < length self.now.plan.clients }
        ensures { result ≡ (client_at (state_in self.now) client).phase }
    {
        self.core.runners[client as usize].state.phase
    }

    /// The client whose packet stands in the slot of this stage; None where the slot is empty, or there is no such
    /// stage.
    pub fn slot(&self, stage: u8) -> Option<u8>
        ensures { result ≡ slot_now (state_in self.now) stage }
    {
        self.core.pipeline.slot(stage)
    }

    /// Why no more turns are taken; None where no turn had a fault of its log.
    pub fn stop(&self) -> Option<Stop>
        ensures stop { result ≡ self.now.stop }
        ensures cause { HasStopCause self.now.plan (state_in self.now) self.now.stop N.faults (seen (L.told self.now.rack) (L.keeps self.now.rack) (L.faults self.now.rack)) }
    {
        self.stop
    }

    /// The logs.
    pub fn into_rack(self) -> L
        ensures rack { result ≡ self.rack }
        ensures keeps { IsTrue N.kept → IsTrue (L.keeps self.rack) }
        ensures logs { IsTrue N.kept → LogsMatch self.plan (state_in self) self.stop (seen (L.told self.rack) (L.keeps self.rack) (L.faults self.rack)) }
    {
        self.rack
    }
}

/// The opening of a session and an empty trace, with room for all that may come.
fn room_of(alloc: Global, session: &Session) -> Result<(CoreState, Actors), NoMemory>
    requires { IsSound (plan_of session.now) }
    ensures core { IfOk result (λ room. StandsFor (plan_of session.now) (opening (plan_of session.now)) room.0) }
    ensures trace { IfOk result (λ room. room.1.items ≡ []) }
    ensures space { IfOk result (λ room. move_bound (plan_of session.now) ≤ room.1.spare) }
{
    let core = CoreState::opening(alloc, session)?;
    let trace = Vec::with_capacity(alloc, MOST_MOVES)?;
    Ok((core, Items::of(trace)))
}

/// Whether none of the clients has anything left to do.
fn have_finished(runners: &[Runner]) -> bool
    ensures { result ≡ list_all (λ runner. is_finished runner.state.phase) runners.now }
{
    runners
        .iter()
        .all(|runner| matches!(runner.state.phase, Phase::Finished))
}
