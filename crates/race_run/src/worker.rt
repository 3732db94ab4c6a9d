//! What one worker does: it lets its actors take their turns, round by round.

ghost use Rattle.std.specs.Prelude.{◌≡◌, ◌<◌, ◌≤◌};
ghost use Rattle.catalogue.specs.Sound.{IsActor};
ghost use Rattle.fabric_core.specs.Running.{state_in};
ghost use Rattle.race_run.specs.Places.{AreOf};

use crate::places::Places;
use catalogue::Actor;
use client_gate::Gate;
use fabric_core::{RunName, Turn, World};
use port_io::LogRack;
use std::alloc::Global;
use std::sync::{Mutex, Wait};

/// After so many rounds of its actors in which none could move, a worker ends.
const IDLE_ROUNDS: u8 = 64;

/// What a worker knows behind a turn, or behind a round of turns.
#[derive(Clone, Copy, Debug, PartialEq, Eq)]
pub(crate) enum Progress {
    /// An actor moved.
    Moved,
    /// None could move.
    Idle,
    /// Nothing is left to do.
    Ended,
}

/// The share of one of so many workers: the actors whose places in the rota are its number, counted modulo how
/// many workers there are.
#[derive(Clone, Copy, Debug, PartialEq, Eq)]
pub(crate) struct Share {
    pub(crate) places: Places,
    pub(crate) worker: u8,
    pub(crate) workers: u8,
}

/// One turn of an actor, and whether anything is left to do behind it. A world that has stopped takes none.
fn take_turn<L: LogRack, N: RunName>(
    alloc: Global,
    world: &mut World<L, N>,
    actor: Actor,
) -> Progress
    requires { IsActor N.session actor }
{
    // Opened for what is true of each world.
    let _ = world.session();
    if world.stop().is_some() {
        return Progress::Ended;
    }
    let turn = world.turn(alloc, actor);
    if world.finished() {
        return Progress::Ended;
    }
    match turn {
        Turn::Moved => Progress::Moved,
        Turn::Idle => Progress::Idle,
        Turn::LogFault(_) | Turn::LogChanged(..) | Turn::NoMemory => Progress::Ended,
    }
}

/// Lets each of the share's actors take one turn, each in a hold of the lock of its own.
fn take_round<R: Wait, L: LogRack, N: RunName, G: Gate>(
    rt: &R,
    alloc: Global,
    world: &Mutex<World<L, N>>,
    gate: &G,
    share: Share,
) -> Progress
    requires places { AreOf N.session share.places }
    requires some { 1 ≤ share.workers }
{
    let mut progress = Progress::Idle;
    let mut place = share.worker as usize;
    while place < share.places.count() {
        let actor = share.places.actor(place);
        gate.before(share.worker, actor);
        match take_turn(alloc, &mut world.lock(rt), actor) {
            Progress::Moved => progress = Progress::Moved,
            Progress::Idle => {}
            Progress::Ended => return Progress::Ended,
        }
        place += share.workers as usize;
    }
    progress
}

/// Lets the share's actors take their turns, until nothing is left to do, or none of them has moved for many
/// rounds.
pub(crate) fn work<R: Wait, L: LogRack, N: RunName, G: Gate>(
    rt: &R,
    alloc: Global,
    world: &Mutex<World<L, N>>,
    gate: &G,
    share: Share,
)
    requires places { AreOf N.session share.places }
    requires some { 1 ≤ share.workers }
{
    let mut idle = 0;
    for _ in rt.forever() {
        match take_round(rt, alloc, world, gate, share) {
            Progress::Moved => idle = 0,
            Progress::Idle => idle += 1,
            Progress::Ended => return,
        }
        if idle >= IDLE_ROUNDS {
            return;
        }
    }
}
