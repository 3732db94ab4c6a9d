//! A run by many threads.

ghost use Rattle.std.specs.Prelude.{◌≡◌, ◌<◌, ◌≤◌, [], None};
ghost use Rattle.fabric_core.specs.Racks.{seen};
ghost use Rattle.fabric_core.specs.RecordTexts.{HasStopCause};
ghost use Rattle.fabric_core.specs.Running.{Running, state_in};
ghost use Rattle.race_run.specs.Places.{AreOf};
ghost use Rattle.race_run.specs.Raced.{IsRaced};

use crate::places::Places;
use crate::worker::{Share, work};
use client_gate::Gate;
use fabric_core::{End, RunName, World};
use port_io::LogRack;
use std::alloc::Global;
use std::marker::{Send, Sync};
use std::sync::{Mutex, Wait};
use std::thread;
use std::thread::Threads;

/// Lets so many workers, 1 to 8, take the turns of a world, and then finishes it on the caller's thread. Worker w
/// takes the actors whose places in the rota are w modulo the number of workers; before each turn it passes the
/// gate. A worker ends when nothing is left to do, when the world has stopped or a turn found no memory, or when
/// none of its actors has moved for 64 rounds. Where a thread or memory for it can't be had, its work is the
/// caller's. What is answered is how the caller's part ended: a fault of a log stands only where the rack has
/// counted a failure since the run began, and a changed log only where the switch was lost, and a log that the
/// rack tells is not the text of its records.
///
/// What is promised holds if the call returns: threads wait for each other.
pub fn race<R: Threads + Wait + Sync, L: LogRack + Send, N: RunName + Send, G: Gate + Sync>(
    rt: &R,
    alloc: Global,
    world: World<L, N>,
    threads: u8,
    gate: &G,
) -> (World<L, N>, End)
    requires some { 1 ≤ threads }
    requires few { threads ≤ 8 }
    requires goes_on { world.stop ≡ None }
    ensures raced { IsRaced N.session result.0 result.1 }
    ensures cause { HasStopCause N.session (state_in result.0) result.0.stop N.faults (seen (L.told result.0.rack) (L.keeps result.0.rack) (L.faults result.0.rack)) }
{
    let places = Places::of(world.session());
    let shared = Mutex::new(world);
    let _ = thread::map_indices(
        rt,
        alloc,
        threads as usize,
        &|worker: usize| -> ()
            requires places { AreOf N.session places }
            requires some { 1 ≤ threads }
            requires few { threads ≤ 8 }
            requires within { worker < threads }
        {
            let share = Share {
                places,
                worker: worker as u8,
                workers: threads,
            };
            work(rt, alloc, &shared, gate, share)
        },
    );
    let mut world = shared.into_inner();
    let end = world.finish(alloc);
    // What the world keeps: it is a run of its session, and its trace one of moves.
    let _ = world.session();
    let _ = world.trace();
    let _ = world.stop();
    (world, end)
}
