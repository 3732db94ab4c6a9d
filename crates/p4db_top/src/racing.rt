//! The command `race`.

ghost use Rattle.std.specs.Prelude.{◌≡◌, ◌≢◌, ◌≤◌};
ghost use Rattle.port_io.specs.Cause.{HasCause};
ghost use Rattle.catalogue.specs.PlanOf.{plan_of};
ghost use Rattle.catalogue.specs.Sound.{IsSound};
ghost use Rattle.fabric_core.specs.Racks.{seen};
ghost use Rattle.p4db_top.specs.Headline.{Explains};
ghost use Rattle.p4db_top.specs.Logs.{HasLogCause, IsOfNoRun};
ghost use Rattle.p4db_top.specs.declared.output.Output.{Output};
ghost use Rattle.p4db_top.specs.Order.{Raced};
ghost use Rattle.p4db_top.specs.Ran.{Ran};

use crate::closing::close;
use crate::note::Note;
use crate::output::Output;
use crate::reading::session_of;
use crate::running::note_of;
use catalogue::Session;
use client_gate::Gate;
use fabric_core::{RunName, World};
use port_io::{LogRack, Sink, Source};
use race_run::race;
use session_reader::SessionFault;
use std::alloc::Global;
use std::marker::{Brand, Send, Sync};
use std::sync::Wait;
use std::thread::Threads;

/// The command `race`: reads a session, lets threads take its turns, prints its report, and hands the logs back.
pub(crate) fn race_session<
    R: Threads + Wait + Sync,
    S: Source,
    K: Sink,
    L: LogRack + Send,
    G: Gate + Sync,
>(rt: &R, alloc: Global, source: &mut S, sink: &mut K, rack: L, threads: u8, gate: &G) -> (Note, L)
    requires some { 1 ≤ threads }
    requires few { threads ≤ 8 }
    ensures explained { Explains Raced result.0 (S.left source.old) (S.left source.new) (K.content sink.old) (K.content sink.new)
        (seen (L.told rack) (L.keeps rack) (L.faults rack)) (seen (L.told result.1) (L.keeps result.1) (L.faults result.1)) }
    ensures told { result.0 ≢ Note.Session SessionFault.NoMemory }
    ensures read_cause { HasCause (S.faults source.old) (S.faults source.new) (result.0 ≡ Note.ReadFault) }
    ensures write_cause { HasCause (K.faults sink.old) (K.faults sink.new) (result.0 ≡ Note.WriteFault) }
    ensures log_cause { HasLogCause (L.faults rack) (L.faults result.1) result.0 }
    ensures untouched { IsOfNoRun result.0 → result.1 ≡ rack }
{
    match session_of(alloc, source) {
        Ok(session) => race_named::<R, L, K, Brand, G>(
            rt, alloc, session, sink, rack, threads, gate,
        ),
        Err(note) => (note, rack),
    }
}

/// Lets threads take the turns of a session, prints the report of its run, and hands the logs back.
fn race_named<
    R: Threads + Wait + Sync,
    L: LogRack + Send,
    K: Sink,
    N: RunName + Send,
    G: Gate + Sync,
>(
    rt: &R,
    alloc: Global,
    session: Session,
    sink: &mut K,
    rack: L,
    threads: u8,
    gate: &G,
) -> (Note, L)
    requires sound { IsSound (plan_of session) }
    requires named { plan_of session ≡ N.session }
    requires faults { L.faults rack ≡ N.faults }
    requires kept { L.keeps rack ≡ N.kept }
    requires some { 1 ≤ threads }
    requires few { threads ≤ 8 }
    ensures ran { Ran Raced Output.Report result.0 (plan_of session) (K.content sink.old) (K.content sink.new)
        (seen (L.told rack) (L.keeps rack) (L.faults rack)) (seen (L.told result.1) (L.keeps result.1) (L.faults result.1)) }
    ensures write_cause { HasCause (K.faults sink.old) (K.faults sink.new) (result.0 ≡ Note.WriteFault) }
    ensures log_cause { HasLogCause (L.faults rack) (L.faults result.1) result.0 }
    ensures untouched { IsOfNoRun result.0 → result.1 ≡ rack }
{
    let world = match World::<L, N>::begin(alloc, session, rack) {
        Ok(world) => world,
        Err((rack, fault)) => return (note_of(fault), rack),
    };
    let (world, end) = race(rt, alloc, world, threads, gate);
    close(alloc, world, end, Output::Report, sink)
}
