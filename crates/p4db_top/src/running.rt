//! The command `run`.

ghost use Rattle.std.specs.Prelude.{◌≡◌, ◌≢◌, All, List};
ghost use Rattle.port_io.specs.Cause.{HasCause};
ghost use Rattle.catalogue.specs.Plan.{Plan};
ghost use Rattle.catalogue.specs.PlanOf.{plan_of};
ghost use Rattle.catalogue.specs.Sound.{IsActor, IsSound};
ghost use Rattle.catalogue.specs.declared.actor.Actor.{Actor};
ghost use Rattle.fabric_core.specs.Racks.{seen};
ghost use Rattle.p4db_top.specs.Commands.{listed_by};
ghost use Rattle.p4db_top.specs.Headline.{Explains};
ghost use Rattle.p4db_top.specs.Logs.{HasLogCause, IsOfNoRun};
ghost use Rattle.p4db_top.specs.Order.{Driven};
ghost use Rattle.p4db_top.specs.Ran.{Ran, begin_note};

use crate::closing::close;
use crate::listed::actors_of;
use crate::note::Note;
use crate::output::Output;
use crate::reading::session_of;
use catalogue::{Actor, Session};
use fabric_core::{BeginFault, RunName, World};
use port_io::{LogRack, Sink, Source};
use session_reader::SessionFault;
use std::alloc::Global;
use std::marker::Brand;
use words_cli::Draws;

/// The command `run`: reads a session, runs it by its schedule or by drawn actors, prints its report, and hands
/// the logs back.
pub(crate) fn run<S: Source, K: Sink, L: LogRack>(
    alloc: Global,
    source: &mut S,
    sink: &mut K,
    rack: L,
    draws: Option<Draws>,
) -> (Note, L)
    ensures explained { Explains (Driven (listed_by draws)) result.0 (S.left source.old) (S.left source.new) (K.content sink.old) (K.content sink.new)
        (seen (L.told rack) (L.keeps rack) (L.faults rack)) (seen (L.told result.1) (L.keeps result.1) (L.faults result.1)) }
    ensures told { result.0 ≢ Note.Session SessionFault.NoMemory }
    ensures read_cause { HasCause (S.faults source.old) (S.faults source.new) (result.0 ≡ Note.ReadFault) }
    ensures write_cause { HasCause (K.faults sink.old) (K.faults sink.new) (result.0 ≡ Note.WriteFault) }
    ensures log_cause { HasLogCause (L.faults rack) (L.faults result.1) result.0 }
    ensures untouched { IsOfNoRun result.0 → result.1 ≡ rack }
{
    let session = match session_of(alloc, source) {
        Ok(session) => session,
        Err(note) => return (note, rack),
    };

    // The world takes the session, and its schedule with it.
    let Ok(actors) = actors_of(alloc, &session, draws) else {
        return (Note::NoMemory, rack);
    };
    run_named::<L, K, Brand>(
        alloc,
        session,
        actors.as_slice(),
        Output::Report,
        sink,
        rack,
    )
}

/// Runs a session by these actors and then by the rota, prints this of its run, and hands the logs back.
pub(crate) fn run_named<L: LogRack, K: Sink, N: RunName>(
    alloc: Global,
    session: Session,
    actors: &[Actor],
    output: Output,
    sink: &mut K,
    rack: L,
) -> (Note, L)
    requires sound { IsSound (plan_of session) }
    requires named { plan_of session ≡ N.session }
    requires faults { L.faults rack ≡ N.faults }
    requires kept { L.keeps rack ≡ N.kept }
    requires actors { All (IsActor (plan_of session)) actors.now }
    ensures ran { (listed : Plan → List Actor) → actors.now ≡ listed (plan_of session) → Ran (Driven listed) output result.0 (plan_of session) (K.content sink.old) (K.content sink.new)
        (seen (L.told rack) (L.keeps rack) (L.faults rack)) (seen (L.told result.1) (L.keeps result.1) (L.faults result.1)) }
    ensures read { result.0 ≢ Note.ReadFault }
    ensures told { result.0 ≢ Note.Session SessionFault.NoMemory }
    ensures write_cause { HasCause (K.faults sink.old) (K.faults sink.new) (result.0 ≡ Note.WriteFault) }
    ensures log_cause { HasLogCause (L.faults rack) (L.faults result.1) result.0 }
    ensures untouched { IsOfNoRun result.0 → result.1 ≡ rack }
{
    let mut world = match World::<L, N>::begin(alloc, session, rack) {
        Ok(world) => world,
        Err((rack, fault)) => return (note_of(fault), rack),
    };
    let end = world.run(alloc, actors);

    // What the world keeps: its trace is one of moves.
    let _ = world.trace();
    close(alloc, world, end, output, sink)
}

/// Why no run began.
pub(crate) fn note_of(fault: BeginFault) -> Note
    ensures { result ≡ begin_note fault }
{
    match fault {
        BeginFault::LogFault(client) => Note::LogFault(client),
        BeginFault::NoMemory => Note::NoMemory,
    }
}
