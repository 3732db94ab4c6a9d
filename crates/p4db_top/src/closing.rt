//! The end of a run: what is printed of it, and its logs.

ghost use Rattle.std.specs.Prelude.{◌≡◌, IsTrue};
ghost use Rattle.port_io.specs.Cause.{HasCause};
ghost use Rattle.fabric_model.specs.Driven.{IsFinished};
ghost use Rattle.fabric_core.specs.Racks.{seen};
ghost use Rattle.fabric_core.specs.RecordTexts.{HasStopCause, LogsMatch};
ghost use Rattle.fabric_core.specs.Running.{state_in};
ghost use Rattle.race_run.specs.Raced.{EndsWith};
ghost use Rattle.p4db_top.specs.Logs.{HasLogCause};
ghost use Rattle.p4db_top.specs.Outputs.{output_text};
ghost use Rattle.p4db_top.specs.Prints.{Written};
ghost use Rattle.p4db_top.specs.Ran.{Closed};

use crate::note::Note;
use crate::output::Output;
use fabric_core::{End, RunName, World};
use port_io::{LogRack, Sink, SinkFault};
use report_text::{write_report, write_summary};
use std::alloc::Global;

/// Prints this of a run that has ended, where it came to its end, and hands its logs back.
pub(crate) fn close<L: LogRack, K: Sink, N: RunName>(
    alloc: Global,
    world: World<L, N>,
    end: End,
    output: Output,
    sink: &mut K,
) -> (Note, L)
    requires ended { EndsWith world end }
    ensures closed { Closed result.0 end (output_text output world.plan (state_in world) world.trace) (K.content sink.old) (K.content sink.new) }
    ensures rack { result.1 ≡ world.rack }
    ensures keeps { IsTrue N.kept → LogsMatch world.plan (state_in world) world.stop (seen (L.told result.1) (L.keeps result.1) (L.faults result.1)) }
    ensures stopped { HasStopCause world.plan (state_in world) world.stop N.faults (seen (L.told result.1) (L.keeps result.1) (L.faults result.1)) }
    ensures write_cause { HasCause (K.faults sink.old) (K.faults sink.new) (result.0 ≡ Note.WriteFault) }
    ensures log_cause { HasLogCause N.faults (L.faults result.1) result.0 }
{
    // What the world keeps: a stop has its cause.
    let _ = world.stop();
    let note = match end {
        End::Finished => print(alloc, &world, output, sink),
        End::LogFault(client) => Note::LogFault(client),
        End::LogChanged(client, at) => Note::LogChanged(client, at),
        End::NoMemory => Note::NoMemory,
    };
    (note, world.into_rack())
}

/// Prints this of a world whose run has come to its end.
fn print<L: LogRack, K: Sink, N: RunName>(
    alloc: Global,
    world: &World<L, N>,
    output: Output,
    sink: &mut K,
) -> Note
    requires finished { IsFinished (state_in world.now) }
    ensures written { Written result (output_text output world.now.plan (state_in world.now) world.now.trace) (K.content sink.old) (K.content sink.new) }
    ensures cause { HasCause (K.faults sink.old) (K.faults sink.new) (result ≡ Note.WriteFault) }
{
    let written = match output {
        Output::Report => write_report(alloc, world, sink),
        Output::Summary => write_summary(alloc, world, sink),
    };
    match written {
        Ok(()) => Note::Done,
        Err(SinkFault::Failed) => Note::WriteFault,
        Err(SinkFault::NoMemory) => Note::NoMemory,
    }
}
