//! The whole report of a world.

ghost use Rattle.std.specs.Prelude.{◌≡◌, Some, IfOk, OnOk, OnErr, IsErrOf, string_bytes};
ghost use Rattle.std.specs.Io.KnownBytes.{Appends};
ghost use Rattle.fabric_model.specs.Driven.{IsFinished};
ghost use Rattle.fabric_model.specs.Run.{state_of};
ghost use Rattle.fabric_core.specs.Running.{state_in};
ghost use Rattle.port_io.specs.Cause.{HasCause};
ghost use Rattle.port_io.specs.WriteAll.{AppendsFront};
ghost use Rattle.report_text.specs.ReportText.{report};
ghost use Rattle.report_text.specs.RunReport.{run_report};

use crate::line::push_schedule;
use crate::reply::push_replies;
use crate::section::{push_history, push_tuples};
use fabric_core::{RunName, World};
use port_io::{LogRack, Sink, SinkFault, write_all};
use std::alloc::Global;
use txn_model::NoMemory;

/// Writes the report of a finished run to a sink, in one piece.
///
/// After a fault a front of it stands. `NoMemory` comes where memory ran out, before or while it is
/// written; `Failed` only where the sink's count of failures rose.
pub fn write_report<L: LogRack, N: RunName, K: Sink>(
    alloc: Global,
    world: &World<L, N>,
    sink: &mut K,
) -> Result<(), SinkFault>
    requires finished { IsFinished (state_in world.now) }
    ensures run { state_of world.now.plan world.now.trace ≡ Some (state_in world.now) }
    ensures ok { OnOk result (Appends (K.content sink.old) (K.content sink.new)
        (report (run_report world.now.plan (state_in world.now) world.now.trace))) }
    ensures err { OnErr result (AppendsFront (K.content sink.old) (K.content sink.new)
        (report (run_report world.now.plan (state_in world.now) world.now.trace))) }
    ensures cause { HasCause (K.faults sink.old) (K.faults sink.new) (IsErrOf result SinkFault.Failed) }
{
    // What the world keeps: its trace is one of moves.
    let _ = world.trace();
    let Ok(text) = report_text(alloc, world) else {
        return Err(SinkFault::NoMemory);
    };
    write_all(alloc, sink, text.as_bytes())
}

/// The text of a world's report.
#[tactic(auto, unfolding(crate::specs::ReportText::report))]
fn report_text<L: LogRack, N: RunName>(
    alloc: Global,
    world: &World<L, N>,
) -> Result<String, NoMemory>
    ensures { IfOk result (λ text. string_bytes text
        ≡ report (run_report world.now.plan (state_in world.now) world.now.trace)) }
{
    let mut text = String::new(alloc);
    push_replies(alloc, &mut text, world)?;
    push_history(&mut text, world.history())?;
    push_tuples(&mut text, world)?;
    push_schedule(&mut text, world.trace())?;
    Ok(text)
}
