//! The summary of a world: how its items ended, how many moves were made, and the sum of its tuples.

ghost use Rattle.std.specs.Prelude.{◌≡◌, ◌++◌, ◌<◌, Some, IsSome, IfOk, OnOk, OnErr, IsErrOf, length, string_bytes};
ghost use Rattle.std.specs.Io.KnownBytes.{Appends};
ghost use Rattle.std.specs.List.{count_by};
ghost use Rattle.catalogue.specs.Plan.{item_of, kind_of, script_at};
ghost use Rattle.catalogue.specs.PlanOf.{plan_of};
ghost use Rattle.fabric_model.specs.Driven.{IsFinished};
ghost use Rattle.fabric_model.specs.Run.{state_of};
ghost use Rattle.fabric_core.specs.Running.{state_in};
ghost use Rattle.port_io.specs.Cause.{HasCause};
ghost use Rattle.port_io.specs.WriteAll.{AppendsFront};
ghost use Rattle.txn_model.specs.Number.{wrap};
ghost use Rattle.report_text.specs.RunReport.{tuples_told};
ghost use Rattle.report_text.specs.Summary as definition;
ghost use Rattle.report_text.specs.Summary.{ended, client_ends, all_ends, is_committed, is_aborted, is_lost, run_summary, sum_of, total_line};

use crate::line::push_count;
use catalogue::{Kind, Session};
use fabric_core::{ItemEnd, RunName, World};
use port_io::{LogRack, Sink, SinkFault, write_all};
use std::alloc::Global;
use txn_model::{NoMemory, plus};

/// Writes the summary of a finished run to a sink, in one piece.
///
/// After a fault a front of it stands. `NoMemory` comes where memory ran out, before or while it is
/// written; `Failed` only where the sink's count of failures rose.
pub fn write_summary<L: LogRack, N: RunName, K: Sink>(
    alloc: Global,
    world: &World<L, N>,
    sink: &mut K,
) -> Result<(), SinkFault>
    requires finished { IsFinished (state_in world.now) }
    ensures run { state_of world.now.plan world.now.trace ≡ Some (state_in world.now) }
    ensures ok { OnOk result (Appends (K.content sink.old) (K.content sink.new)
        (definition.summary_text (run_summary world.now.plan (state_in world.now) world.now.trace))) }
    ensures err { OnErr result (AppendsFront (K.content sink.old) (K.content sink.new)
        (definition.summary_text (run_summary world.now.plan (state_in world.now) world.now.trace))) }
    ensures cause { HasCause (K.faults sink.old) (K.faults sink.new) (IsErrOf result SinkFault.Failed) }
{
    // What the world keeps: its trace is one of moves.
    let _ = world.trace();
    let Ok(text) = summary_text(alloc, world) else {
        return Err(SinkFault::NoMemory);
    };
    write_all(alloc, sink, text.as_bytes())
}

/// The text of a world's summary.
#[tactic(auto, unfolding(crate::specs::Summary::summary_text))]
fn summary_text<L: LogRack, N: RunName>(
    alloc: Global,
    world: &World<L, N>,
) -> Result<String, NoMemory>
    ensures { IfOk result (λ text. string_bytes text
        ≡ definition.summary_text (run_summary world.now.plan (state_in world.now) world.now.trace)) }
{
    let ends = ends_of(alloc, world)?;
    let mut text = String::new(alloc);
    push_count(&mut text, "hot", committed(&ends, Kind::Hot))?;
    push_count(&mut text, "warm", committed(&ends, Kind::Warm))?;
    push_count(&mut text, "cold", committed(&ends, Kind::Cold))?;
    push_count(&mut text, "aborted", aborted(&ends))?;
    push_count(&mut text, "lost", lost(&ends))?;
    push_count(&mut text, "moves", world.trace().len())?;
    push_total(&mut text, total(world))?;
    Ok(text)
}

/// The kind of each item, and how it ended, by client, then by number.
fn ends_of<L: LogRack, N: RunName>(
    alloc: Global,
    world: &World<L, N>,
) -> Result<Vec<(Kind, ItemEnd)>, NoMemory>
    ensures { IfOk result (λ ends. ends.items ≡ all_ends world.now.plan (state_in world.now)) }
{
    let mut ends = Vec::new(alloc);
    for client in 0..world.session().clients() {
        push_ends(&mut ends, world, client)?;
    }
    Ok(ends)
}

/// Adds those of a client.
fn push_ends<L: LogRack, N: RunName>(
    ends: &mut Vec<(Kind, ItemEnd)>,
    world: &World<L, N>,
    client: u8,
) -> Result<(), NoMemory>
    requires { client < length world.now.plan.clients }
    ensures { OnOk result (ends.new.items ≡ ends.old.items ++ client_ends world.now.plan (state_in world.now) client) }
{
    for i in 0..world.session().items(client) {
        ends.push(ended(world, client, i + 1))?;
    }
    Ok(())
}

/// That of an item.
fn ended<L: LogRack, N: RunName>(world: &World<L, N>, client: u8, seq: u32) -> (Kind, ItemEnd)
    requires { IsSome (item_of world.now.plan client seq) }
    ensures { result ≡ ended world.now.plan (state_in world.now) client seq }
{
    let kind = kind_at(world.session(), client, seq);
    (kind, world.item_end(client, seq))
}

/// The kind of a client's item; a loss of the switch touches no tuple on a host.
fn kind_at(session: &Session, client: u8, seq: u32) -> Kind
    ensures { result ≡ kind_of (plan_of session.now).layout (script_at (plan_of session.now) client seq) }
{
    match session.script(client, seq) {
        Some(script) => session.kind_of(script),
        None => Kind::Hot,
    }
}

/// How many transactions of this kind were committed.
fn committed(ends: &[(Kind, ItemEnd)], kind: Kind) -> usize
    ensures { result ≡ count_by (is_committed kind) ends.now }
{
    ends.iter().filter(|end| is_committed(kind, **end)).count()
}

/// How many transactions were given up.
fn aborted(ends: &[(Kind, ItemEnd)]) -> usize
    ensures { result ≡ count_by is_aborted ends.now }
{
    ends.iter().filter(|end| is_aborted(**end)).count()
}

/// How many items were losses of the switch.
fn lost(ends: &[(Kind, ItemEnd)]) -> usize
    ensures { result ≡ count_by is_lost ends.now }
{
    ends.iter().filter(|end| is_lost(**end)).count()
}

/// Whether it is a transaction of this kind, and was committed.
fn is_committed(kind: Kind, ended: (Kind, ItemEnd)) -> bool
    ensures { result ≡ is_committed kind ended }
{
    matches!(
        (kind, ended.0, ended.1),
        (Kind::Hot, Kind::Hot, ItemEnd::Committed(_))
            | (Kind::Warm, Kind::Warm, ItemEnd::Committed(_))
            | (Kind::Cold, Kind::Cold, ItemEnd::Committed(_))
    )
}

/// Whether it was given up.
fn is_aborted(ended: (Kind, ItemEnd)) -> bool
    ensures { result ≡ is_aborted ended }
{
    matches!(ended.1, ItemEnd::Aborted)
}

/// Whether it was a loss of the switch.
fn is_lost(ended: (Kind, ItemEnd)) -> bool
    ensures { result ≡ is_lost ended }
{
    matches!(ended.1, ItemEnd::Lost)
}

/// The wrapped sum of all tuples.
fn total<L: LogRack, N: RunName>(world: &World<L, N>) -> i64
    ensures { result ≡ wrap (sum_of (tuples_told world.now.plan (state_in world.now))) }
{
    let mut total = 0i64;
    for (tuple, _) in world.session().tuples.rows() {
        total = plus(total, world.tuple_now(*tuple));
    }
    total
}

/// Appends the line of the sum of all tuples. After `NoMemory` a part of it may have been appended.
#[tactic(auto, unfolding(crate::specs::Summary::total_line))]
fn push_total(text: &mut String, total: i64) -> Result<(), NoMemory>
    ensures { OnOk result (string_bytes text.new ≡ string_bytes text.old ++ total_line total) }
{
    write!(text, "total {total}\n")?;
    Ok(())
}
