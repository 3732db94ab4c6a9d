//! The clients' records as what their logs should say, in copies: the search for an order takes these.

ghost use Rattle.std.specs.Prelude.{◌≡◌, map, IfOk};
ghost use Rattle.switch_packet.specs.Packets.{plain, plain_intent, plain_log, plain_outcome};
ghost use Rattle.fabric_core.specs.Recovering as recovering;

use log_records::ClientLog;
use std::alloc::Global;
use switch_packet::{Intent, Intents, LogView, Outcome, Outcomes, Packet};
use txn_model::{NoMemory, Pairs};

/// What each log should say, in order.
pub(crate) fn views_of(alloc: Global, logs: &[ClientLog]) -> Result<Vec<LogView>, NoMemory>
    ensures { IfOk result (λ views. map plain_log views.items ≡ map recovering.view_of logs.now) }
{
    let mut views = Vec::with_capacity(alloc, logs.len())?;
    for log in logs {
        views.push(view_of(alloc, log)?)?;
    }
    Ok(views)
}

fn view_of(alloc: Global, log: &ClientLog) -> Result<LogView, NoMemory>
    ensures { IfOk result (λ view. plain_log view ≡ recovering.view_of log.now) }
{
    Ok(LogView {
        intents: copied_intents(alloc, log.intents())?,
        outcomes: copied_outcomes(alloc, log.outcomes())?,
        torn: false,
    })
}

fn copied_intents(alloc: Global, intents: &[Intent]) -> Result<Intents, NoMemory>
    ensures { IfOk result (λ copies. map plain_intent copies.items ≡ map plain_intent intents.now) }
{
    let mut copies = Vec::with_capacity(alloc, intents.len())?;
    for intent in intents {
        copies.push(copied_intent(alloc, intent)?)?;
    }
    Ok(Intents::of(copies))
}

fn copied_intent(alloc: Global, intent: &Intent) -> Result<Intent, NoMemory>
    ensures { IfOk result (λ copy. plain_intent copy ≡ plain_intent intent.now) }
{
    Ok(Intent {
        floor: intent.floor,
        packet: copied_packet(alloc, &intent.packet)?,
    })
}

fn copied_packet(alloc: Global, packet: &Packet) -> Result<Packet, NoMemory>
    ensures { IfOk result (λ copy. plain copy ≡ plain packet.now) }
{
    Ok(Packet {
        client: packet.client,
        seq: packet.seq,
        passes: packet.passes,
        halves: packet.halves,
        ops: packet.ops.copy(alloc)?,
    })
}

fn copied_outcomes(alloc: Global, outcomes: &[Outcome]) -> Result<Outcomes, NoMemory>
    ensures { IfOk result (λ copies. map plain_outcome copies.items ≡ map plain_outcome outcomes.now) }
{
    let mut copies = Vec::with_capacity(alloc, outcomes.len())?;
    for outcome in outcomes {
        copies.push(copied_outcome(alloc, outcome)?)?;
    }
    Ok(Outcomes::of(copies))
}

fn copied_outcome(alloc: Global, outcome: &Outcome) -> Result<Outcome, NoMemory>
    ensures { IfOk result (λ copy. plain_outcome copy ≡ plain_outcome outcome.now) }
{
    Ok(Outcome {
        seq: outcome.seq,
        number: outcome.number,
        pairs: Pairs::of(Vec::from_slice(alloc, outcome.pairs.as_slice())?),
    })
}
