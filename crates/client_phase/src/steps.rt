//! A client's part of each move.

ghost use Rattle.std.specs.Prelude.{◌≡◌, ◌<◌, ◌≤◌, Some, None};
ghost use Rattle.txn_model.specs.ScriptCheck.{script_fault};
ghost use Rattle.catalogue.specs.Plan as plan;
ghost use Rattle.catalogue.specs.Items.{plain_item};
ghost use Rattle.client_phase.specs.Fits.{Fits, FitsMet, HasNoFault, ops_of};
ghost use Rattle.client_phase.specs.NextAction.{next_action};
ghost use Rattle.client_phase.specs.Shown.{plain_client, room_of};
ghost use Rattle.client_phase.specs.Stepped.{asked, stepped};
ghost use Rattle.client_phase.specs.declared.action.Action.TheVariants.{Lock};

use crate::action::{Action, Met};
use crate::client_state::ClientState;
use catalogue::Item;
use core_model::Phase;
use txn_model::Script;
use warm_split::Parts;

/// Makes the client's part of a move: its next action at its present item, which met this. The client has this
/// many items, and this many tries for each; the parts are those of the item's script. Where it takes the answer
/// to its packet, the answer's pairs have been joined into its own. It takes no memory.
pub fn step_client(
    state: &mut ClientState,
    item: &Item,
    items: u32,
    parts: &Parts,
    tries: u8,
    action: Action,
    met: Met,
)
    requires fault { HasNoFault (plain_item item.now) }
    requires fits { Fits parts.now (plain_item item.now) (plain_client state.old) }
    requires room { 16 ≤ room_of state.old }
    requires action { action ≡ next_action parts.now (plain_client state.old) (Some (plain_item item.now)) }
    requires met { FitsMet action met }
    requires tries { state.old.refused < tries }
    requires seq { state.old.seq < 4294967295 }
    requires last_sub { state.old.last.sub < 4294967295 }
    requires met_sub { state.old.met.sub < 4294967295 }
    ensures client { plain_client state.new ≡ stepped parts.now (ops_of (plain_item item.now)) items tries action met (plain_client state.old) }
    ensures room { room_of state.new ≡ room_of state.old }
{
    match item {
        Item::Run(script) => step_script(state, script, items, parts, tries, action, met),
        Item::Lose => state.begin_item(items),
    }
}

fn step_script(
    state: &mut ClientState,
    script: &Script,
    items: u32,
    parts: &Parts,
    tries: u8,
    action: Action,
    met: Met,
)
    requires fit { script_fault script.now.items ≡ None }
    requires fits { Fits parts.now (plan.Run script.now.items) (plain_client state.old) }
    requires room { 16 ≤ room_of state.old }
    requires action { action ≡ next_action parts.now (plain_client state.old) (Some (plan.Run script.now.items)) }
    requires met { FitsMet action met }
    requires tries { state.old.refused < tries }
    requires seq { state.old.seq < 4294967295 }
    requires last_sub { state.old.last.sub < 4294967295 }
    requires met_sub { state.old.met.sub < 4294967295 }
    ensures client { plain_client state.new ≡ stepped parts.now script.now.items items tries action met (plain_client state.old) }
    ensures room { room_of state.new ≡ room_of state.old }
{
    match action {
        Action::Lock(op) => step_lock(state, script, items, parts, tries, op, met),
        Action::Release(_) => state.release(items, tries),
        Action::Decide => state.decide(),
        Action::LogIntent => state.log_intent(script.len() as u8),
        Action::Post => state.phase = Phase::Waiting,
        Action::LogOutcome => {
            if let Met::Answered(number) = met {
                state.answer(script, parts, items, number);
            }
        }
        Action::Install(_) => state.install(script, parts, items),
        Action::Lose | Action::Rest => {}
    }
}

/// It asked for the lock of this operation.
fn step_lock(
    state: &mut ClientState,
    script: &Script,
    items: u32,
    parts: &Parts,
    tries: u8,
    op: u8,
    met: Met,
)
    requires fit { script_fault script.now.items ≡ None }
    requires fits { Fits parts.now (plan.Run script.now.items) (plain_client state.old) }
    requires room { 16 ≤ room_of state.old }
    requires action { Lock op ≡ next_action parts.now (plain_client state.old) (Some (plan.Run script.now.items)) }
    requires tries { state.old.refused < tries }
    requires seq { state.old.seq < 4294967295 }
    ensures client { plain_client state.new ≡ asked parts.now script.now.items items tries op (plain_client state.old) met }
    ensures room { room_of state.new ≡ room_of state.old }
{
    match met {
        Met::Granted(seen) => state.grant(script, parts, op, seen),
        Met::HeldBy(_) => state.abort(items, tries),
        Met::Answered(_) | Met::Done => {}
    }
}
