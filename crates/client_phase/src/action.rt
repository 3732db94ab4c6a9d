//! What a client does next, and what it meets.

ghost use Rattle.std.specs.Prelude.{◌≡◌, ◌<◌, length, Some, None};
ghost use Rattle.std.specs.Option.{option_map};
ghost use Rattle.txn_model.specs.ScriptCheck.{script_fault};
ghost use Rattle.catalogue.specs.Plan as plan;
ghost use Rattle.catalogue.specs.Items.{plain_item};
ghost use Rattle.client_phase.specs.Fits.{Fits, FitsAny};
ghost use Rattle.client_phase.specs.NextAction.{locks_or_goes_on, next_action, script_action};
ghost use Rattle.client_phase.specs.Shown.{plain_client};

use crate::client_state::ClientState;
use crate::cold_numbers::{cold_count, cold_number};
use catalogue::Item;
use core_model::Phase;
use txn_model::{Script, Seen};
use warm_split::Parts;

/// What a client does next. The numbers are operations of its script, counted from 0.
#[derive(Clone, Copy, Debug, PartialEq, Eq)]
pub enum Action {
    /// Ask for the lock of this operation.
    Lock(u8),
    /// Release the lock of this operation, and install nothing.
    Release(u8),
    /// Decide: all operations are on hosts, and all locks are held.
    Decide,
    /// Write into its log what it is about to do in the switch: all locks are held.
    LogIntent,
    /// Post the packet that its log has.
    Post,
    /// Take the answer to its packet, and write into its log what came of it.
    LogOutcome,
    /// Install the value of this operation, and release its lock.
    Install(u8),
    /// Make the switch lose all that it holds.
    Lose,
    /// Nothing.
    Rest,
}

/// What the others answer to a client's action.
#[derive(Clone, Copy, Debug, PartialEq, Eq)]
pub enum Met {
    /// The lock is granted, and this was read with it.
    Granted(Seen),
    /// The lock is refused, since this client holds one that clashes.
    HeldBy(u8),
    /// The packet has this number.
    Answered(u64),
    /// Nothing: the action was done.
    Done,
}

/// What the client does next at its present item; one without an item rests. The parts are those of the item's
/// script. It takes no memory.
pub fn action_of(state: &ClientState, item: Option<&Item>, parts: &Parts) -> Action
    requires { FitsAny parts.now (plain_client state.now) (option_map (λ item. plain_item item.now) item) }
    ensures { result ≡ next_action parts.now (plain_client state.now) (option_map (λ item. plain_item item.now) item.entry) }
{
    match item {
        Some(Item::Run(script)) => script_action(state, script, parts),
        Some(Item::Lose) => Action::Lose,
        None => Action::Rest,
    }
}

fn script_action(state: &ClientState, script: &Script, parts: &Parts) -> Action
    requires fit { script_fault script.now.items ≡ None }
    requires fits { Fits parts.now (plan.Run script.now.items) (plain_client state.now) }
    ensures { result ≡ script_action parts.now script.now.items (plain_client state.now) state.now.phase }
{
    match state.phase {
        Phase::Ready | Phase::Locking => lock_or_go_on(state.locked, script, parts),
        Phase::Aborting => Action::Release(cold_number(script, parts, state.locked - 1)),
        Phase::Logged => Action::Post,
        Phase::Waiting => Action::LogOutcome,
        Phase::Installing => Action::Install(cold_number(script, parts, state.installed)),
        Phase::Finished => Action::Rest,
    }
}

/// What a client with so many locks does, which doesn't abort.
fn lock_or_go_on(locked: u8, script: &Script, parts: &Parts) -> Action
    requires fit { script_fault script.now.items ≡ None }
    ensures { result ≡ locks_or_goes_on parts.now script.now.items locked }
{
    let count = cold_count(script, parts);
    if locked < count {
        Action::Lock(cold_number(script, parts, locked))
    } else if usize::from(count) == script.len() {
        Action::Decide
    } else {
        Action::LogIntent
    }
}
