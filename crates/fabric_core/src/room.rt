//! How much room the run of a session takes.

ghost use Rattle.std.specs.Prelude.{◌≡◌, ◌<◌, ◌-◌, ◌+◌, ◌^◌, All};
ghost use Rattle.catalogue.specs.Items.{plain_items};
ghost use Rattle.catalogue.specs.PlanOf.{plan_of};
ghost use Rattle.catalogue.specs.Sound.{IsSound, IsFit, IsFitItem, item_count};
ghost use Rattle.fabric_model.specs.Bound as bound;
ghost use Rattle.warm_split.specs.OpSet.{members};
ghost use Rattle.warm_split.specs.Parts.{IsParts};

use catalogue::{Item, Session};
use txn_model::Script;
use warm_split::{OpSet, Parts, hot_plan, split};

/// No run of any session makes more moves. To reserve so many is cheaper than to sum up a session's own
/// bound, for which each operation is looked up; of what is reserved nothing is touched before it is used.
pub(crate) const MOST_MOVES: usize = 2_039_808;

/// A bound on the moves of a run, as a sum over the session's items: no run makes more.
pub fn move_bound(session: &Session) -> u32
    requires { IsSound (plan_of session.now) }
    ensures { result ≡ bound.move_bound (plan_of session.now) }
{
    let mut moves = 0;
    for client in 0..session.clients() {
        moves += items_bound(session, session.clients.items(client));
    }
    moves
}

/// The most moves of a client's items.
fn items_bound(session: &Session, items: &[Item]) -> u32
    requires sound { IsSound (plan_of session.now) }
    requires fit { All (IsFitItem (plan_of session.now)) (plain_items items.now) }
    requires small { bound.items_bound (plan_of session.now) (plain_items items.now) < 2 ^ 32 }
    ensures { result ≡ bound.items_bound (plan_of session.now) (plain_items items.now) }
{
    let mut moves = 0;
    for item in items {
        moves += match item {
            Item::Run(script) => script_bound(session, script),
            Item::Lose => 2,
        };
    }
    moves
}

/// The most moves of a transaction: each refused try takes all locks but one, is refused that one and gives
/// the others back; the last try takes all locks, commits, and installs all values.
fn script_bound(session: &Session, script: &Script) -> u32
    requires sound { IsSound (plan_of session.now) }
    requires fit { IsFit (plan_of session.now) script.now.items }
    requires small { bound.script_bound (plan_of session.now) (session.now.tries - 1) script.now.items < 2 ^ 32 }
    ensures { result ≡ bound.script_bound (plan_of session.now) (session.now.tries - 1) script.now.items }
{
    match split(script, &session.layout) {
        Ok(parts) => {
            let twice = 2 * others(parts.hot, script.len() as u8);
            let refused = u32::from(session.tries.saturating_sub(1));
            refused * twice.saturating_sub(1) + (twice + commit_bound(session, script, parts))
        }
        Err(_) => unreachable!(),
    }
}

/// The moves of a transaction between its last lock and its first installation: it is decided, or its intent
/// is logged, its packet is posted, enters for each pass, goes through all stages, and is answered.
fn commit_bound(session: &Session, script: &Script, parts: Parts) -> u32
    requires sound { IsSound (plan_of session.now) }
    requires fit { IsFit (plan_of session.now) script.now.items }
    requires sets { IsParts session.now.layout script.now.items parts }
    ensures { result ≡ bound.commit_bound (plan_of session.now) script.now.items }
{
    if parts.hot.is_empty() {
        return 1;
    }
    let passes = hot_plan(&session.shape, &session.layout, script, &parts).passes();
    3 + u32::from(passes) * (1 + u32::from(session.shape.stages))
}

/// How many of the numbers below this one are not in the set.
fn others(set: OpSet, count: u8) -> u32
    ensures { result + members set count ≡ count }
{
    let mut others = 0;
    for number in 0..count {
        if !set.has(number) {
            others += 1;
        }
    }
    others
}

/// How many items all clients have together.
pub(crate) fn item_count(session: &Session) -> usize
    requires { IsSound (plan_of session.now) }
    ensures { result ≡ item_count (plan_of session.now) }
{
    let mut items = 0;
    for client in 0..session.clients() {
        items += session.clients.items(client).len();
    }
    items
}
