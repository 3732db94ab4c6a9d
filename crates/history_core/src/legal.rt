//! Whether the scripts of entries, run serially, give the replies that are kept.

ghost use Rattle.std.specs.Prelude.{◌≡◌, ◌↔◌, All, IfOk, OnOk, IsTrue, IsSome};
ghost use Rattle.std.specs.FinMap.{get};
ghost use Rattle.txn_model.specs.Serial.{serial};
ghost use Rattle.catalogue.specs.Plan.{script_at};
ghost use Rattle.catalogue.specs.PlanOf.{plan_of};
ghost use Rattle.catalogue.specs.Sound.{IsSound};
ghost use Rattle.history_model.specs.Legal.{HasReply, IsLegal};
ghost use Rattle.history_core.specs.Own.{plain_kept};

use crate::own_entries::Kept;
use crate::walk::Walk;
use catalogue::Session;
use history_model::Entry;
use std::alloc::Global;
use txn_model::{NoMemory, Pair, Pairs, TupleMap, run_serial};

/// Runs the script of an entry's item; `tuples` becomes the map that it leaves. Where the item is no
/// transaction, nothing is run.
fn run_item(
    alloc: Global,
    session: &Session,
    entry: &Entry,
    tuples: &mut TupleMap,
) -> Result<Pairs, NoMemory>
    requires sound { IsSound (plan_of session.now) }
    requires there { All (λ op. IsSome (get tuples.old op.tuple)) (script_at (plan_of session.now) entry.now.client entry.now.seq) }
    ensures reply { IfOk result (λ pairs. pairs.items ≡ (serial (script_at (plan_of session.now) entry.now.client entry.now.seq) tuples.old).reply) }
    ensures tuples { OnOk result (tuples.new ≡ (serial (script_at (plan_of session.now) entry.now.client entry.now.seq) tuples.old).after) }
{
    let Some(script) = session.script(entry.client, entry.seq) else {
        return Pairs::zeros(alloc, 0);
    };
    let mut pairs = Pairs::zeros(alloc, script.len() as u8)?;
    run_serial(script, tuples, &mut pairs);
    Ok(pairs)
}

/// Whether the entry, where it is answered, has these pairs.
fn agrees(kept: &Kept, pairs: &[Pair]) -> bool
    ensures { IsTrue result ↔ HasReply (plain_kept kept.now).pairs pairs.now }
{
    match kept.reply() {
        Some(reply) => reply.as_slice() == pairs,
        None => true,
    }
}

/// Whether the entries' scripts, run serially on the session's first values, give the replies beside them.
pub(crate) fn are_legal(alloc: Global, session: &Session, entries: Walk) -> Result<bool, NoMemory>
    requires { IsSound (plan_of session.now) }
    ensures { IfOk result (λ legal. IsTrue legal ↔ IsLegal (script_at (plan_of session.now)) (plan_of session.now).tuples entries.entry) }
{
    let mut entries = entries;
    let mut tuples = session.tuples.copy(alloc)?;
    while let Some(kept) = entries.next_kept() {
        let pairs = run_item(alloc, session, &kept.entry, &mut tuples)?;
        if !agrees(kept, pairs.as_slice()) {
            return Ok(false);
        }
    }
    Ok(true)
}
