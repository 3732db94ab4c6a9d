//! The rules of operations, and the first operation of a session that breaks one.

ghost use Rattle.std.specs.Prelude.{◌≡◌, ◌<◌, ◌≤◌, ◌^◌, slice_get, All, length, None};
ghost use Rattle.txn_model.specs.ScriptCheck.{first_repeat, first_bad_use, script_fault};
ghost use Rattle.catalogue.specs.Items.{plain_item, plain_items};
ghost use Rattle.catalogue.specs.PlanOf.{plan_of};
ghost use Rattle.session_reader.specs.FirstPlace.{first_in_item, found_of, first_place};
ghost use Rattle.session_reader.specs.Rules.{breaks, first_unknown, repeat_in, bad_use_in, HasOps, IsReady, OfScript};

use crate::fault::OpAt;
use catalogue::{Item, Session};
use txn_model::{Op, Script, ScriptFault, TupleMap};
use warm_split::split;

/// What each operation of a session has to keep, in the order in which it's looked at.
#[derive(Clone, Copy, Debug, PartialEq, Eq)]
pub(crate) enum Rule {
    /// Its tuple is there.
    KnownTuple,
    /// No earlier operation of its script has its tuple.
    TupleOnce,
    /// It needs earlier operations alone.
    EarlierNeeds,
    /// If it is on a hot tuple, it needs no late operation.
    OneTurn,
}

/// The first operation of the session that breaks the rule.
#[tactic(auto, using(crate::proofs::Searches::first_place_counted))]
pub(crate) fn first_place(rule: Rule, session: &Session) -> Option<OpAt>
    requires { All (All (OfScript (IsReady rule))) (plan_of session.now).clients }
    ensures { result ≡ first_place (breaks rule (plan_of session.now)) (plan_of session.now).clients }
{
    for client in 0..session.clients() {
        let items = session.clients.items(client);
        if let Some(at) = first_in_items(rule, session, client, items) {
            return Some(at);
        }
    }
    None
}

/// The first operation of the client's items that breaks the rule.
#[tactic(auto, using(crate::proofs::Searches::first_of_client))]
fn first_in_items(rule: Rule, session: &Session, client: u8, items: &[Item]) -> Option<OpAt>
    requires few { length items.now < 2 ^ 32 }
    requires ready { All (OfScript (IsReady rule)) (plain_items items.now) }
    ensures { result ≡ slice_get (found_of (breaks rule (plan_of session.now)) client (plain_items items.now)) 0 }
{
    for (i, item) in items.iter().enumerate() {
        if let Some(op) = first_in_item(rule, session, item) {
            let seq = i as u32 + 1;
            return Some(OpAt { client, seq, op });
        }
    }
    None
}

fn first_in_item(rule: Rule, session: &Session, item: &Item) -> Option<u8>
    requires { OfScript (IsReady rule) (plain_item item.now) }
    ensures { result ≡ first_in_item (breaks rule (plan_of session.now)) (plain_item item.now) }
{
    match item {
        Item::Run(script) => first_in_script(rule, session, script),
        Item::Lose => None,
    }
}

/// The first operation of the script that breaks the rule.
fn first_in_script(rule: Rule, session: &Session, script: &Script) -> Option<u8>
    requires { IsReady rule script.now.items }
    ensures { result ≡ breaks rule (plan_of session.now) script.now.items }
{
    match rule {
        Rule::KnownTuple => first_unknown(&session.tuples, script.as_slice()),
        Rule::TupleOnce => first_repeat(script),
        Rule::EarlierNeeds => first_bad_use(script),
        Rule::OneTurn => split(script, &session.layout).err().map(|turn| turn.0),
    }
}

#[tactic(auto, using(txn_model::proofs::FirstPlaces::first_counted))]
fn first_unknown(tuples: &TupleMap, ops: &[Op]) -> Option<u8>
    requires { length ops.now ≤ 16 }
    ensures { result ≡ first_unknown tuples.now ops.now }
{
    for (i, op) in ops.iter().enumerate() {
        if tuples.get(op.tuple).is_none() {
            return Some(i as u8);
        }
    }
    None
}

#[tactic(auto, using(crate::proofs::ScriptRules::repeat_shown))]
fn first_repeat(script: &Script) -> Option<u8>
    requires { HasOps script.now.items }
    ensures { result ≡ first_repeat script.now.items }
{
    match script.check() {
        Ok(()) => None,
        Err(fault) => repeat_in(fault),
    }
}

fn repeat_in(fault: ScriptFault) -> Option<u8>
    ensures { result ≡ repeat_in fault }
{
    match fault {
        ScriptFault::TupleTwice(op) => Some(op),
        ScriptFault::Empty | ScriptFault::TooLong(_) | ScriptFault::BadUse(_) => None,
    }
}

#[tactic(auto, using(crate::proofs::ScriptRules::bad_use_shown))]
fn first_bad_use(script: &Script) -> Option<u8>
    requires ops { HasOps script.now.items }
    requires distinct { first_repeat script.now.items ≡ None }
    ensures { result ≡ first_bad_use script.now.items }
{
    match script.check() {
        Ok(()) => None,
        Err(fault) => bad_use_in(fault),
    }
}

fn bad_use_in(fault: ScriptFault) -> Option<u8>
    ensures { result ≡ bad_use_in fault }
{
    match fault {
        ScriptFault::BadUse(op) => Some(op),
        ScriptFault::Empty | ScriptFault::TooLong(_) | ScriptFault::TupleTwice(_) => None,
    }
}
